// A line by itself: whether its bytes are permitted, and its form.
ghost use Rattle.std.specs.Prelude.{◌≡◌, [], ◌∷◌};
ghost use Rattle.std.specs.Result.{result_err};
ghost use Rattle.rules.specs.Reading.Lines.{number_byte, starts};
ghost use Rattle.rules.specs.Reading.Contents.{form_of, word_form};
ghost use Rattle.rules.specs.Reading.Judge.{byte_fault};

use crate::keywords::keyword_of;
use crate::runs::every;
use crate::words::next_word;
use rules::{Form, Refusal};
use scan::{ByteKind, is_number_byte};

// A line has at most so many bytes.
const LINE_LIMIT: usize = 250;

// The checks 1 and 2: the length of a line, then its bytes.
pub fn byte_fault(l: &[u8]) -> Result<(), Refusal>
    ensures { result_err result ≡ byte_fault l.now }
{
    if l.len() > LINE_LIMIT {
        return Err(Refusal::LineTooLong);
    }
    if !every(l, ByteKind::Permitted) {
        return Err(Refusal::ByteNotPermitted);
    }
    Ok(())
}

// The form of a line: empty, a comment, or by its first word; blanks alone have none.
pub fn form_of(l: &[u8]) -> Form
    ensures { result ≡ form_of l.now }
{
    if l.len() == 0 {
        return Form::Idle;
    }
    if l[0] == b'#' {
        return Form::Idle;
    }
    // most data lines show it by their first byte
    if is_number_byte(l[0]) {
        return Form::Data;
    }
    let Some(word) = next_word(l, 0) else {
        return Form::Neither;
    };
    word_form(&l[word.start..word.end])
}

// The form of a line by its first word.
fn word_form(w: &[u8]) -> Form
    ensures { result ≡ word_form (w.now ∷ []) }
{
    if starts_number(w) {
        return Form::Data;
    }
    match keyword_of(w) {
        Some(k) => Form::Keyed(k),
        None => Form::Neither,
    }
}

// Whether a word starts as a number does.
fn starts_number(w: &[u8]) -> bool
    ensures { result ≡ starts number_byte w.now }
{
    w.len() != 0 && is_number_byte(w[0])
}
