// What the first argument asks for.
ghost use Rattle.std.specs.Prelude.{◌≡◌};
ghost use Rattle.command.specs.Verbs.{verb_of, asks_help};

use text::is_named;

#[derive(Clone, Copy, Debug, PartialEq, Eq)]
pub enum Verb {
    Report,
    Explain,
    Correct,
    Rewrite,
    Invert,
    Check,
    Help,
    Version,
    Unknown,
}

const REPORT: [u8; 6] = *b"report";

const EXPLAIN: [u8; 7] = *b"explain";

const CORRECT: [u8; 7] = *b"correct";

const REWRITE: [u8; 7] = *b"rewrite";

const INVERT: [u8; 6] = *b"invert";

const CHECK: [u8; 5] = *b"check";

const VERSION: [u8; 9] = *b"--version";

const LONG_HELP: [u8; 6] = *b"--help";

const SHORT_HELP: [u8; 2] = *b"-h";

// Whether a word asks for help.
pub fn asks_help(word: &[u8]) -> bool
    ensures { result ≡ asks_help word.now }
{
    if is_named(word, &LONG_HELP) {
        return true;
    }
    is_named(word, &SHORT_HELP)
}

pub fn verb_of(word: &[u8]) -> Verb
    ensures { result ≡ verb_of word.now }
{
    if is_named(word, &REPORT) {
        return Verb::Report;
    }
    if is_named(word, &EXPLAIN) {
        return Verb::Explain;
    }
    if is_named(word, &CORRECT) {
        return Verb::Correct;
    }
    if is_named(word, &REWRITE) {
        return Verb::Rewrite;
    }
    if is_named(word, &INVERT) {
        return Verb::Invert;
    }
    if is_named(word, &CHECK) {
        return Verb::Check;
    }
    if is_named(word, &VERSION) {
        return Verb::Version;
    }
    if asks_help(word) {
        return Verb::Help;
    }
    Verb::Unknown
}
