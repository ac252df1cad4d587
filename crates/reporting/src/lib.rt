// What the report program prints: five lines of an accepted file, or one of a refusal.
#![tactic(auto)]

ghost use Rattle.std.specs.Prelude.{◌≡◌, true, [], ◌∷◌, ◌++◌, Ok};
ghost use Rattle.rules.specs.Units.{in_range};
ghost use Rattle.rules.specs.Answers.{refusal_number};
ghost use Rattle.rules.specs.Decimals.{decimal, signed_decimal};
ghost use Rattle.rules.specs.Reporting.{line_of, cube_line, domain_lines, title_line, refused_line, answer_text, report, Reports};
ghost use Rattle.lettering.specs.Putting.{Room, Puts};
ghost use Rattle.lettering.specs.Pens.{HasRoom, Adds};
ghost use Rattle.reporting.specs.Telling.{TitleInside, Tellable};

use judge::count_rows;
use lettering::Pen;
use reading::read;
use rules::{Description, Domain, Kind, Refusal, Refused, Thousandths, Title};
use whole::Whole;

// The longest input, in bytes.
const MOST_BYTES: usize = 65_536;

// A bound with the byte that ends it: a tab, or a newline after the last.
fn put_bound(pen: &mut Pen, bound: Thousandths, end: u8)
    requires { HasRoom pen.old (signed_decimal bound.0 ++ (end ∷ [])) }
    ensures { Adds pen.old (signed_decimal bound.0 ++ (end ∷ [])) pen.new }
{
    pen.put_signed(Whole(bound.0));
    pen.put_byte(end);
}

// ---- lines, of which the first fields are given as they stand

// Two counts.
fn put_counts(pen: &mut Pen, start: &[u8], first: u64, second: u64)
    requires { HasRoom pen.old (start.now ++ line_of (decimal first ∷ decimal second ∷ [])) }
    ensures { Adds pen.old (start.now ++ line_of (decimal first ∷ decimal second ∷ [])) pen.new }
{
    pen.put(start);
    pen.put_count(first, b'\t');
    pen.put_count(second, b'\n');
}

// Lower, upper.
fn put_domain(pen: &mut Pen, start: &[u8], domain: Domain)
    requires { HasRoom pen.old (start.now ++ line_of (signed_decimal domain.lower.0 ∷ signed_decimal domain.upper.0 ∷ [])) }
    ensures { Adds pen.old (start.now ++ line_of (signed_decimal domain.lower.0 ∷ signed_decimal domain.upper.0 ∷ [])) pen.new }
{
    pen.put(start);
    put_bound(pen, domain.lower, b'\t');
    put_bound(pen, domain.upper, b'\n');
}

// Kind, N, rows.
fn put_cube(pen: &mut Pen, kind: Kind, n: usize)
    requires n_value { in_range kind n ≡ true }
    requires room { HasRoom pen.old (cube_line kind n) }
    ensures { Adds pen.old (cube_line kind n) pen.new }
{
    let rows = count_rows(kind, n);
    match kind {
        Kind::OneD => put_counts(pen, b"cube\t1D\t", n as u64, rows as u64),
        Kind::ThreeD => put_counts(pen, b"cube\t3D\t", n as u64, rows as u64),
    }
}

// Yes and the text, or no.
// Stays: a mark beside a place and a length, and no Option, as rules' `Title` has them for the eleven numbers of the C interface.
fn put_title(pen: &mut Pen, input: &[u8], title: Title)
    requires title_inside { TitleInside input.now title }
    requires room { HasRoom pen.old (title_line input.now title) }
    ensures { Adds pen.old (title_line input.now title) pen.new }
{
    if title.there {
        let end = title.place + title.length;
        pen.put_between(b"title\tyes\t", &input[title.place..end], b"\n");
    } else {
        pen.put(b"title\tno\n");
    }
}

// Number, line.
fn put_refused(out: &mut [u8], reason: Refusal, line: usize) -> usize
    requires { Room out.old 0 (refused_line (refusal_number reason) line) }
    ensures { Puts out.old 0 (refused_line (refusal_number reason) line) result out.new }
{
    let mut pen = Pen { bytes: out, at: 0 };
    put_counts(&mut pen, b"refused\t", reason.number() as u64, line as u64);
    pen.at
}

// ---- the text

fn put_domains(pen: &mut Pen, d: Description)
    requires { HasRoom pen.old (domain_lines d) }
    ensures { Adds pen.old (domain_lines d) pen.new }
{
    put_domain(pen, b"domain\tred\t", d.red);
    put_domain(pen, b"domain\tgreen\t", d.green);
    put_domain(pen, b"domain\tblue\t", d.blue);
}

fn put_accepted(out: &mut [u8], input: &[u8], d: Description) -> usize
    requires tellable { Tellable input.now d }
    requires room { Room out.old 0 (answer_text input.now (Ok d)) }
    ensures { Puts out.old 0 (answer_text input.now (Ok d)) result out.new }
{
    let mut pen = Pen { bytes: out, at: 0 };
    put_cube(&mut pen, d.kind, d.n);
    put_domains(&mut pen, d);
    put_title(&mut pen, input, d.title);
    pen.at
}

// What the report answers to its input.
pub fn answer_to(input: &[u8]) -> Result<Description, Refused>
    ensures { result ≡ report input.now }
{
    if MOST_BYTES < input.len() {
        return Err(Refused {
            reason: Refusal::InputTooLong,
            line: 0,
        });
    }
    let mut table = [0i64; 8190];
    read(input, &mut table)
}

// The text of that answer, from the first of the lent bytes on; answers its length, which is never more than theirs.
pub fn put_answer(input: &[u8], answer: Result<Description, Refused>, out: &mut [u8; 512]) -> usize
    requires { answer ≡ report input.now }
    ensures { Reports input.now out.old result out.new }
{
    match answer {
        Ok(d) => put_accepted(out, input, d),
        Err(refused) => put_refused(out, refused.reason, refused.line),
    }
}

// Both: the text of what is answered to the input.
pub fn report(input: &[u8], out: &mut [u8; 512]) -> usize
    ensures { Reports input.now out.old result out.new }
{
    put_answer(input, answer_to(input), out)
}
