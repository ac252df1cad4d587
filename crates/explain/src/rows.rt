// The rows that a colour's code is made of, and the least and the greatest of their codes.
ghost use Rattle.std.specs.Prelude.{◌≡◌, ℕ, ◌*◌, ◌<◌};
ghost use Rattle.rules.specs.Looking.Interpolation.{row_code};
ghost use Rattle.rules.specs.Demands.{Each};
ghost use Rattle.colour.specs.Adding.{RowAt};
ghost use Rattle.halves.specs.Listed.{listed};
ghost use Rattle.explain.specs.Spans.{carries, widened, span_of, shown_span, Seen};

use colour::row_code;
use halves::{Four, four_of};
use rules::{Colour, Depths, Description, Share, Shares};

// The least and the greatest of some codes.
#[derive(Clone, Copy)]
pub struct Span {
    pub least: u16,
    pub greatest: u16,
}

// Whether a row carries weight.
pub fn carries(share: Share) -> bool
    ensures { result ≡ carries share }
{
    share.weight > 0
}

// With one row more; a row that carries no weight changes nothing.
fn wider(span: Span, table: &[i64], m: u16, c: Colour, share: Share) -> Span
    requires { RowAt table.now (3 * share.row) }
    ensures { (den : ℕ) → 0 < den → result ≡ widened (row_code m den table.now c) share span }
{
    if !carries(share) {
        return span;
    }
    let code = row_code(table, m, c, share.row);
    let least = code.min(span.least);
    let greatest = code.max(span.greatest);
    Span { least, greatest }
}

// The least and the greatest code of the rows that carry weight; the last is added first.
fn span_of(table: &[i64], m: u16, c: Colour, four: Four) -> Span
    requires { Each (λ s. RowAt table.now (3 * s.row)) (listed four) }
    ensures { (den : ℕ) → 0 < den → result ≡ span_of (row_code m den table.now c) m (listed four) }
{
    let none = Span {
        least: m,
        greatest: 0,
    };
    let last = wider(none, table, m, c, four.fourth);
    let last_two = wider(last, table, m, c, four.third);
    let last_three = wider(last_two, table, m, c, four.second);
    wider(last_three, table, m, c, four.first)
}

// The least and the greatest code of the rows that a colour's code is made of. The code never lies outside them.
pub fn span_shown(d: Description, table: &[i64], depths: Depths, shares: Shares, c: Colour) -> Span
    requires { Seen d table.now depths shares }
    ensures { result ≡ shown_span d table.now depths shares c }
{
    let kind = d.kind;
    let corrected = depths.corrected;
    span_of(table, corrected.greatest(), c, four_of(kind, c, shares))
}
