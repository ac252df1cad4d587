// One line judged, in document 01's order of checks: its bytes, its place among the others, what it says.
ghost use Rattle.std.specs.Prelude.{◌≡◌, ◌+◌, ◌≤◌, length};
ghost use Rattle.rules.specs.Reading.Judge.{judge};
ghost use Rattle.reading.specs.View.{view};
ghost use Rattle.reading.specs.Verdicts.{judged_of};

use crate::checks::order_fault;
use crate::state::State;
use content::content_by;
use rules::Refusal;
use text::{byte_fault, form_of};

// A line that begins at a place of the file, for a table of so many places: the state after it, or why it is refused.
pub fn judge_line(st: State, l: &[u8], place: usize, places: usize) -> Result<State, Refusal>
    requires { place + length l.now ≤ 18_446_744_073_709_551_615 }
    ensures { judged_of result ≡ judge places (view st) place l.now }
{
    byte_fault(l)?;
    let form = form_of(l);
    order_fault(st, form, places)?;
    let item = content_by(form, l, place)?;
    Ok(st.with_item(item))
}
