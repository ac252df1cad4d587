// The checks that a line's place among the others, and the end of the file, have to pass.
ghost use Rattle.std.specs.Prelude.{◌≡◌, ℕ, true, cond, ltb};
ghost use Rattle.std.specs.Result.{result_err};
ghost use Rattle.rules.specs.Units.{in_range};
ghost use Rattle.rules.specs.Descriptions.{rows, every_colour, bounds_fit};
ghost use Rattle.rules.specs.Reading.Judge.{describe, first, domain_fault, head_fault, order_fault, end_fault};
ghost use Rattle.rules.specs.Reading.{finish};
ghost use Rattle.rules.specs.declared.Form.TheVariants.{Keyed, Data};
ghost use Rattle.reading.specs.View.{view};

use crate::state::State;
use judge::{agree, count_rows, domains_keep, narrow, ordered};
use rules::{Description, Form, Keyword, Refusal, Refused};

// 10 to 13, of a description and a table of so many places.
#[tactic(auto, unfolding(rules::specs::Reading::Judge::domain_fault, rules::specs::Reading::Judge::need, rules::specs::Descriptions::roomy))]
fn domain_fault(d: Description, places: usize) -> Result<(), Refusal>
    requires n_value { in_range d.kind d.n ≡ true }
    requires d_value { every_colour bounds_fit d ≡ true }
    ensures { result_err result ≡ domain_fault places d }
{
    if !domains_keep(ordered, d) {
        return Err(Refusal::LowerNotBelowUpper);
    }
    if !domains_keep(narrow, d) {
        return Err(Refusal::DomainTooWide);
    }
    if !agree(d.kind, d) {
        return Err(Refusal::DomainsDiffer);
    }
    if places < 3 * count_rows(d.kind, d.n) {
        return Err(Refusal::TooLittleRoom);
    }
    Ok(())
}

// 9, 19, 10 to 13, where there was no data line yet.
#[tactic(auto, unfolding(rules::specs::Reading::Judge::head_fault, rules::specs::Reading::Judge::given_fault, rules::specs::Reading::Judge::need))]
fn head_fault(st: State, places: usize) -> Result<(), Refusal>
    ensures { result_err result ≡ head_fault places (view st) }
{
    if st.rows != 0 {
        return Ok(());
    }
    if st.size.is_none() {
        return Err(Refusal::NoSize);
    }
    if st.lower.is_some() != st.upper.is_some() {
        return Err(Refusal::HalfADomain);
    }
    domain_fault(st.describe(), places)
}

// A keyword: 4, 5.
#[tactic(auto, unfolding(rules::specs::Reading::Judge::order_fault, rules::specs::Reading::Judge::need))]
fn keyword_fault(st: State, k: Keyword) -> Result<(), Refusal>
    ensures { (places : ℕ) → result_err result ≡ order_fault places (view st) (Keyed k) }
{
    let late = st.rows != 0;
    let again = st.repeats(k);
    if late {
        return Err(Refusal::KeywordAfterData);
    }
    if again {
        return Err(Refusal::KeywordRepeated);
    }
    Ok(())
}

// 9, 19, 10 to 13, where there was no data line yet; then one answer where rows are left to come, and another where none are.
fn by_rows(
    st: State,
    places: usize,
    left: Result<(), Refusal>,
    full: Result<(), Refusal>,
) -> Result<(), Refusal>
    ensures { result_err result ≡ first (head_fault places (view st)) (cond (ltb st.rows (rows (describe (view st)))) (result_err left) (result_err full)) }
{
    head_fault(st, places)?;
    let size = st.size.unwrap();
    if st.rows < count_rows(size.kind, size.n) {
        left
    } else {
        full
    }
}

// A data line: 9, 19, 10 to 13, then 14.
fn data_fault(st: State, places: usize) -> Result<(), Refusal>
    ensures { result_err result ≡ order_fault places (view st) Data }
{
    by_rows(st, places, Ok(()), Err(Refusal::TooManyRows))
}

// Whether a line of a form may stand here.
pub fn order_fault(st: State, form: Form, places: usize) -> Result<(), Refusal>
    ensures { result_err result ≡ order_fault places (view st) form }
{
    match form {
        Form::Idle => Ok(()),
        Form::Keyed(k) => keyword_fault(st, k),
        Form::Data => data_fault(st, places),
        Form::Neither => Ok(()),
    }
}

// The end: 9, 19, 10 to 13 where there was no data line, then 18.
fn end_fault(st: State, places: usize) -> Result<(), Refusal>
    ensures { result_err result ≡ end_fault places (view st) }
{
    by_rows(st, places, Err(Refusal::TooFewRows), Ok(()))
}

// The answer where the file ends on a line.
pub fn conclude(st: State, line: usize, places: usize) -> Result<Description, Refused>
    ensures { result ≡ finish line (view st) (end_fault places (view st)) }
{
    end_fault(st, places).map_err(|reason| Refused { reason, line })?;
    Ok(st.describe())
}
