// Could reading have given this description and this table? Document 01's check 24, with one function for each rule.
#![tactic(auto)]

ghost use Rattle.std.specs.Prelude.{◌≡◌, ◌*◌, ◌%◌, Bool, true, ◌&&◌, eqb, leb, nat_abs, length, take};
ghost use Rattle.rules.specs.Units.{bound_one, bound_limit, greatest_n, in_range, rows_of};
ghost use Rattle.rules.specs.Descriptions.{rows, every_colour, bounds_fit, ordered, narrow, one_domain, whole_bounds, agree, roomy, samples_fit, could_be_read};
ghost use Rattle.rules.specs.declared.Domain.{Domain};

use rules::{Description, Domain, Kind, TenMillionths, Thousandths};
use whole::Whole;

// ---- N and the rows

fn greatest_n(kind: Kind) -> usize
    ensures { result ≡ greatest_n kind }
{
    match kind {
        Kind::OneD => Kind::MOST_1D,
        Kind::ThreeD => Kind::MOST_3D,
    }
}

// N from 2 to 65536 in 1D, to 256 in 3D: else 7.
pub fn in_range(kind: Kind, n: usize) -> bool
    ensures { result ≡ in_range kind n }
{
    2 <= n && n <= greatest_n(kind)
}

// A 1D table has N rows, a 3D table N·N·N.
// Stays: a kind and an N, and no type of sizes in range: a description has both as fields of its own, so the type would be built at each call, as in
// `count_rows(Size { kind: d.kind, n: d.n })`, and be taken apart at once.
pub fn count_rows(kind: Kind, n: usize) -> usize
    requires { in_range kind n ≡ true }
    ensures { result ≡ rows_of kind n }
{
    match kind {
        Kind::OneD => n,
        Kind::ThreeD => n * n * n,
    }
}

// ---- a domain by itself

fn bound_fits(bound: Thousandths) -> bool
    ensures { result ≡ leb (nat_abs bound.0) bound_limit }
{
    Thousandths::LEAST <= bound.0 && bound.0 <= Thousandths::GREATEST
}

// Both bounds lie from -10 to 10.
#[tactic(auto, unfolding(rules::specs::Descriptions::bounds_fit))]
pub fn bounds_fit(dom: Domain) -> bool
    ensures { result ≡ bounds_fit dom }
{
    bound_fits(dom.lower) && bound_fits(dom.upper)
}

// The lower bound is below the upper: else 10.
pub fn ordered(dom: Domain) -> bool
    ensures { result ≡ ordered dom }
{
    dom.lower.0 < dom.upper.0
}

// At most 10 wide: else 11. A difference that is beyond an i64 is as wide as the greatest, or as narrow as the least.
#[tactic(auto, unfolding(rules::specs::Descriptions::narrow))]
pub fn narrow(dom: Domain) -> bool
    ensures { result ≡ narrow dom }
{
    dom.upper.0.saturating_sub(dom.lower.0) <= Thousandths::WIDEST
}

fn whole_bound(bound: Thousandths) -> bool
    ensures { result ≡ eqb (nat_abs bound.0 % bound_one) 0 }
{
    Whole(bound.0).size() % Thousandths::ONE == 0
}

// Both bounds are whole numbers.
#[tactic(auto, unfolding(rules::specs::Descriptions::whole_bounds))]
pub fn whole_bounds(dom: Domain) -> bool
    ensures { result ≡ whole_bounds dom }
{
    whole_bound(dom.lower) && whole_bound(dom.upper)
}

// ---- the three domains

// Each colour's domain keeps a rule: the answer is that of any test that says what the rule says.
pub fn domains_keep<F: Fn(Domain) -> bool>(rule: F, d: Description) -> bool
    requires red { F.pre rule d.red }
    requires green { F.pre rule d.green }
    requires blue { F.pre rule d.blue }
    ensures { (test : Domain → Bool) → ((dom : Domain) (kept : Bool) → F.post rule dom kept → kept ≡ test dom) → result ≡ every_colour test d }
{
    rule(d.red) && rule(d.green) && rule(d.blue)
}

// The three colours have one domain.
pub fn one_domain(d: Description) -> bool
    ensures { result ≡ one_domain d }
{
    d.green == d.red && d.blue == d.red
}

// In 3D the three colours have one domain, or all six bounds are whole numbers: else 12.
#[tactic(auto, unfolding(rules::specs::Descriptions::agree))]
pub fn agree(kind: Kind, d: Description) -> bool
    ensures { result ≡ agree kind d }
{
    match kind {
        Kind::OneD => true,
        Kind::ThreeD => one_domain(d) || domains_keep(whole_bounds, d),
    }
}

// ---- the samples

// Whether no sample is negative and none is 2^33 or more, by one pass that asks nothing of any sample by itself: the bits of all of them together are few.
fn all_small(samples: &[i64]) -> bool
    ensures { result ≡ true → samples_fit samples.now ≡ true }
{
    let mut any: i64 = 0;
    for s in samples {
        any |= *s;
    }
    0 <= any && any < 8_589_934_592
}

// All samples lie from -1000 to 1000 if the least and the greatest of them do.
fn each_fits(samples: &[i64]) -> bool
    ensures { result ≡ samples_fit samples.now }
{
    // Stays: no `all`, which leaves at the first that is beyond. So no branch hangs on a sample; with `samples.iter().all(..)` the scan of 33 × 33 × 33 rows with
    // one sample below 0 took 1.4 times as long.
    let mut least = Whole(0);
    let mut greatest = Whole(0);
    for sample in samples {
        let s = Whole(*sample);
        least = s.lesser(least);
        greatest = s.greater(greatest);
    }
    TenMillionths::LEAST <= least.0 && greatest.0 <= TenMillionths::GREATEST
}

// All samples lie from -1000 to 1000: nearly all tables pass by the first way.
fn samples_fit(samples: &[i64]) -> bool
    ensures { result ≡ samples_fit samples.now }
{
    all_small(samples) || each_fits(samples)
}

// ---- 24

// The table has its 3·rows numbers, and each of them fits.
#[tactic(auto, unfolding(rules::specs::Descriptions::roomy))]
fn table_fits(d: Description, table: &[i64]) -> bool
    requires { in_range d.kind d.n ≡ true }
    ensures { result ≡ (roomy (length table.now) d && samples_fit (take (3 * rows d) table.now)) }
{
    let numbers = 3 * count_rows(d.kind, d.n);
    numbers <= table.len() && samples_fit(&table[..numbers])
}

// Each domain by itself.
fn domains_fit(d: Description) -> bool
    ensures { result ≡ (every_colour bounds_fit d && (every_colour ordered d && every_colour narrow d)) }
{
    domains_keep(bounds_fit, d) && domains_keep(ordered, d) && domains_keep(narrow, d)
}

// Could reading have given them? The title's fields play no part.
#[tactic(auto, unfolding(rules::specs::Descriptions::could_be_read))]
pub fn could_be_read(d: Description, table: &[i64]) -> bool
    ensures { result ≡ could_be_read d table.now }
{
    in_range(d.kind, d.n) && domains_fit(d) && agree(d.kind, d) && table_fits(d, table)
}
