// The span of a colour: M times it is D (document 01, "Interpolation"; document 02, Req 07).
ghost use Rattle.std.specs.Prelude.{◌≡◌};
ghost use Rattle.rules.specs.Descriptions.{domain, width, common_span, span, DomainFits};
ghost use Rattle.colour.specs.Plans.{Readable};

use judge::one_domain;
use rules::{Colour, Description, Domain, Kind, Thousandths};

// Stays: the three domains are named fields of rules' Description. A function for the fields of any struct, `by_colour(c, d.red, d.green, d.blue)`, would
// write the three at each call all the same.
pub fn domain_of(d: Description, c: Colour) -> Domain
    ensures { result ≡ domain d c }
{
    match c {
        Colour::Red => d.red,
        Colour::Green => d.green,
        Colour::Blue => d.blue,
    }
}

// w, the width of a domain, in thousandths.
pub fn width_of(dom: Domain) -> u64
    requires { DomainFits dom }
    ensures { result ≡ width dom }
{
    (dom.upper.0 - dom.lower.0) as u64
}

// 3D has one: w where the three colours have one domain, and else the widths in whole units times one another.
fn common_span(d: Description) -> u64
    requires { Readable d }
    ensures { result ≡ common_span d }
{
    let red = width_of(d.red);
    if one_domain(d) {
        return red;
    }
    let green = width_of(d.green);
    let blue = width_of(d.blue);
    red / Thousandths::ONE * (green / Thousandths::ONE) * (blue / Thousandths::ONE)
}

// In 1D each colour has its own, the width of its domain.
pub fn span_of(d: Description, c: Colour) -> u64
    requires { Readable d }
    ensures { result ≡ span d c }
{
    match d.kind {
        Kind::OneD => width_of(domain_of(d, c)),
        Kind::ThreeD => common_span(d),
    }
}
