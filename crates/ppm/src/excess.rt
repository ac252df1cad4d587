// A code that is too great, with its colour.
ghost use Rattle.std.specs.Prelude.{◌≡◌};
ghost use Rattle.ppm.specs.Excess.{colour_at, excess_at};

use rules::Colour;

#[derive(Clone, Copy, Debug, PartialEq, Eq)]
pub struct Excess {
    pub colour: Colour,
    pub code: u16,
}

// Codes stand in the order red, green, blue, pixel after pixel.
#[tactic(auto, unfolding(crate::specs::Excess::colour_at))]
fn colour_at(place: usize) -> Colour
    ensures { result ≡ colour_at place }
{
    match place % 3 {
        0 => Colour::Red,
        1 => Colour::Green,
        _ => Colour::Blue,
    }
}

// The code at a place, where there is one: given how many stand before the first that is above m, it is that one.
#[tactic(auto, unfolding(crate::specs::Excess::excess_at))]
pub fn excess_at(codes: &[u16], place: usize) -> Option<Excess>
    ensures { result ≡ excess_at codes.now place }
{
    let code = *codes.get(place)?;
    let colour = colour_at(place);
    Some(Excess { colour, code })
}
