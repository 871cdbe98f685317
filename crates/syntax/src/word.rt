// The size of a word: a name, a variable or a string.
ghost use Rattle.std.specs.Prelude.{◌≡◌, ◌-◌, ◌≤◌};
ghost use Rattle.syntax.specs.Terms.{FitsWord};

use texts::place::Place;
use texts::refusal::{Refusal, Refused};
use texts::sizes::MOST_NAME;

// A name or a variable is refused where it has too many bytes or is one too many.
pub fn fits_word(place: Place, over: bool) -> Result<(), Refused>
    ensures { FitsWord place place.len over result }
{
    fits(place, place.len, over)
}

// .. and a string, without its two quotes.
pub fn fits_string(place: Place, over: bool) -> Result<(), Refused>
    requires { 2 ≤ place.len }
    ensures { FitsWord place (place.len - 2) over result }
{
    fits(place, place.len - 2, over)
}

// .. what stands at a place and counts as so many bytes.
fn fits(place: Place, len: usize, over: bool) -> Result<(), Refused>
    ensures { FitsWord place len over result }
{
    if over || MOST_NAME < len {
        return Err(Refused {
            refusal: Refusal::OverSize,
            place,
        });
    }
    Ok(())
}
