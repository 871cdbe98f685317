// The first variable of a rule that is not bound.
ghost use Rattle.texts.specs.Places.{places_in};
ghost use Rattle.rulesafety.specs.Bound.{bits_of};
ghost use Rattle.rulesafety.specs.Unbound.{Numbered, FirstUnbound};

use crate::bound::Bound;
use texts::place::Place;
use texts::places::place_in;

// The first occurrence of the variable with the least number that is not bound, of `count`. `variables` has where each of them first stands,
// by its number.
pub fn first_unbound(bound: Bound, variables: &[u32], count: usize) -> Option<Place>
    requires { Numbered variables.now count }
    ensures { FirstUnbound (bits_of bound) (places_in variables.now count) result }
{
    let number = bound.bits[..count].iter().position(|bit| !*bit)?;
    Some(place_in(variables, number))
}
