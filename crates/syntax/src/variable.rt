// The number of a variable in its rule, by first occurrence. The places of the variables met are lent.
ghost use Rattle.std.specs.Prelude.{◌≡◌, map, ◌*◌, ◌≤◌, length};
ghost use Rattle.texts.specs.Parts.{part};
ghost use Rattle.texts.specs.Places.{place_stride, places_in};
ghost use Rattle.syntax.specs.Variables.{first_among};

use texts::parts::{part, same_bytes};
use texts::place::Place;
use texts::places::place_in;

// Which of the `met` variables has the same bytes as `place`: the number of the first, or how many there are.
pub fn variable_number(text: &[u8], place: Place, variables: &[u32], met: usize) -> usize
    requires { met * place_stride ≤ length variables.now }
    ensures { result ≡ first_among (part text.now place) (map (part text.now) (places_in variables.now met)) }
{
    let name = part(text, place);
    for i in 0..met {
        if same_bytes(name, part(text, place_in(variables, i))) {
            return i;
        }
    }
    met
}
