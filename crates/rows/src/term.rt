// Terms to numbers: a number is its code, a name the code of its place in the table of names.
ghost use Rattle.std.specs.Prelude.{◌≡◌, true, [], Some};
ghost use Rattle.texts.specs.Parts.{part};
ghost use Rattle.meaning.specs.Values.{number, in_range};
ghost use Rattle.codes.specs.Codes.{number_code};
ghost use Rattle.names.specs.Numbering.{Interns};
ghost use Rattle.syntax.specs.Terms.{signed};
ghost use Rattle.rows.specs.Growth.{Room, Source};

use codes::FIRST_NUMBER;
use names::intern;
use texts::parts::part;
use texts::place::Place;

// The code of 0.
const ZERO: u64 = FIRST_NUMBER + 1_000_000_000;

// The number of the name at a place of `text`, which starts at `base` of the two texts.
pub fn name_number<'a>(
    program: &'a [u8],
    output: &'a [u8],
    text: &'a [u8],
    names: &mut [u32],
    base: usize,
    place: Place,
) -> usize
    requires { (Room program.now output.now names.old 1 × Source program.now output.now text.now base) × (part text.now place ≡ [] → ⊥) }
    ensures { Interns program.now output.now names.old (part text.now place) names.new (Some result) }
{
    let name = part(text, place);
    intern(program, output, names, name, base + place.start).unwrap()
}

// The code of a number, behind a minus or not.
pub fn number_code(negative: bool, value: u64) -> u64
    requires { in_range (number (signed negative value)) ≡ true }
    ensures { result ≡ number_code (signed negative value) }
{
    if negative {
        return ZERO - value;
    }
    ZERO + value
}
