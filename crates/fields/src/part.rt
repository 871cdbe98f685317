// The part that an answer hands back: bytes of a lent text, where they stand in it.
ghost use Rattle.fields.specs.Parts.{Cut, HandedBack};

use crate::answer::{Part, Text};
use texts::place::Place;

// The bytes of a place, in the text itself; of a place that reaches past the text, those that are there.
fn cut(text: &[u8], place: Place) -> &[u8]
    ensures { Cut text.now text.entry.ref_ptr place result.now result.ref_ptr }
{
    let start = place.start.min(text.len());
    let length = place.len.min(text.len() - start);
    &text[start..start + length]
}

// The offending part of whichever of the two lent texts holds it.
pub fn part<'a>(program: &'a [u8], output: &'a [u8], part: Part) -> &'a [u8]
    ensures { HandedBack program.now program.entry.ref_ptr output.now output.entry.ref_ptr part result.now result.ref_ptr }
{
    let place = part.place;
    let text = part.text;
    match text {
        Text::Program => cut(program, place),
        Text::Output => cut(output, place),
    }
}
