// What may stand around the report: lines that are empty or start with `%`.
ghost use Rattle.std.specs.Prelude.{◌≡◌};
ghost use Rattle.texts.specs.Place.{Stands};
ghost use Rattle.report.specs.Around.{is_idle, OutOfPlace};

use crate::line::line_behind;
use crate::reader::Lines;
use texts::place::{Place, with_len};

// A line; or none, and the text's end.
// It stays beside `Option` and `Result`: both places are handed on, and of a line that is found only the caller knows whether it is a fault.
#[derive(Clone, Copy)]
pub enum Found {
    End(Place),
    Line(Place),
}

// Is the line empty, or does it start with `%`?
fn is_idle(line: &[u8]) -> bool
    ensures { result ≡ is_idle line.now }
{
    line.first().is_none_or(|byte| *byte == b'%')
}

// The first line from `at` on that is neither empty nor starts with `%`. Behind the report such a line is out of place.
pub fn out_of_place(text: &[u8], at: Place) -> Found
    requires { Stands text.now at }
    ensures { OutOfPlace text.now at.start result }
{
    let mut start = at;
    for line in Lines::new(text, at.start) {
        let place = with_len(start, line.len());
        if !is_idle(line) {
            return Found::Line(place);
        }
        start = line_behind(text, place);
    }
    Found::End(with_len(start, 0))
}
