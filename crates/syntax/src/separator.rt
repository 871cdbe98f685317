// What stands behind one of several things: a comma before the next, or the mark behind the last.
ghost use Rattle.std.specs.Prelude.{◌≡◌};
ghost use Rattle.texts.specs.Place.{Stands};
ghost use Rattle.syntax.specs.Arguments.{Separates};

use crate::token::token_at;
use lexis::kind::COMMA;
use texts::place::{Place, past};
use texts::refusal::{Refusal, Refused};

// A comma, or, where `last`, the mark.
#[derive(Clone, Copy)]
pub struct Separator {
    pub behind: Place,
    pub last: bool,
}

// The separator at a place, where `mark` is the number of the kind that ends the list.
pub fn separator_at(text: &[u8], at: Place, ground: bool, mark: u8) -> Result<Separator, Refused>
    requires { Stands text.now at }
    ensures { Separates ground text.now at.start mark result }
{
    let token = token_at(text, at, ground);
    if token.kind != COMMA && token.kind != mark {
        return Err(Refused {
            refusal: Refusal::Misplaced,
            place: token.place,
        });
    }
    Ok(Separator {
        behind: past(token.place),
        last: token.kind != COMMA,
    })
}
