// The token at a place, as the productions see it.
ghost use Rattle.std.specs.Prelude.{◌≡◌};
ghost use Rattle.texts.specs.Place.{Stands};
ghost use Rattle.syntax.specs.Text.{token_read};

use lexis::kind::kind_number;
use texts::place::Place;
use tokens::next_token;

// A token: the number of its kind, and where it stands. Reading goes on behind it.
#[derive(Clone, Copy)]
pub struct TokenRead {
    pub kind: u8,
    pub place: Place,
}

// The first token at or after `at`. `ground`: the text is a facts line, where neither a comment nor a newline may stand.
pub fn token_at(text: &[u8], at: Place, ground: bool) -> TokenRead
    requires { Stands text.now at }
    ensures { result ≡ token_read ground text.now at.start }
{
    let token = next_token(text, at, !ground);
    let kind = token.kind;
    let place = token.place;
    TokenRead {
        kind: kind_number(kind),
        place,
    }
}
