// Where reading stands in a text, and what it may find there.
ghost use Rattle.std.specs.Prelude.{◌≡◌};
ghost use Rattle.terms.specs.Cursors.{onward};

use texts::place::Place;

// `base`: where the text starts in the two texts. `at`: where reading stands in it. `ground`: it is a facts line, which has no variables,
// no comments and no newlines. `over`: what stands here is one too many. `met`: how many variables of the rule have been met.
#[derive(Clone, Copy)]
pub struct Cursor {
    pub base: usize,
    pub at: Place,
    pub ground: bool,
    pub over: bool,
    pub met: usize,
}

// The cursor at another place of its text, behind which reading goes on.
pub fn onward(cursor: Cursor, at: Place, over: bool, met: usize) -> Cursor
    ensures { result ≡ onward cursor at over met }
{
    Cursor {
        at,
        over,
        met,
        ..cursor
    }
}
