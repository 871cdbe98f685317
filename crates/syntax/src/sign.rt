// The sign of a comparison.
ghost use Rattle.std.specs.Prelude.{◌≡◌, ◌&&◌, leb};

use lexis::kind::{AT_LEAST, EQUAL};

// Is it the kind of a comparison's sign?
pub fn is_comparison(kind: u8) -> bool
    ensures { result ≡ (leb 13 kind && leb kind 19) }
{
    if kind < EQUAL {
        return false;
    }
    kind <= AT_LEAST
}
