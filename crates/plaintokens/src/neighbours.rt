// What a token's neighbours decide, by their kinds: whether the plain form leaves the token out, and whether a blank stands before it.
ghost use Rattle.std.specs.Prelude.{◌≡◌};
ghost use Rattle.plaintokens.specs.Neighbours.{ends_term, left_out, runs_together};

use lexis::kind::{AT_LEAST, CLOSE, EQUAL, MINUS, NUMBER, OPEN, STRING};

// May a term end with a token of the kind? It is a word, `)` or a string, and a minus behind it is an operation.
fn ends_term(kind: u8) -> bool
    ensures { result ≡ ends_term kind }
{
    if kind <= NUMBER {
        return true;
    }
    if kind == CLOSE {
        return true;
    }
    kind == STRING
}

// Is the token left out? By the kinds before, here and behind, and the first byte behind: `(` before `)`, `)` behind `(`, and `-` before the
// number 0, where it is no operation. No other number begins with a 0.
pub fn left_out(before: u8, here: u8, behind: u8, first: u8) -> bool
    ensures { result ≡ left_out before here behind first }
{
    if here == OPEN {
        return behind == CLOSE;
    }
    if here == CLOSE {
        return before == OPEN;
    }
    if here != MINUS {
        return false;
    }
    if ends_term(before) {
        return false;
    }
    if behind != NUMBER {
        return false;
    }
    first == b'0'
}

// Would tokens of the two kinds read as others side by side? They are two words or two comparisons.
pub fn runs_together(last: u8, here: u8) -> bool
    ensures { result ≡ runs_together last here }
{
    if last <= NUMBER {
        return here <= NUMBER;
    }
    if last < EQUAL {
        return false;
    }
    if AT_LEAST < last {
        return false;
    }
    if here < EQUAL {
        return false;
    }
    here <= AT_LEAST
}
