// Equations that bind: which literal gains a variable, and the first of them from the left.
ghost use Rattle.std.specs.Prelude.{◌≡◌, IfSome, ◌+◌, ◌<◌};
ghost use Rattle.tables.specs.WellFormed.{Inside};
ghost use Rattle.rulesafety.specs.Bound.{bits_of, BodyInside};
ghost use Rattle.rulesafety.specs.Scanned.{gains, first_gain};

use crate::bound::{Bound, term_bound};
use codes::EQUAL;
use tables::{BUILTIN, COMPARISON, FIRST, LITERAL, NO_OPERATION, OPERATION, SECOND, SORT, TERMS};

// The literal binds a variable: an unbound one alone on the left of `=`, with every variable on the right bound.
fn gains(bound: Bound, literals: &[u64], literal: usize) -> bool
    requires { Inside literals.now literal }
    ensures { result ≡ gains (bits_of bound) literals.now literal }
{
    let row = literal * LITERAL;
    if literals[row + SORT] < BUILTIN {
        return false;
    }
    if literals[row + COMPARISON] != EQUAL {
        return false;
    }
    if term_bound(bound, literals[row + TERMS]) {
        return false;
    }
    if !term_bound(bound, literals[row + FIRST]) {
        return false;
    }
    if literals[row + OPERATION] == NO_OPERATION {
        return true;
    }
    term_bound(bound, literals[row + SECOND])
}

// The first row of a body that binds a variable. The body has `count` rows from `first` on.
pub fn first_gain(literals: &[u64], first: usize, count: usize, bound: Bound) -> Option<usize>
    requires { BodyInside literals.now first count }
    ensures is { result ≡ first_gain (gains (bits_of bound) literals.now) count first }
    ensures inside { IfSome result (λ literal. literal < first + count) }
{
    (first..first + count).find(|literal| gains(bound, literals, *literal))
}
