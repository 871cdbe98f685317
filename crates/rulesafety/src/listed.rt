// Rows of literals, listed one behind the other, and those of a body's positive atoms.
ghost use Rattle.std.specs.Prelude.{◌≡◌, ◌≤◌, ◌<◌};
ghost use Rattle.grammar.specs.Sizes.{most_literals};
ghost use Rattle.rulesafety.specs.Bound.{BodyInside};
ghost use Rattle.rulesafety.specs.Listed.{no_rows, with_listed, Lists, positive_rows};

use tables::{LITERAL, POSITIVE, SORT};
use texts::sizes::MOST_LITERALS;

// Rows of literals: the first `count` of them.
#[derive(Clone, Copy)]
pub struct Rows {
    // No heap: the rows stand in an array, with their number beside it.
    pub rows: [u64; MOST_LITERALS],
    pub count: usize,
}

impl Rows {
    // None is listed.
    pub fn new() -> Rows
        ensures { result ≡ no_rows }
    {
        Rows {
            rows: [0; MOST_LITERALS],
            count: 0,
        }
    }

    // One more is listed, behind the others.
    pub fn push(&mut self, literal: usize)
        requires { self.old.count < most_literals }
        ensures { self.new ≡ with_listed self.old literal }
    {
        self.rows[self.count] = literal as u64;
        self.count += 1;
    }
}

// The rows of a body's positive literals, in text order. The body has `count` rows from `first` on.
pub fn positives_of(literals: &[u64], first: usize, count: usize) -> Rows
    requires { BodyInside literals.now first count × (count ≤ most_literals) }
    ensures { Lists result (positive_rows literals.now count first) }
{
    let mut found = Rows::new();
    for literal in first..first + count {
        if literals[literal * LITERAL + SORT] == POSITIVE {
            found.push(literal);
        }
    }
    found
}
