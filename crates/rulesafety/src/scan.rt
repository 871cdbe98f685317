// The scan of a body's rows: what is bound, and the equations that bind, in the order in which they do.
ghost use Rattle.std.specs.Prelude.{◌≡◌, ◌≤◌, ◌<◌};
ghost use Rattle.grammar.specs.Sizes.{most_literals, most_variables};
ghost use Rattle.rulesafety.specs.Bound.{BodyInside};
ghost use Rattle.rulesafety.specs.Scanned.{with_equation, Scanned};

use crate::bound::{Bound, in_positives, with_variable};
use crate::equation::first_gain;
use crate::listed::Rows;
use tables::{LITERAL, TERMS};

// What is bound, and the rows of the equations that bind, in the order in which they do.
#[derive(Clone, Copy)]
pub struct Scan {
    pub bound: Bound,
    pub equations: Rows,
}

impl Scan {
    // One equation more, which binds `variable`.
    fn push(&mut self, literal: usize, variable: usize)
        requires { (self.old.equations.count < most_literals) × (variable < most_variables) }
        ensures { self.new ≡ with_equation self.old literal variable }
    {
        self.bound = with_variable(self.bound, variable);
        self.equations.push(literal);
    }
}

// From the left, starting over after each gain. The body has `count` rows from `first` on.
pub fn scan_of(literals: &[u64], first: usize, count: usize) -> Scan
    requires { BodyInside literals.now first count × (count ≤ most_literals) }
    ensures { Scanned literals.now first count result }
{
    let mut scan = Scan {
        bound: in_positives(literals, first, count),
        equations: Rows::new(),
    };
    while scan.equations.count < count {
        let Some(literal) = first_gain(literals, first, count, scan.bound) else {
            return scan;
        };
        let left = literals[literal * LITERAL + TERMS];
        scan.push(literal, left as usize);
    }
    scan
}
