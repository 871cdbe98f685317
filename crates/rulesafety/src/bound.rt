// Sets of a rule's variables: those that stand in the positive atoms of its body's rows, and the terms that a set binds.
ghost use Rattle.std.specs.Prelude.{◌≡◌, map, ◌+◌, ◌≤◌, ◌<◌, length, take, drop};
ghost use Rattle.meaning.specs.Sets.{any};
ghost use Rattle.meaning.specs.Safety.{in_term, in_positives, term_bound};
ghost use Rattle.grammar.specs.Sizes.{most_variables};
ghost use Rattle.tables.specs.Rows.{from, term_of, literal_at};
ghost use Rattle.tables.specs.WellFormed.{Inside};
ghost use Rattle.rulesafety.specs.Bound.{bits_of, no_variables, with_variable, Adds, in_literal, BodyInside};

use codes::NO_VALUE;
use tables::{ARITIES, LITERAL, POSITIVE, PREDICATE, SORT, TERMS};
use texts::sizes::MOST_VARIABLES;

// Of each variable of a rule, by its number, whether it is bound.
#[derive(Clone, Copy)]
pub struct Bound {
    pub bits: [bool; MOST_VARIABLES],
}

// The bound variables with one more.
pub fn with_variable(mut bound: Bound, variable: usize) -> Bound
    requires { variable < most_variables }
    ensures { result ≡ with_variable bound variable }
{
    bound.bits[variable] = true;
    bound
}

// The bound variables with the term's, if it is one.
fn with_term(bound: Bound, code: u64) -> Bound
    ensures { Adds bound result (λ x. in_term x (term_of code)) }
{
    if NO_VALUE <= code {
        return bound;
    }
    with_variable(bound, code as usize)
}

// The bound variables with those of the terms.
fn with_terms(mut bound: Bound, terms: &[u64]) -> Bound
    ensures { Adds bound result (λ x. any (in_term x) (map term_of terms.now)) }
{
    for code in terms {
        bound = with_term(bound, *code);
    }
    bound
}

// The bound variables with those of the literal, if it is a positive atom.
fn with_literal(bound: Bound, literals: &[u64], literal: usize) -> Bound
    requires { Inside literals.now literal }
    ensures { Adds bound result (in_literal (literal_at literals.now literal)) }
{
    let row = literal * LITERAL;
    if literals[row + SORT] != POSITIVE {
        return bound;
    }
    let count = (literals[row + PREDICATE] % ARITIES) as usize;
    with_terms(bound, &literals[row + TERMS..row + TERMS + count])
}

// The variables that stand in the positive atoms of a body, which has `count` rows from `first` on.
pub fn in_positives(literals: &[u64], first: usize, count: usize) -> Bound
    requires { BodyInside literals.now first count }
    ensures { Adds no_variables result (in_positives (from (literal_at literals.now) count first)) }
{
    let mut bound = Bound {
        bits: [false; MOST_VARIABLES],
    };
    for literal in first..first + count {
        bound = with_literal(bound, literals, literal);
    }
    bound
}

// A value, or a variable that is bound.
pub fn term_bound(bound: Bound, code: u64) -> bool
    ensures { result ≡ term_bound (bits_of bound) (term_of code) }
{
    if NO_VALUE <= code {
        return true;
    }
    let variable = code as usize;
    bound.bits[variable]
}
