// The tables that the engine works on: rows of numbers at fixed strides, lent by the caller. What they stand for is in specs.
#![tactic(auto)]

pub mod row;

// The numbers of a fact: its predicate, and 8 columns for its arguments.
pub const FACT: usize = 9;

// Where a fact's arguments start.
pub const ARGUMENTS: usize = 1;

// A predicate's number ends in its arity.
pub const ARITIES: u64 = 9;

// The numbers of a literal: its sort, its predicate or, of a built-in, which has none, its operation, its comparison, and 8 columns for its terms.
pub const LITERAL: usize = 11;

pub const SORT: usize = 0;

pub const PREDICATE: usize = 1;

pub const OPERATION: usize = 1;

pub const COMPARISON: usize = 2;

pub const TERMS: usize = 3;

// The two terms on the right of a built-in; its left one is the first of the terms.
pub const FIRST: usize = 4;

pub const SECOND: usize = 5;

// The sorts of literals.
pub const POSITIVE: u64 = 0;

pub const NEGATED: u64 = 1;

pub const BUILTIN: u64 = 2;

pub const HEAD: u64 = 3;

// A built-in without an operation.
pub const NO_OPERATION: u64 = 3;

// The rows of a rule's literals: those of 4 heads, and those of a body of 16 literals.
pub const ROWS: usize = 20;

// The numbers of a rule: its first head, how many, its first body literal, how many, whether it has an operation, how many equations bind, how
// many literals are positive, and 16 places for each of the last two.
pub const RULE: usize = 40;

pub const FIRST_HEAD: usize = 0;

pub const HEADS: usize = 1;

pub const FIRST_LITERAL: usize = 2;

pub const LITERALS: usize = 3;

pub const HAS_OPERATION: usize = 4;

pub const EQUATIONS: usize = 5;

pub const POSITIVES: usize = 6;

pub const EQUATION_PLACES: usize = 7;

pub const POSITIVE_PLACES: usize = 23;
