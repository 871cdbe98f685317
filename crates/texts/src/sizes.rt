// The sizes of the language: what is over one of them is refused.

// Bytes of a program's text and of a solver's output.
pub const MOST_TEXT: usize = 65_536;

// Rules of a program.
pub const MOST_RULES: usize = 256;

// Head atoms of a rule.
pub const MOST_HEADS: usize = 4;

// Literals in a body.
pub const MOST_LITERALS: usize = 16;

// Arguments of an atom.
pub const MOST_ARGUMENTS: usize = 8;

// Bytes of a name or a variable, and of a string between its quotes.
pub const MOST_NAME: usize = 64;

// Variables of a rule, each `_` counting.
pub const MOST_VARIABLES: usize = 16;

// Facts of a candidate.
pub const MOST_FACTS: usize = 1_024;

// Facts of a candidate beside a rule with several heads: it is tested against every proper subset.
pub const MOST_TESTED_FACTS: usize = 20;

// The greatest number; the least is as far below zero.
pub const MOST_NUMBER: u64 = 1_000_000_000;
