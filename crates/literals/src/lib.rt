// Built-in atoms and literals of a program, read to rows of numbers.
#![tactic(auto)]

pub mod builtin;
pub mod literal;
