// Heads, bodies and rules of a program, read to rows of numbers.
#![tactic(auto)]

pub mod body;
pub mod clause;
mod heads;
