// The numbers of a rule's terms, atoms and literals: names are numbered as they are met, and a literal is a row of 11 numbers.
#![tactic(auto)]

pub mod literal;
pub mod term;
