// Arguments and atoms, read as numbers: an atom as its predicate's number and its arguments' codes.
#![tactic(auto)]

pub mod arguments;
pub mod atom;
