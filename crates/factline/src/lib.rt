// A facts line, read as rows of numbers: the fact at a place of it, and all of them one after the other.
#![tactic(auto)]

pub mod fact;
pub mod line;
