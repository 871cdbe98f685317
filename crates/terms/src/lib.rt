// Terms, read as numbers where a cursor stands: a name's, a string's, a number's or a variable's code.
#![tactic(auto)]

pub mod cursor;
pub mod term;
