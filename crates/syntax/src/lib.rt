// What the productions of the grammar share: the token at a place, a word's size, a separator, a comparison's sign, the number of a variable;
// and what a function that reads a production promises.
#![tactic(auto)]

pub mod separator;
pub mod sign;
pub mod token;
pub mod variable;
pub mod word;
