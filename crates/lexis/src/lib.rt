// What tokens are made of, wherever they stand: a byte's class, runs of bytes, where a string ends, a number's value, and kinds of tokens.
#![tactic(auto)]

pub mod class;
pub mod kind;
pub mod number;
pub mod run;
pub mod string;
