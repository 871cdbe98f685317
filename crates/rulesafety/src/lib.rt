// Safety over rows: the variables that a body's rows bind, a rule's own row, and the first variable that is not bound.
#![tactic(auto)]

pub mod bound;
mod equation;
mod listed;
pub mod rule_row;
mod scan;
pub mod unbound;
