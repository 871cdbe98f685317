// What the check answers, by value, field by field, and the parts of the two lent texts that it hands back.
#![tactic(auto)]

pub mod answer;
pub mod clash;
pub mod part;
