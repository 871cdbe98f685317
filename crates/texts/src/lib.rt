// Texts: places with their lines and columns, places kept in tables, parts of a text and whether two are the same, the sizes of the
// language, and refusals.
#![tactic(auto)]

pub mod parts;
pub mod place;
pub mod places;
pub mod refusal;
pub mod sizes;
