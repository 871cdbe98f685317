// What the matchings of rules derive, as edges over positions of the candidate. This crate has definitions and theorems only.
#![tactic(auto)]
