// Values on the way to a matching: how they grow, and the truth of a body there. This crate has definitions and theorems only.
#![tactic(auto)]
