// What the check answers, for any bytes and any code: the whole promise, as definitions and theorems alone. This crate has no code.
#![tactic(auto)]
