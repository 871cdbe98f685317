// What it is to read tokens by a language, as definitions and theorems alone: this crate has no code.
#![tactic(auto)]
