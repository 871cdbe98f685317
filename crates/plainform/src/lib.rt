// The plain form of a program in bytes, as definitions and theorems alone: this crate has no code.
#![tactic(auto)]
