// The language of programs and of facts lines, as definitions and theorems alone: this crate has no code.
#![tactic(auto)]
