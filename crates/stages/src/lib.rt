// A call as a chain of stages, the first of which that refuses gives the answer: definitions and laws alone, this crate has no code.
#![tactic(auto)]
