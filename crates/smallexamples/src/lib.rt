// The paper's small examples T1 to T12, from the bytes of two texts to the answer: definitions and theorems alone. This crate has no code.
#![tactic(auto)]
