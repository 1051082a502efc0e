// The three demands of the delivered calls, and their proofs, stand in specs/; this crate has no code.
#![tactic(auto)]
