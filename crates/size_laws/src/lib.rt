// What the size checker's cycle promises, and the laws that its proof cites, stand in specs/; this crate has no code.
#![tactic(auto)]
