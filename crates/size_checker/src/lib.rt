// Sizes at instances: refusals 10 to 14, the three numbers, and the list of instances.
#![tactic(auto)]

mod cycle;
pub mod file;
