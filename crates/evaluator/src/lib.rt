// Figure 4 over the lent words: the value of an expression, as a cell of the state.
#![tactic(auto)]

pub mod channels;
pub mod cycle;
