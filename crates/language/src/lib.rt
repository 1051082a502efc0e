// The limits, the numbers of refusals and the codes of document 01 as constants, for the code of the crates above. Each is tied by
// a proof to what is named the same in specs/Limits.antt, Refusals.antt and Codes.antt; the crate's definitions stand in specs/.
#![tactic(auto)]

pub mod codes;
pub mod limits;
pub mod refusals;
