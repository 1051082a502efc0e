// What a type's frame says of its constructors, and a function's of its parameters, read into the index.
#![tactic(auto)]

pub mod functions;
pub mod types;
