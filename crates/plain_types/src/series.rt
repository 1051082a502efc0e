// Lists of expressions: what is wanted of them.
use super::words::{PlainType, Want};

// Expressions in a row: what is wanted of them from a number on, how many, and the type answered where all fit.
#[derive(Clone, Copy)]
pub struct Series {
    pub of: Want,
    pub first: u32,
    pub count: u32,
    pub answer: PlainType,
}

// The branches of a case: its type, the constructor of the first one, how many there are, and the type of each.
#[derive(Clone, Copy)]
pub struct BranchSeries {
    pub of: u32,
    pub first: u32,
    pub count: u32,
    pub answer: PlainType,
}
