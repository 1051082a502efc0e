// The steps of the size checker that work on no expression: the site of a part, what a form asks of the index and of the lines, and
// what it makes of the answers of its parts.
#![tactic(auto)]

ghost use Rattle.instances.specs.Listed.{Finds};

pub mod leaves;
pub mod numbers;
pub mod sites;

use estimate::Estimate;
use heads::places::{Place, SCOPE_WORDS};
use index::INDEX_WORDS;
use instances::{MEMO_WORDS, find};
use language::limits::SIZE_VARIABLES_MOST;
use sizes::SizedType;
use text::Cursor;

// The bytes of a scope's sizes, one for each size variable.
pub const SCOPE_SIZES: usize = SIZE_VARIABLES_MOST as usize;

// The text of a file and its index, as they are lent.
#[derive(Clone, Copy)]
pub struct Source<'a> {
    pub text: &'a [u8],
    pub index: &'a [u32; INDEX_WORDS],
}

// The instances entered so far: their list, and what is kept beside it.
#[derive(Drop)]
pub struct Instances<'a> {
    pub list: &'a mut [u32],
    pub memo: &'a mut [u32; MEMO_WORDS],
}

impl Instances<'_> {
    // The record of f at these sizes among the first so many.
    pub fn find(&self, used: u32, f: u32, sizes: &[u8; SCOPE_SIZES]) -> Option<u32>
        ensures { Finds self.now.list.now used f sizes.now result }
    {
        find(self.list, self.memo, used, f, sizes)
    }
}

// What is in scope: a word for the type of each variable, and the sizes.
#[derive(Drop)]
pub struct Scope {
    pub types: [u32; SCOPE_WORDS],
    pub sizes: [u8; SCOPE_SIZES],
}

// Where an expression stands, and at which instance: its place, how many size variables are in scope, the summed measure of the
// function around it (any number where there is none), and how many instances have been entered.
#[derive(Clone, Copy)]
pub struct Site {
    pub place: Place,
    pub sizes: u32,
    pub measure: u32,
    pub used: u32,
}

// A checked expression: its type beside its three numbers, the cursor behind it, and the instances entered by then.
#[derive(Clone, Copy)]
pub struct Checked {
    pub ty: SizedType,
    pub numbers: Estimate,
    pub next: Cursor,
    pub used: u32,
}

// Arguments or fields that were checked, one after the other.
#[derive(Clone, Copy)]
pub struct Counted {
    pub numbers: Estimate,
    pub next: Cursor,
    pub used: u32,
}

// A call whose arguments were checked: the function, its summed measure and its result type, how many parameters it has, and
// how many of them are of named types.
#[derive(Clone, Copy)]
pub struct Entry {
    pub function: u32,
    pub measure: u32,
    pub ty: SizedType,
    pub variables: u32,
    pub sizes: u32,
}

// The subject of a case: its type, its size, and the type that is wanted of every branch.
#[derive(Clone, Copy)]
pub struct Subject {
    pub of: u32,
    pub size: u8,
    pub ty: SizedType,
}
