// The steps of an evaluation that evaluate nothing themselves: places, what a form asks of the index, the environment's slots.
#![tactic(auto)]

pub mod contexts;
pub mod forms;
pub mod slots;

use index::INDEX_WORDS;
use language::limits::{CHANNELS_MOST, TEXT_MOST};
use text::Cursor;

// A rule file as it is evaluated: its text, its index, where the expressions end, and the cells of its channels as they stand now.
#[derive(Clone, Copy)]
pub struct Program<'a> {
    pub text: &'a [u8],
    pub index: &'a [u32; INDEX_WORDS],
    pub ends: &'a [u16; TEXT_MOST],
    pub channels: &'a [u32; CHANNELS_MOST],
}

// Where an expression is evaluated: its place in the line of a frame, counted from 0, how many slots its environment has, how many cells
// are used, and how many calls are left.
#[derive(Clone, Copy)]
pub struct Context {
    pub at: Cursor,
    pub line: u32,
    pub top: usize,
    pub used: u32,
    pub calls: u32,
}

// Arguments or fields that were evaluated: how many cells are used, and the cursor behind them.
#[derive(Clone, Copy)]
pub struct Values {
    pub used: u32,
    pub next: Cursor,
}
