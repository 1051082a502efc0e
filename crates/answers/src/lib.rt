// Boards, their buffers and answers: refusals with and without bounds, 15 to 17, whether enough is lent, 18, and buffers cleared.
#![tactic(auto)]

ghost use Rattle.std.specs.Prelude.{◌≡◌};
ghost use Rattle.answers.specs.Boards.{bounds_of, answer_of, Allows, Lends, LendsAll, LendsList, Judges, ClearsBoth};

use estimate::Estimate;
use index::clear;
use language::limits::{CALLS_MOST, CELLS_MOST, INSTANCES_MOST, SCRATCH_WORDS, SLOTS_MOST};
use language::refusals::{NO_FRAME, NO_REFUSAL, Refusal, RefusalAt};
use state_words::state_length;

// What a board has.
#[derive(Clone, Copy)]
pub struct Board {
    pub cells: u32,
    pub slots: u32,
    pub calls: u32,
}

// A number (0 where all is well), a frame (from 1; 0 where none is named) and three bounds.
#[repr(C)]
#[derive(Clone, Copy)]
pub struct Answer {
    pub number: u32,
    pub frame: u32,
    pub heap: u32,
    pub environment: u32,
    pub stack: u32,
}

// An answer with bounds; it names no frame.
fn bounds(number: u32, x: Estimate) -> Answer
    ensures { result ≡ bounds_of number x }
{
    Answer {
        number,
        frame: NO_FRAME,
        heap: x.heap,
        environment: x.env,
        stack: x.stack,
    }
}

// The answer of a call without bounds: its refusal, or 0 where all is well.
impl From<Result<(), RefusalAt>> for Answer {
    ghost from_gives = { λ x r. r ≡ answer_of x };

    fn from(x: Result<(), RefusalAt>) -> Answer {
        let (number, frame) = match x {
            Ok(()) => (NO_REFUSAL, NO_FRAME),
            Err(e) => (e.refusal.number(), e.frame),
        };
        Answer {
            number,
            frame,
            heap: 0,
            environment: 0,
            stack: 0,
        }
    }
}

// Whether the board is within its maximum.
pub fn board_allowed(b: Board) -> bool
    ensures { Allows b result }
{
    if CELLS_MOST < b.cells {
        return false;
    }
    if SLOTS_MOST < b.slots {
        return false;
    }
    b.calls <= CALLS_MOST
}

// Whether it is, and the list has so many records; else refusal 18.
pub fn lent(b: Board, records: usize) -> bool
    ensures { Lends b records result }
{
    if !board_allowed(b) {
        return false;
    }
    INSTANCES_MOST <= records
}

// Whether the board is within its maximum and every buffer is long enough; else refusal 18.
pub fn buffers_lent(b: Board, state: usize, scratch: usize, slots: usize) -> bool
    ensures { LendsAll b state scratch slots result }
{
    if !board_allowed(b) {
        return false;
    }
    if state < state_length(b.cells) {
        return false;
    }
    if scratch < SCRATCH_WORDS {
        return false;
    }
    (b.slots as usize) <= slots
}

// Whether the list is long enough too.
pub fn all_lent(b: Board, records: usize, state: usize, scratch: usize, slots: usize) -> bool
    ensures { LendsList b records state scratch slots result }
{
    if !lent(b, records) {
        return false;
    }
    buffers_lent(b, state, scratch, slots)
}

// Whether the board has what is needed: refusals 15, 16, 17, or acceptance.
pub fn judge(b: Board, x: Estimate) -> Answer
    ensures { Judges b x result }
{
    if b.cells < x.heap {
        return bounds(Refusal::HeapShort as u32, x);
    }
    if b.slots < x.env {
        return bounds(Refusal::EnvironmentShort as u32, x);
    }
    if b.calls < x.stack {
        return bounds(Refusal::StackShort as u32, x);
    }
    bounds(NO_REFUSAL, x)
}

// Every word of two rows 0.
pub fn clear_both(first: &mut [u32], second: &mut [u32])
    ensures { ClearsBoth first.old second.old first.new second.new }
{
    clear(first);
    clear(second);
}
