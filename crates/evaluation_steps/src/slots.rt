// The environment as the first of the lent slots: cells stored above them.
ghost use Rattle.std.specs.Prelude.{◌≤◌, ◌≡◌, length, get_or, take};
ghost use Rattle.evaluation_steps.specs.Slots.{Pushed, WordOf, FieldOf};

use index::{put, word_at};
use language::limits::PARAMETERS_MOST;
use state_words::reads::field;

// The cell of a variable: a slot of the first `top`; 0 beyond them.
pub fn variable(slots: &[u32], top: usize, v: u32) -> u32
    ensures { result ≡ get_or (take top slots.now) v 0 }
{
    if (v as usize) < top {
        return word_at(slots, v as usize);
    }
    0
}

// Stores the first n words of a row from slot `top` on.
pub fn push(slots: &mut [u32], top: usize, row: &[u32; PARAMETERS_MOST], n: u32)
    requires { top ≤ length slots.old }
    ensures { Pushed (WordOf row.now) slots.old top n slots.new }
{
    for i in 0..n {
        put(slots, top + (i as usize), word_at(row, i as usize));
    }
}

// Stores the first n fields of a cell from slot `top` on.
pub fn push_fields(slots: &mut [u32], top: usize, state: &[u32], used: u32, cell: u32, n: u32)
    requires { top ≤ length slots.old }
    ensures { Pushed (FieldOf state.now used cell) slots.old top n slots.new }
{
    for i in 0..n {
        put(slots, top + (i as usize), field(state, used, cell, i));
    }
}
