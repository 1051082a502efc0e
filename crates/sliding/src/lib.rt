// The cells that are reached slide down in their order, and take the new numbers with them. While cells are passed a cell's mark
// becomes its new number: a cell names lower ones only, so whoever asks for it comes later.
#![tactic(auto)]

ghost use Rattle.std.specs.Prelude.{◌≡◌, ◌∷◌, ◌+◌, ◌^◌, ◌<◌, ◌≤◌, length, get_or, set};
ghost use Rattle.std.proofs.lemmas.List.Edits.{sets};
ghost use Rattle.language.specs.Limits.{fields_most, channels_most};
ghost use Rattle.language.specs.Layout.{padded, state_length};
ghost use Rattle.state_words.specs.Words.{channel_at, tag_at, value_at, field_at, row_of};
ghost use Rattle.sliding.specs.Sliding.{Filled, Moved, Sweeps, KeepsReached, Collects};

use index::{INDEX_WORDS, clear, put, word_at};
use language::limits::FIELDS_MOST;
use marking::{is_marked, mark_reached};
use state_words::tags::field_count;
use state_words::{
    cell_field, cell_tag, cell_value, channel_cell, clear_cells, put_channel_cell, put_constructor,
    put_used_cells,
};

// The new number of a cell that was passed.
fn new_number(marks: &[u32], cell: u32) -> u32
    ensures { result ≡ get_or marks.now cell 0 }
{
    word_at(marks, cell as usize)
}

fn put_new_number(marks: &mut [u32], cell: u32, number: u32)
    ensures { marks.new ≡ set marks.old cell number }
{
    put(marks, cell as usize, number);
}

// The new numbers of the first n fields of a cell, in a row of zeros.
fn new_fields(state: &[u32], marks: &[u32], cell: u32, n: u32, fields: &mut [u32])
    ensures { Filled (λ j. get_or marks.now (field_at state.now cell j) 0) n fields.old fields.new }
{
    for j in 0..n {
        let l = cell_field(state, cell, j);
        let number = new_number(marks, l);
        put(fields, j as usize, number);
    }
}

// Writes a cell, its first n fields renumbered, in the place of another.
fn move_cell(state: &mut [u32], marks: &[u32], cell: u32, to: u32, n: u32)
    requires { state_length (to + 1) ≤ length state.old }
    ensures { state.new ≡ sets state.old (state_length to) (tag_at state.old cell ∷ value_at state.old cell ∷ padded fields_most (row_of (λ j. get_or marks.now (field_at state.old cell j) 0) n)) }
{
    let mut fields = [0u32; FIELDS_MOST];
    new_fields(state, marks, cell, n, &mut fields);
    let tag = cell_tag(state, cell);
    let value = cell_value(state, cell);
    put_constructor(state, to, tag, value, &fields, FIELDS_MOST as u32);
}

// Moves a cell that is marked to the next place, and gives it that number; answers the place behind.
fn pass(
    index: &[u32; INDEX_WORDS],
    state: &mut [u32],
    marks: &mut [u32],
    cell: u32,
    next: u32,
) -> u32
    requires next_le_cell { next ≤ cell }
    requires cell_bound { cell + 1 < 2 ^ 32 }
    requires cell_in_bounds { state_length (cell + 1) ≤ length state.old }
    ensures { Moved index.now state.old marks.old cell next result state.new marks.new }
{
    if !is_marked(marks, cell) {
        return next;
    }
    let n = field_count(index, cell_tag(state, cell));
    move_cell(state, marks, cell, next, n);
    put_new_number(marks, cell, next);
    next + 1
}

// Passes every cell; answers how many are kept.
fn sweep(index: &[u32; INDEX_WORDS], state: &mut [u32], marks: &mut [u32], used: u32) -> u32
    requires { state_length used ≤ length state.old }
    ensures { Sweeps index.now state.old marks.old used used result state.new marks.new }
{
    let mut next: u32 = 0;
    for cell in 0..used {
        next = pass(index, state, marks, cell, next);
    }
    next
}

// Gives the first n channels the new numbers of their cells.
fn renumber_channels(state: &mut [u32], marks: &[u32], n: u32)
    ensures { state.new ≡ sets state.old 1 (row_of (λ c. get_or marks.now (channel_at state.old c) 0) n) }
{
    for c in 0..n {
        let l = channel_cell(state, c);
        let number = new_number(marks, l);
        put_channel_cell(state, c, number);
    }
}

// The same with a mark for each cell: none at first, and none left.
fn keep_reached(
    index: &[u32; INDEX_WORDS],
    state: &mut [u32],
    marks: &mut [u32],
    channels: u32,
    used: u32,
)
    requires channels_le_channels_most { channels ≤ channels_most }
    requires used_in_bounds { state_length used ≤ length state.old }
    ensures { KeepsReached index.now channels used state.old marks.old state.new marks.new }
{
    mark_reached(index, state, marks, channels, used);
    let kept = sweep(index, state, marks, used);
    clear_cells(state, kept, used);
    renumber_channels(state, marks, channels);
    put_used_cells(state, kept);
    clear(marks);
}

// Keeps the cells that the first so many channels reach, of those used, and clears the others. The scratch is zero, and left so.
pub fn collect(
    index: &[u32; INDEX_WORDS],
    state: &mut [u32],
    scratch: &mut [u32],
    channels: u32,
    used: u32,
)
    requires channels_le_channels_most { channels ≤ channels_most }
    requires used_in_bounds { state_length used ≤ length state.old }
    requires used_in_bounds_2 { used ≤ length scratch.old }
    ensures { Collects index.now channels used state.old scratch.old state.new scratch.new }
{
    keep_reached(index, state, &mut scratch[..used as usize], channels, used);
}
