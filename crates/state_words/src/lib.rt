// The words of a state: how many cells are used, a cell number for each channel, then the words of each cell. No other crate knows
// where a word stands.
#![tactic(auto)]

pub mod reads;
pub mod tags;

ghost use Rattle.std.specs.Prelude.{◌≡◌, [], ◌∷◌, ◌++◌, ◌+◌, ◌-◌, ◌*◌, ◌≤◌, length, get_or, set, take, drop, replicate};
ghost use Rattle.std.proofs.lemmas.List.Edits.{sets};
ghost use Rattle.language.specs.Limits.{fields_most, channels_most, header_words, cell_words};
ghost use Rattle.language.specs.Layout.{padded, state_length, all_zero};
ghost use Rattle.state_words.specs.Words.{used_in, channel_at, tag_at, value_at, field_at, cleared};

use index::{clear, put, word_at};
use language::limits::{CELL_WORDS, FIELDS_MOST, HEADER_WORDS};

// Behind the word for the cells used stand the channels'; in a cell the value follows the tag, and the fields follow both.
const CHANNELS_FROM: usize = 1;

const VALUE_WORD: usize = 1;

const FIELDS_FROM: usize = CELL_WORDS - FIELDS_MOST;

// How many words a state of so many cells has. A cell starts where a state of the cells before it ends.
pub fn state_length(cells: u32) -> usize
    ensures { result ≡ state_length cells }
{
    HEADER_WORDS + CELL_WORDS * (cells as usize)
}

// How many cells are used.
pub fn used_cells(state: &[u32]) -> u32
    ensures { result ≡ used_in state.now }
{
    word_at(state, 0)
}

pub fn put_used_cells(state: &mut [u32], used: u32)
    ensures { state.new ≡ set state.old 0 used }
{
    put(state, 0, used);
}

// The cell of a channel.
pub fn channel_cell(state: &[u32], channel: u32) -> u32
    ensures { result ≡ channel_at state.now channel }
{
    word_at(state, CHANNELS_FROM + (channel as usize))
}

pub fn put_channel_cell(state: &mut [u32], channel: u32, cell: u32)
    ensures { state.new ≡ set state.old (1 + channel) cell }
{
    put(state, CHANNELS_FROM + (channel as usize), cell);
}

// The tag of a cell, its value, one of its fields; 0 beyond the words.
pub fn cell_tag(state: &[u32], cell: u32) -> u32
    ensures { result ≡ tag_at state.now cell }
{
    word_at(state, state_length(cell))
}

pub fn cell_value(state: &[u32], cell: u32) -> u32
    ensures { result ≡ value_at state.now cell }
{
    word_at(state, state_length(cell) + VALUE_WORD)
}

pub fn cell_field(state: &[u32], cell: u32, j: u32) -> u32
    ensures { result ≡ field_at state.now cell j }
{
    word_at(state, state_length(cell) + FIELDS_FROM + (j as usize))
}

// A word of the first n of a row; 0 beyond them.
fn word_of_first(row: &[u32], n: u32, j: u32) -> u32
    ensures { result ≡ get_or (take n row.now) j 0 }
{
    if j < n { word_at(row, j as usize) } else { 0 }
}

// Writes the fields of a cell from a place on: the first n of those given, then zeros.
fn put_fields(state: &mut [u32], from: usize, fields: &[u32], n: u32)
    requires { from + fields_most ≤ length state.old }
    ensures { state.new ≡ sets state.old from (padded fields_most (take n fields.now)) }
{
    for j in 0..FIELDS_MOST {
        state[from + j] = word_of_first(fields, n, j as u32);
    }
}

// Makes the words from one place up to another zero.
fn clear_part(state: &mut [u32], from: usize, to: usize)
    requires from_le_to { from ≤ to }
    requires to_in_bounds { to ≤ length state.old }
    ensures { state.new ≡ take from state.old ++ (replicate (to - from) 0 ++ drop to state.old) }
{
    clear(&mut state[from..to]);
}

// Writes a cell without fields: a Bool or an Int, by its tag.
pub fn put_leaf(state: &mut [u32], cell: u32, tag: u32, value: u32)
    requires { state_length (cell + 1) ≤ length state.old }
    ensures { state.new ≡ sets state.old (state_length cell) (tag ∷ value ∷ padded fields_most []) }
{
    let at = state_length(cell);
    state[at] = tag;
    state[at + VALUE_WORD] = value;
    clear_part(state, at + FIELDS_FROM, at + CELL_WORDS);
}

// Writes a constructor's cell: its tag, its size, and the first n of the fields given.
pub fn put_constructor(state: &mut [u32], cell: u32, tag: u32, size: u32, fields: &[u32], n: u32)
    requires { state_length (cell + 1) ≤ length state.old }
    ensures { state.new ≡ sets state.old (state_length cell) (tag ∷ size ∷ padded fields_most (take n fields.now)) }
{
    let at = state_length(cell);
    state[at] = tag;
    state[at + VALUE_WORD] = size;
    put_fields(state, at + FIELDS_FROM, fields, n);
}

// Makes the cells from one number up to another zero.
pub fn clear_cells(state: &mut [u32], from: u32, to: u32)
    requires from_le_to { from ≤ to }
    requires to_in_bounds { state_length to ≤ length state.old }
    ensures { state.new ≡ cleared state.old from to }
{
    clear_part(state, state_length(from), state_length(to));
}

// Whether every word is zero. None is left out: to leave at the first that is not zero costs more than it saves.
fn all_zero(row: &[u32]) -> bool
    ensures { result ≡ all_zero row.now }
{
    let mut zero = true;
    for word in row {
        zero = zero & (*word == 0);
    }
    zero
}

// Whether the cells from one number up to another are zero, and the words of the channels from a number on.
pub fn cells_clear(state: &[u32], from: u32, to: u32) -> bool
    requires from_le_to { from ≤ to }
    requires to_in_bounds { state_length to ≤ length state.now }
    ensures { result ≡ all_zero (take (cell_words * (to - from)) (drop (state_length from) state.now)) }
{
    all_zero(&state[state_length(from)..state_length(to)])
}

pub fn channels_clear(state: &[u32], from: u32) -> bool
    requires from_le_channels_most { from ≤ channels_most }
    requires header_words_in_bounds { header_words ≤ length state.now }
    ensures { result ≡ all_zero (drop from (take channels_most (drop 1 state.now))) }
{
    all_zero(&state[CHANNELS_FROM + (from as usize)..HEADER_WORDS])
}
