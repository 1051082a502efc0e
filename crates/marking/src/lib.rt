// Marks what the channels reach, a word for each cell. A cell names lower ones, so the highest are visited first.
#![tactic(auto)]

ghost use Rattle.std.specs.Prelude.{◌≡◌, not, get_or, set, eqb};
ghost use Rattle.state_words.specs.Words.{channel_at, field_at, row_of};
ghost use Rattle.marking.specs.Marks.{Touched, Visited, MarkedFrom, MarksReached};

use index::{INDEX_WORDS, put, word_at};
use state_words::tags::field_count;
use state_words::{cell_field, cell_tag, channel_cell};

// A mark: not zero where the cell is reached. Beyond the marks nothing is marked.
pub fn mark(marks: &mut [u32], cell: u32)
    ensures { marks.new ≡ set marks.old cell 1 }
{
    put(marks, cell as usize, 1);
}

pub fn is_marked(marks: &[u32], cell: u32) -> bool
    ensures { result ≡ not (eqb (get_or marks.now cell 0) 0) }
{
    word_at(marks, cell as usize) != 0
}

// Marks the cells that a cell names by its first n fields.
fn mark_fields(state: &[u32], marks: &mut [u32], cell: u32, n: u32)
    ensures { Touched (row_of (field_at state.now cell) n) marks.old marks.new }
{
    for j in 0..n {
        let l = cell_field(state, cell, j);
        mark(marks, l);
    }
}

// Marks the cells of the first n channels.
fn mark_channels(state: &[u32], marks: &mut [u32], n: u32)
    ensures { Touched (row_of (channel_at state.now) n) marks.old marks.new }
{
    for c in 0..n {
        let l = channel_cell(state, c);
        mark(marks, l);
    }
}

// Marks what a cell names, if it is marked itself.
fn visit(index: &[u32; INDEX_WORDS], state: &[u32], marks: &mut [u32], cell: u32)
    ensures { Visited index.now state.now cell marks.old marks.new }
{
    if !is_marked(marks, cell) {
        return;
    }
    let n = field_count(index, cell_tag(state, cell));
    mark_fields(state, marks, cell, n);
}

// Visits every cell, the highest first.
fn visit_all(index: &[u32; INDEX_WORDS], state: &[u32], marks: &mut [u32], used: u32)
    ensures { MarkedFrom index.now state.now used marks.old 0 marks.new }
{
    for i in (0..used).rev() {
        visit(index, state, marks, i);
    }
}

// Marks the cells that the first so many channels reach, of those used.
pub fn mark_reached(
    index: &[u32; INDEX_WORDS],
    state: &[u32],
    marks: &mut [u32],
    channels: u32,
    used: u32,
)
    ensures { MarksReached index.now state.now channels used marks.old marks.new }
{
    mark_channels(state, marks, channels);
    visit_all(index, state, marks, used);
}
