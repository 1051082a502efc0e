// What a cell holds, as the evaluator asks for it: at any number, and of any kind of cell.
ghost use Rattle.language.specs.Heap.{cell_at, truth as truth_of, number as number_of, constant_in, size_in};
ghost use Rattle.state_words.specs.Holds.{Reads, ReadsField, ReadsConstructor, ReadsCount};

use super::tags::{BOOL_TAG, CONSTRUCTOR_TAGS, INT_TAG, field_count, tag_constructor};
use super::{cell_field, cell_tag, cell_value};
use index::INDEX_WORDS;

// Whether a cell is the Bool that is true.
pub fn truth(state: &[u32], used: u32, cell: u32) -> bool
    ensures { Reads state.now used (λ h. truth_of (constant_in (cell_at h cell))) result }
{
    if used <= cell {
        return false;
    }
    if cell_tag(state, cell) != BOOL_TAG {
        return false;
    }
    cell_value(state, cell) != 0
}

// The bits of an Int; 0 where the cell is none.
pub fn number(state: &[u32], used: u32, cell: u32) -> u32
    ensures { Reads state.now used (λ h. number_of (constant_in (cell_at h cell))) result }
{
    if used <= cell {
        return 0;
    }
    if cell_tag(state, cell) != INT_TAG {
        return 0;
    }
    cell_value(state, cell)
}

// The size of a constructor's value; 0 of a Bool or an Int.
pub fn size(state: &[u32], used: u32, cell: u32) -> u32
    ensures { Reads state.now used (λ h. size_in (cell_at h cell)) result }
{
    if used <= cell {
        return 0;
    }
    if cell_tag(state, cell) < CONSTRUCTOR_TAGS {
        return 0;
    }
    cell_value(state, cell)
}

// Which constructor of its type a cell is; 0 of a Bool or an Int.
pub fn constructor(state: &[u32], used: u32, cell: u32) -> u32
    ensures { ReadsConstructor state.now used cell result }
{
    if used <= cell {
        return 0;
    }
    let tag = cell_tag(state, cell);
    if tag < CONSTRUCTOR_TAGS {
        return 0;
    }
    tag_constructor(tag)
}

// How many fields a cell has, and the cell of one of them.
pub fn fields(index: &[u32; INDEX_WORDS], state: &[u32], used: u32, cell: u32) -> u32
    ensures { ReadsCount index.now state.now used cell result }
{
    if used <= cell {
        return 0;
    }
    field_count(index, cell_tag(state, cell))
}

pub fn field(state: &[u32], used: u32, cell: u32, j: u32) -> u32
    ensures { ReadsField state.now used cell j result }
{
    if used <= cell {
        return 0;
    }
    cell_field(state, cell, j)
}
