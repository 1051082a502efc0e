// Whether lent words are cells of the file, each over the cells below it. Fields are counted along; no place is divided.
#![tactic(auto)]

ghost use Rattle.std.specs.Prelude.{◌≡◌, ◌≤◌, drop};
ghost use Rattle.language.specs.Limits.{fields_most};
ghost use Rattle.language.specs.Layout.{tag_step, all_zero};
ghost use Rattle.state_words.specs.Words.{field_at, row_of};
ghost use Rattle.cell_check.specs.Judged.{type_fits, leaf_fits, LocationJudged, OwnLeft, FieldLeft, FieldsJudged, KnownJudged, CellJudged, CellsJudged};

use index::INDEX_WORDS;
use index::types::{OWN_FIELD, constructors, field_word};
use language::codes::{FIELD_BOOL, FIELD_INT};
use language::limits::FIELDS_MOST;
use state_words::tags::{
    BOOL_TAG, CONSTRUCTOR_TAGS, INT_TAG, field_count, same_type, tag_constructor, tag_type,
    word_size,
};
use state_words::{cell_field, cell_tag, cell_value};

// Whether a cell's words for fields are zero from number n on.
fn unused_clear(state: &[u32], cell: u32, n: u32) -> bool
    ensures { result ≡ all_zero (drop n (row_of (field_at state.now cell) fields_most)) }
{
    for j in n..FIELDS_MOST as u32 {
        if cell_field(state, cell, j) != 0 {
            return false;
        }
    }
    true
}

// Whether a cell with this tag and value is of the type that a word stands for.
fn type_fits(word: u32, tag: u32, value: u32) -> bool
    ensures { result ≡ type_fits word tag value }
{
    match word {
        FIELD_BOOL => tag == BOOL_TAG,
        FIELD_INT => tag == INT_TAG,
        _ => same_type(tag, word) && value <= word_size(word),
    }
}

// Whether a number names one of the cells used, of the type that a word stands for.
pub fn location_fits(state: &[u32], used: u32, l: u32, word: u32) -> bool
    ensures { LocationJudged state.now used l word result }
{
    if used <= l {
        return false;
    }
    type_fits(word, cell_tag(state, l), cell_value(state, l))
}

// What is left of a constructor's size behind a field of the type itself; none where the field does not fit.
fn own_left(state: &[u32], cell: u32, tag: u32, l: u32, left: u32) -> Option<u32>
    ensures { OwnLeft state.now cell tag l left result }
{
    if cell <= l {
        return None;
    }
    if !same_type(cell_tag(state, l), tag) {
        return None;
    }
    left.checked_sub(cell_value(state, l))
}

// What is left behind field j; none where it does not fit.
fn field_left(
    index: &[u32; INDEX_WORDS],
    state: &[u32],
    cell: u32,
    tag: u32,
    j: u32,
    left: u32,
) -> Option<u32>
    requires { tag_step ≤ tag }
    ensures { FieldLeft index.now state.now cell tag j left result }
{
    let word = field_word(index, tag_type(tag), tag_constructor(tag), j);
    let l = cell_field(state, cell, j);
    if word == OWN_FIELD {
        return own_left(state, cell, tag, l, left);
    }
    location_fits(state, cell, l, word).then_some(left)
}

// Whether the fields of a constructor are cells below it of their types, and its size is one more than those of its own type.
fn fields_fit(index: &[u32; INDEX_WORDS], state: &[u32], cell: u32, tag: u32, n: u32) -> bool
    requires { tag_step ≤ tag }
    ensures { FieldsJudged index.now state.now cell tag n result }
{
    let mut left = cell_value(state, cell);
    for j in 0..n {
        let Some(rest) = field_left(index, state, cell, tag, j, left) else {
            return false;
        };
        left = rest;
    }
    left == 1
}

// Whether a tag is that of a constructor of the file's types, so many as there are.
fn known_constructor(index: &[u32; INDEX_WORDS], types: u32, tag: u32) -> bool
    requires { tag_step ≤ tag }
    ensures { KnownJudged index.now types tag result }
{
    let t = tag_type(tag);
    t < types && tag_constructor(tag) < constructors(index, t)
}

// Whether a cell is a Bool or an Int: it has no fields.
fn leaf_fits(state: &[u32], cell: u32, tag: u32) -> bool
    ensures { result ≡ leaf_fits state.now cell tag }
{
    if !unused_clear(state, cell, 0) {
        return false;
    }
    if tag == BOOL_TAG {
        return cell_value(state, cell) <= 1;
    }
    tag == INT_TAG
}

// Whether the words of a cell are one of the file, right over the cells below.
fn cell_fits(index: &[u32; INDEX_WORDS], types: u32, state: &[u32], cell: u32) -> bool
    ensures { CellJudged index.now types state.now cell result }
{
    let tag = cell_tag(state, cell);
    if tag < CONSTRUCTOR_TAGS {
        return leaf_fits(state, cell, tag);
    }
    if !known_constructor(index, types, tag) {
        return false;
    }
    let n = field_count(index, tag);
    if !unused_clear(state, cell, n) {
        return false;
    }
    fields_fit(index, state, cell, tag, n)
}

// The same of all cells used, the lowest first.
pub fn cells_fit(index: &[u32; INDEX_WORDS], types: u32, state: &[u32], used: u32) -> bool
    ensures { CellsJudged index.now types state.now used result }
{
    for cell in 0..used {
        if !cell_fits(index, types, state, cell) {
            return false;
        }
    }
    true
}
