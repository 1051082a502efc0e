// The cells of an input line's values, above those used: the fields of a constructor left to right before it. The line was judged before.
// On bytes that spell no value it ends too, and keeps to its cells; what it then answers is free.
#![tactic(auto)]

ghost use Rattle.std.specs.Prelude.{◌+◌, ◌≤◌, length};
ghost use Rattle.language.specs.Layout.{state_length};
ghost use Rattle.language.specs.ReadExpr.{bool_form, int_form, con_form};
ghost use Rattle.language.specs.Line.{value_at, value_behind};
ghost use Rattle.input_cells.specs.Lays.{LeafPut, ConstructorPut, LeafLaid, TagAt, Lays, ValuesLaid, InputsLaid};

use index::types::field_word;
use index::{INDEX_WORDS, frame_counts, put};
use input_line::{BOOL, CONSTRUCT, INT, NO_SIZE, own_part};
use language::codes::{BOOL_FIRST, BOOLS, EXPR_FIRST, EXPR_FORMS};
use language::limits::{CHANNELS_MOST, FIELDS_MOST};
use language::refusals::Refusal;
use state_words::tags::{
    BOOL_TAG, INT_TAG, constructor_tag, field_count, tag_constructor, tag_type,
};
use state_words::{put_constructor, put_leaf};
use text::{Cursor, Found};

// A value laid: how many cells are used then, of which its own is the last; its size; and the cursor behind it.
#[derive(Clone, Copy)]
struct Laid {
    pub used: u32,
    pub size: u32,
    pub next: Cursor,
}

// Writes the next cell, of a Bool or an Int.
fn lay_leaf(
    state: &mut [u32],
    cells: u32,
    used: u32,
    tag: u32,
    value: u32,
    next: Cursor,
) -> Option<Laid>
    requires { state_length cells ≤ length state.old }
    ensures { LeafPut cells used tag value next state.old result state.new }
{
    if cells <= used {
        return None;
    }
    put_leaf(state, used, tag, value);
    Some(Laid {
        used: used + 1,
        size: NO_SIZE,
        next,
    })
}

// Writes the next cell, of a constructor with the first n of the fields given, those of its own type of so much size.
fn lay_constructor(
    state: &mut [u32],
    cells: u32,
    top: u32,
    tag: u32,
    own: u32,
    fields: &[u32],
    n: u32,
    next: Cursor,
) -> Option<Laid>
    requires cells_in_bounds { state_length cells ≤ length state.old }
    requires own_le_top { own ≤ top }
    ensures { ConstructorPut cells top tag (own + 1) fields.now n next state.old result state.new }
{
    if cells <= top {
        return None;
    }
    let size = own + 1;
    put_constructor(state, top, tag, size, fields, n);
    Some(Laid {
        used: top + 1,
        size,
        next,
    })
}

// A Bool behind its code.
fn lay_bool(line: &[u8], state: &mut [u32], c: Cursor, cells: u32, used: u32) -> Option<Laid>
    requires { state_length cells ≤ length state.old }
    ensures { LeafLaid line.now c.at bool_form cells used state.old result state.new }
{
    let f = c.code(line, BOOL_FIRST, BOOLS).ok()?;
    lay_leaf(state, cells, used, BOOL_TAG, f.value, f.next)
}

// An Int behind its code.
fn lay_int(line: &[u8], state: &mut [u32], c: Cursor, cells: u32, used: u32) -> Option<Laid>
    requires { state_length cells ≤ length state.old }
    ensures { LeafLaid line.now c.at int_form cells used state.old result state.new }
{
    let f = c.int(line).ok()?;
    lay_leaf(state, cells, used, INT_TAG, f.value, f.next)
}

// The type and the constructor behind the code of a constructor, as a tag.
fn tag_at(line: &[u8], c: Cursor) -> Result<Found, Refusal>
    ensures { TagAt line.now c.at result }
{
    let f = c.byte(line)?;
    let g = f.next.byte(line)?;
    Ok(Found {
        value: constructor_tag(f.value, g.value),
        next: g.next,
    })
}

// Lays a value: its fields before it.
#[cycle(laying)]
fn lay(
    line: &[u8],
    index: &[u32; INDEX_WORDS],
    state: &mut [u32],
    c: Cursor,
    cells: u32,
    used: u32,
) -> Option<Laid>
    requires cells_in_bounds { state_length cells ≤ length state.old }
    requires used_le_cells { used ≤ cells }
    ensures { Lays line.now index.now c.at cells used state.old result state.new (λ n P. value_at n P) }
{
    let f = c.code(line, EXPR_FIRST, EXPR_FORMS).ok()?;
    match f.value {
        BOOL => lay_bool(line, state, f.next, cells, used),
        INT => lay_int(line, state, f.next, cells, used),
        CONSTRUCT => lay_fields(line, index, state, f.next, cells, used),
        _ => None,
    }
}

// Lays a constructor behind its code: first its fields, whose cells wait in an array, then its own cell.
#[cycle(laying)]
fn lay_fields(
    line: &[u8],
    index: &[u32; INDEX_WORDS],
    state: &mut [u32],
    c: Cursor,
    cells: u32,
    used: u32,
) -> Option<Laid>
    requires cells_in_bounds { state_length cells ≤ length state.old }
    requires used_le_cells { used ≤ cells }
    ensures { Lays line.now index.now c.at cells used state.old result state.new (λ n P. value_behind P (value_at n P) con_form) }
{
    let f = tag_at(line, c).ok()?;
    let tag = f.value;
    let n = field_count(index, tag);
    let t = tag_type(tag);
    let constructor = tag_constructor(tag);
    let mut waiting = [0u32; FIELDS_MOST];
    let mut next = f.next;
    let mut top = used;
    let mut own: u32 = 0;
    for j in 0..n {
        let b = lay(line, index, state, next, cells, top)?;
        next = b.next;
        top = b.used;
        put(&mut waiting, j as usize, top - 1);
        own += own_part(field_word(index, t, constructor, j), b.size);
    }
    lay_constructor(state, cells, top, tag, own, &waiting, n, next)
}

// Lays a value for each input, behind the kind of a line, and puts their cells in a row. Answers how many cells are used then, or the
// input whose cells are not all there.
fn lay_inputs(
    line: &[u8],
    index: &[u32; INDEX_WORDS],
    state: &mut [u32],
    roots: &mut [u32],
    cells: u32,
    used: u32,
) -> Result<u32, u32>
    requires cells_in_bounds { state_length cells ≤ length state.old }
    requires used_le_cells { used ≤ cells }
    ensures { ValuesLaid line.now index.now cells used state.old roots.old result state.new roots.new }
{
    let Ok(f) = Cursor { at: 0 }.byte(line) else {
        return Ok(used);
    };
    let counts = frame_counts(index);
    let n = counts.inputs;
    let mut next = f.next;
    let mut top = used;
    for i in 0..n {
        let b = lay(line, index, state, next, cells, top).ok_or(i)?;
        next = b.next;
        top = b.used;
        put(roots, i as usize, top - 1);
    }
    Ok(top)
}

// Lays the values of an allowed line, and puts the cell of each input's among the channels' first. Answers how many cells are used then,
// or the input whose cells are not all there.
pub fn put_inputs(
    line: &[u8],
    index: &[u32; INDEX_WORDS],
    state: &mut [u32],
    roots: &mut [u32; CHANNELS_MOST],
    cells: u32,
    used: u32,
) -> Result<u32, u32>
    requires cells_in_bounds { state_length cells ≤ length state.old }
    requires used_le_cells { used ≤ cells }
    ensures { InputsLaid line.now index.now cells used state.old roots.old result state.new roots.new }
{
    let size = line.len();
    if size == 0 {
        return Ok(used);
    }
    lay_inputs(&line[..size - 1], index, state, roots, cells, used)
}
