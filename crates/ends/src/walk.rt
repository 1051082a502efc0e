// The walk over an expression that is known to be spelled in a line: where each of its parts ends is noted in the table.
ghost use Rattle.std.specs.Prelude.{[], ◌∷◌};
ghost use Rattle.language.specs.Limits.{types_most, size_variables_most, nesting_most};
ghost use Rattle.language.specs.Format.{size_bytes, result_bytes};
ghost use Rattle.language.specs.Within.{WithinSize, WithinResult};
ghost use Rattle.index.specs.Sections.{types_of, functions_of};
ghost use Rattle.ends.specs.Gathered.{Gathers};
ghost use Rattle.ends.specs.Walks.{Noted, NotedOver, Reached, Walks};

use channel_sets::{WORD_BITS, single};
use heads::skip::{behind_result, behind_size, parts};
use heads::{Form, head_at};
use index::INDEX_WORDS;
use language::limits::TEXT_MOST;
use text::Cursor;

// An expression that was walked over: the cursor behind it, and the channels that its `13`s name, as a set.
#[derive(Clone, Copy)]
pub struct Passed {
    pub behind: Cursor,
    pub readings: u32,
}

// Notes where what starts at a place of the line that starts at `from` ends; beyond the table nothing.
fn note(ends: &mut [u16], from: usize, at: Cursor, end: Cursor)
    ensures { Noted from at.at end.at ends.old ends.new }
{
    let place = at.at;
    let word = end.at;
    if TEXT_MOST < word {
        return;
    }
    if ends.len() <= from {
        return;
    }
    if ends.len() - from <= place {
        return;
    }
    ends[from + place] = word as u16;
}

// Notes where a written size ends, and gives the cursor behind it.
fn note_size(line: &[u8], ends: &mut [u16; TEXT_MOST], from: usize, at: Cursor) -> Cursor
    ensures { NotedOver size_bytes (WithinSize size_variables_most nesting_most) line.now from at.at ends.old ends.new result }
{
    let end = behind_size(line, at);
    note(ends, from, at, end);
    end
}

// Notes where the return type of a case ends, and gives the cursor behind it.
fn note_result(line: &[u8], ends: &mut [u16; TEXT_MOST], from: usize, at: Cursor) -> Cursor
    ensures { NotedOver result_bytes (WithinResult types_most size_variables_most) line.now from at.at ends.old ends.new result }
{
    let end = behind_result(line, at);
    note(ends, from, at, end);
    end
}

// The channel that a `13` names, as a set; none where it has no bit.
fn named(channel: u32) -> u32
    ensures { Gathers (channel ∷ []) result }
{
    if channel < WORD_BITS {
        return single(channel);
    }
    0
}

// A cursor, and what was read up to it.
fn reached(behind: Cursor, readings: u32) -> Passed
    ensures { Reached behind readings result }
{
    Passed { behind, readings }
}

// An expression with so many levels left: notes its ends, and gives the cursor behind it with its readings.
pub fn expression(
    line: &[u8],
    index: &[u32; INDEX_WORDS],
    ends: &mut [u16; TEXT_MOST],
    from: usize,
    c: Cursor,
    levels: u32,
) -> Passed
    ensures { Walks line.now (types_of index.now) (functions_of index.now) from c levels ends.old ends.new result }
{
    if levels == 0 {
        return reached(c, 0);
    }
    let inner = levels - 1;
    let head = head_at(line, c);
    let form = head.form;
    let next = head.next;
    let n = parts(index, form);
    let mut so_far = match form {
        Form::Now(channel) => reached(next, named(channel)),
        Form::Case(_) => {
            let subject = expression(line, index, ends, from, next, inner);
            let result = subject.behind;
            reached(note_result(line, ends, from, result), subject.readings)
        }
        Form::Adjust => reached(note_size(line, ends, from, next), 0),
        _ => reached(next, 0),
    };
    for _ in 0..n {
        let part = expression(line, index, ends, from, so_far.behind, inner);
        let readings = so_far.readings | part.readings;
        so_far = reached(part.behind, readings);
    }
    note(ends, from, c, so_far.behind);
    so_far
}
