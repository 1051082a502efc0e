// Where the expressions of a file end: a table over the places of the text, filled once. On the same walk, what each node reads by `13`.
#![tactic(auto)]

mod walk;

ghost use Rattle.std.specs.Prelude.{◌≡◌, ◌*◌, ◌<◌};
ghost use Rattle.language.specs.Limits.{byte_range};
ghost use Rattle.index.specs.Sections.{SmallCounts, frames_of};
ghost use Rattle.index.specs.Indexed.{frame_place};
ghost use Rattle.ends.specs.Ended.{end_in};
ghost use Rattle.ends.specs.EndOf.{end_of};
ghost use Rattle.ends.specs.Told.{start_of, LineEnds, TellsLines, WalksUpdates, TellsUpdates, TellsInitials, TellsReadings};

use index::channels::{initial_start, update_start};
use index::frames::{frame_line, frame_place};
use index::functions::body_start;
use index::{Counts, INDEX_WORDS, frame_counts, put};
use language::limits::{NESTING_MOST, NODES_MOST, TEXT_MOST};
use text::Cursor;
use walk::expression;

// The expressions of a frame: a function's body; a channel's initial value; a node's update.
#[derive(Clone, Copy)]
pub enum Part {
    Body,
    Initial,
    Update,
}

// The word of a place of the line that starts at `from`; 0 beyond the table.
fn word_at(ends: &[u16], from: usize, at: Cursor) -> usize
    ensures { result ≡ end_in ends.now from at.at }
{
    let place = from.saturating_add(at.at);
    usize::from(ends.get(place).copied().unwrap_or(0))
}

// Where what starts at a place of the line that starts at `from` ends, as the table has it; never before that place.
pub fn end_from(ends: &[u16; TEXT_MOST], from: usize, at: Cursor) -> Cursor
    ensures { result.at ≡ end_of ends.now from at.at }
{
    let word = word_at(ends, from, at);
    let end = word.max(at.at);
    Cursor { at: end }
}

// The same of a place of line `line`, from 0.
pub fn end_of(ends: &[u16; TEXT_MOST], index: &[u32; INDEX_WORDS], line: u32, at: Cursor) -> Cursor
    ensures { result.at ≡ end_of ends.now (frame_place (frames_of index.now) line) at.at }
{
    end_from(ends, frame_place(index, line), at)
}

// Notes the ends in the expression that starts at a place of line i, from 0, and gives the channels that its `13`s name.
fn line_ends(
    text: &[u8],
    index: &[u32; INDEX_WORDS],
    ends: &mut [u16; TEXT_MOST],
    i: u32,
    at: Cursor,
) -> u32
    ensures { LineEnds text.now index.now i at.at ends.old ends.new result }
{
    let line = frame_line(text, index, i);
    let from = frame_place(index, i);
    expression(line, index, ends, from, at, NESTING_MOST).readings
}

// Where such a part of function or channel i starts in its line.
fn part_start(index: &[u32; INDEX_WORDS], part: Part, i: u32) -> Cursor
    ensures { result.at ≡ start_of index.now part i }
{
    match part {
        Part::Body => body_start(index, i),
        Part::Initial => initial_start(index, i),
        Part::Update => update_start(index, i),
    }
}

// Notes the ends in such a part of n functions or channels from number `from` on, whose lines follow each other from `first` on.
fn lines_ends(
    text: &[u8],
    index: &[u32; INDEX_WORDS],
    ends: &mut [u16; TEXT_MOST],
    part: Part,
    first: u32,
    from: u32,
    n: u32,
)
    requires first_bound { first < 3 * byte_range }
    requires from_lt_byte_range { from < byte_range }
    requires n_bound { n < 2 * byte_range }
    ensures { TellsLines text.now index.now part first from n n ends.old ends.new }
{
    for k in 0..n {
        line_ends(
            text,
            index,
            ends,
            first + k,
            part_start(index, part, from + k),
        );
    }
}

// Notes the ends in the update of every node, and stores the channels that it reads by `13`.
fn updates_ends(
    text: &[u8],
    index: &[u32; INDEX_WORDS],
    ends: &mut [u16; TEXT_MOST],
    readings: &mut [u32; NODES_MOST],
    c: Counts,
)
    requires { SmallCounts c }
    ensures { WalksUpdates text.now index.now c c.nodes ends.old ends.new readings.new }
{
    let before = c.types + c.functions + c.inputs;
    for k in 0..c.nodes {
        let at = part_start(index, Part::Update, c.inputs + k);
        let set = line_ends(text, index, ends, before + k, at);
        put(readings, k as usize, set);
    }
}

// Fills the table for the body of every function and the update of every node of a file that was read, and stores what each node reads.
pub fn find_ends(
    text: &[u8],
    index: &[u32; INDEX_WORDS],
    ends: &mut [u16; TEXT_MOST],
    readings: &mut [u32; NODES_MOST],
)
    ensures { TellsUpdates text.now index.now ends.new × TellsReadings text.now index.now readings.new }
{
    let c = frame_counts(index);
    lines_ends(text, index, ends, Part::Body, c.types, 0, c.functions);
    updates_ends(text, index, ends, readings, c);
}

// What each node of a file that was read reads by `13`: a set of channels for each.
pub fn find_readings(text: &[u8], index: &[u32; INDEX_WORDS], readings: &mut [u32; NODES_MOST])
    ensures { TellsReadings text.now index.now readings.new }
{
    let mut ends = [0u16; TEXT_MOST];
    updates_ends(text, index, &mut ends, readings, frame_counts(index));
}

// Fills the table for the body of every function and the initial value of every channel.
pub fn find_initial_ends(text: &[u8], index: &[u32; INDEX_WORDS], ends: &mut [u16; TEXT_MOST])
    ensures { TellsInitials text.now index.now ends.new }
{
    let c = frame_counts(index);
    lines_ends(text, index, ends, Part::Body, c.types, 0, c.functions);
    let before = c.types + c.functions;
    let n = c.inputs + c.nodes;
    lines_ends(text, index, ends, Part::Initial, before, 0, n);
}
