// The call that runs with every tin: an iteration.
#![tactic(auto)]

ghost use Rattle.std.specs.Prelude.{◌≡◌};
ghost use Rattle.checker.specs.Checks.{ReadHeld};
ghost use Rattle.runtime.specs.Runs.{frame_at, Cleared, Walked, Lent, IteratesLent, IteratesRead, Iterates};

use answers::{Answer, Board, buffers_lent, clear_both};
use ends::find_ends;
use heads::places::channel_line;
use index::{INDEX_WORDS, clear};
use input_line::allowed_line;
use iteration::iterate_state;
use language::limits::{NODES_MOST, TEXT_MOST};
use language::refusals::{NO_FRAME, Refusal, RefusalAt};
use node_order::self_reading_frame;
use plain_types::plain_types;
use reader::read;
use state_check::valid_state;
use state_words::state_length;

// The frame of channel c.
fn channel_frame(index: &[u32; INDEX_WORDS], c: u32) -> u32
    ensures { result ≡ frame_at index.now c }
{
    channel_line(index, c) + 1
}

// An iteration with the board's words lent, the file's ends and readings found: 18, 19, then 20 to 23.
fn iterate_lent(
    text: &[u8],
    index: &[u32; INDEX_WORDS],
    ends: &[u16; TEXT_MOST],
    readings: &[u32; NODES_MOST],
    state: &mut [u32],
    scratch: &mut [u32],
    slots: &mut [u32],
    line: &[u8],
    cells: u32,
    calls: u32,
) -> Result<(), RefusalAt>
    requires { Lent text.now index.now ends.now readings.now cells state.old scratch.old }
    ensures { IteratesLent text.now index.now line.now cells calls state.old scratch.old slots.old result state.new scratch.new slots.new }
{
    if !valid_state(index, state, scratch, cells) {
        return Err(RefusalAt {
            refusal: Refusal::NotLent,
            frame: NO_FRAME,
        });
    }
    if !allowed_line(line, index) {
        return Err(RefusalAt {
            refusal: Refusal::BadInputLine,
            frame: NO_FRAME,
        });
    }
    match iterate_state(
        text, index, ends, readings, state, scratch, slots, line, cells, calls,
    ) {
        Ok(_) => Ok(()),
        Err(e) => Err(RefusalAt {
            refusal: e.refusal,
            frame: channel_frame(index, e.channel),
        }),
    }
}

// An iteration of a file of right plain types, no node of which reads itself: 18, and what follows.
fn iterate_ordered(
    text: &[u8],
    index: &[u32; INDEX_WORDS],
    ends: &[u16; TEXT_MOST],
    readings: &[u32; NODES_MOST],
    b: Board,
    state: &mut [u32],
    scratch: &mut [u32],
    slots: &mut [u32],
    line: &[u8],
) -> Result<(), RefusalAt>
    requires walked { Walked text.now index.now ends.now readings.now }
    requires cleared { Cleared scratch.old }
    ensures { IteratesRead text.now line.now b state.old scratch.old slots.old result state.new scratch.new slots.new }
{
    if !buffers_lent(b, state.len(), scratch.len(), slots.len()) {
        return Err(RefusalAt {
            refusal: Refusal::NotLent,
            frame: NO_FRAME,
        });
    }
    let words = state_length(b.cells);
    let free = b.slots as usize;
    iterate_lent(
        text,
        index,
        ends,
        readings,
        &mut state[..words],
        scratch,
        &mut slots[..free],
        line,
        b.cells,
        b.calls,
    )
}

// An iteration of a file that was read: 9, 25, and what follows.
fn iterate_read(
    text: &[u8],
    index: &[u32; INDEX_WORDS],
    b: Board,
    state: &mut [u32],
    scratch: &mut [u32],
    slots: &mut [u32],
    line: &[u8],
) -> Result<(), RefusalAt>
    requires read_held { ReadHeld text.now index.now }
    requires cleared { Cleared scratch.old }
    ensures { IteratesRead text.now line.now b state.old scratch.old slots.old result state.new scratch.new slots.new }
{
    if let Some(frame) = plain_types(text, index) {
        return Err(RefusalAt {
            refusal: Refusal::TypesDisagree,
            frame,
        });
    }
    let mut ends = [0u16; TEXT_MOST];
    let mut readings = [0u32; NODES_MOST];
    find_ends(text, index, &mut ends, &mut readings);
    let node = self_reading_frame(index, &readings);
    if let Some(frame) = node {
        return Err(RefusalAt {
            refusal: Refusal::SelfReading,
            frame,
        });
    }
    iterate_ordered(
        text, index, &ends, &readings, b, state, scratch, slots, line,
    )
}

// One iteration of a file on a board with a line of input. After a refusal the state is unchanged; scratch and environment end zero.
pub fn iterate(
    text: &[u8],
    b: Board,
    state: &mut [u32],
    scratch: &mut [u32],
    environment: &mut [u32],
    line: &[u8],
) -> Answer
    ensures { Iterates text.now b state.old scratch.old environment.old line.now result state.new scratch.new environment.new }
{
    clear_both(scratch, environment);
    let mut index = [0u32; INDEX_WORDS];
    if let Err(e) = read(text, &mut index) {
        return Answer::from(Err(e));
    }
    let r = iterate_read(text, &index, b, state, scratch, environment, line);
    clear(environment);
    Answer::from(r)
}
