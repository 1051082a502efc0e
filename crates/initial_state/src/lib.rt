// The state at the start: the cells of the initial values, laid one after the other in channel order, and the header that names them.
#![tactic(auto)]

ghost use Rattle.new_cells.specs.Steps.{Board};
ghost use Rattle.initial_state.specs.Promises.{LaysInitials, LaysState};

use ends::find_initial_ends;
use evaluator::channels::channel_value;
use index::channels::initial_start;
use index::{INDEX_WORDS, clear, frame_counts};
use language::limits::{CHANNELS_MOST, TEXT_MOST};
use state_words::{put_channel_cell, put_used_cells};

// Lays the initial values of the first n channels and names their cells in the header; how many cells are used then.
fn lay_initial_values(
    text: &[u8],
    index: &[u32; INDEX_WORDS],
    ends: &[u16; TEXT_MOST],
    state: &mut [u32],
    slots: &mut [u32],
    n: u32,
    calls: u32,
) -> u32
    requires { Board state.old 0 }
    ensures { LaysInitials text.now index.now ends.now n calls state.old slots.old result state.new slots.new }
{
    // An initial value names no channel.
    let channels = [0u32; CHANNELS_MOST];
    let mut used: u32 = 0;
    for c in 0..n {
        let at = initial_start(index, c);
        let Ok(value) = channel_value(
            text, index, ends, &channels, state, slots, c, at, used, calls,
        ) else {
            return used;
        };
        put_channel_cell(state, c, value.cell);
        used = value.used;
    }
    used
}

// Writes the state at the start over all words.
pub fn put_initial_state(
    text: &[u8],
    index: &[u32; INDEX_WORDS],
    state: &mut [u32],
    slots: &mut [u32],
    calls: u32,
)
    requires { Board state.old 0 }
    ensures { LaysState text.now index.now calls state.old slots.old state.new slots.new }
{
    clear(state);
    let mut ends = [0u16; TEXT_MOST];
    find_initial_ends(text, index, &mut ends);
    let counts = frame_counts(index);
    let n = counts.inputs + counts.nodes;
    let used = lay_initial_values(text, index, &ends, state, slots, n, calls);
    put_used_cells(state, used);
}
