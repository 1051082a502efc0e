// Whether lent words are a valid state of the file: refusal 18 (document 01, "Estimation and memory").
#![tactic(auto)]

ghost use Rattle.std.specs.Prelude.{◌≤◌, length};
ghost use Rattle.language.specs.Layout.{state_length};
ghost use Rattle.state_check.specs.Loads.{ChannelsJudged, MarksJudged, ReachedJudged, LaidJudged, RightJudged, StateJudged};

use cell_check::{cells_fit, location_fits};
use index::channels::declared_word;
use index::{INDEX_WORDS, clear, frame_counts};
use language::limits::CHANNELS_MOST;
use marking::{is_marked, mark_reached};
use state_words::{cells_clear, channel_cell, channels_clear, state_length, used_cells};

// Whether the cell of each channel is one of those used, of its declared type.
fn channels_fit(index: &[u32; INDEX_WORDS], state: &[u32], channels: u32, used: u32) -> bool
    ensures { ChannelsJudged index.now state.now channels used result }
{
    for c in 0..channels {
        if !location_fits(state, used, channel_cell(state, c), declared_word(index, c)) {
            return false;
        }
    }
    true
}

// Whether each of the cells used is marked.
fn all_marked(marks: &[u32], used: u32) -> bool
    ensures { MarksJudged marks.now used result }
{
    for i in 0..used {
        if !is_marked(marks, i) {
            return false;
        }
    }
    true
}

// Whether the channels reach each of the cells used.
fn all_reached(
    index: &[u32; INDEX_WORDS],
    state: &[u32],
    marks: &mut [u32],
    channels: u32,
    used: u32,
) -> bool
    ensures { ReachedJudged index.now state.now channels used marks.old result marks.new }
{
    mark_reached(index, state, marks, channels, used);
    let all = all_marked(marks, used);
    clear(marks);
    all
}

// Whether there are as many cells as are used, and the words that are not used are zero.
fn laid_out(state: &[u32], channels: u32, used: u32, cells: u32) -> bool
    requires { state_length cells ≤ length state.now }
    ensures { LaidJudged state.now channels used cells result }
{
    // Test by test and no `&&`: what the later calls require is known from the earlier tests.
    if cells < used {
        return false;
    }
    if (CHANNELS_MOST as u32) < channels {
        return false;
    }
    if !channels_clear(state, channels) {
        return false;
    }
    cells_clear(state, used, cells)
}

// Whether the cells used, and the channels, are right; with a mark for each cell, none at first and none left.
fn state_right(
    index: &[u32; INDEX_WORDS],
    state: &[u32],
    marks: &mut [u32],
    types: u32,
    channels: u32,
    used: u32,
) -> bool
    ensures { RightJudged index.now state.now types channels used marks.old result marks.new }
{
    cells_fit(index, types, state, used)
        && channels_fit(index, state, channels, used)
        && all_reached(index, state, marks, channels, used)
}

// Whether the words are lent for so many cells and hold a valid state. The scratch is zero, and left so.
pub fn valid_state(
    index: &[u32; INDEX_WORDS],
    state: &[u32],
    scratch: &mut [u32],
    cells: u32,
) -> bool
    ensures { StateJudged index.now state.now cells scratch.old result scratch.new }
{
    if state.len() < state_length(cells) {
        return false;
    }
    if scratch.len() < (cells as usize) {
        return false;
    }
    let used = used_cells(state);
    let counts = frame_counts(index);
    let channels = counts.inputs + counts.nodes;
    if !laid_out(state, channels, used, cells) {
        return false;
    }
    state_right(
        index,
        state,
        &mut scratch[..used as usize],
        counts.types,
        channels,
        used,
    )
}
