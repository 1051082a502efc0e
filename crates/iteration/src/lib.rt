// One iteration on a valid state with an allowed line: the inputs' cells, then the nodes' updates, then the slide.
#![tactic(auto)]

pub mod nodes;

ghost use Rattle.std.specs.Prelude.{◌≡◌, ◌≤◌, length};
ghost use Rattle.iteration.specs.Whole.{ChannelsTaken, ChannelsPut, FeedsAndUpdates, Begun, IteratesState};

use index::{INDEX_WORDS, frame_counts, put, word_at};
use input_cells::put_inputs;
use language::limits::{CHANNELS_MOST, NODES_MOST, TEXT_MOST};
use language::refusals::Refusal;
use nodes::{RefusalIn, update_nodes};
use sliding::collect;
use state_words::{channel_cell, clear_cells, put_channel_cell, used_cells};

// The channels' cells as they are before the line.
fn take_channels(state: &[u32], channels: &mut [u32; CHANNELS_MOST])
    ensures { ChannelsTaken state.now channels.new }
{
    for c in 0..CHANNELS_MOST as u32 {
        put(channels, c as usize, channel_cell(state, c));
    }
}

// Writes the cells of the first n channels.
fn put_channels(state: &mut [u32], channels: &[u32; CHANNELS_MOST], n: u32)
    ensures { ChannelsPut channels.now n state.old state.new }
{
    for c in 0..n {
        put_channel_cell(state, c, word_at(channels, c as usize));
    }
}

// The inputs' values laid, and all nodes updated; 20 at the first input whose cells are not all there.
fn update(
    text: &[u8],
    index: &[u32; INDEX_WORDS],
    ends: &[u16; TEXT_MOST],
    readings: &[u32; NODES_MOST],
    channels: &mut [u32; CHANNELS_MOST],
    state: &mut [u32],
    slots: &mut [u32],
    line: &[u8],
    cells: u32,
    calls: u32,
) -> Result<u32, RefusalIn>
    requires { Begun index.now state.old cells }
    ensures { FeedsAndUpdates text.now index.now ends.now readings.now line.now cells calls channels.old state.old slots.old result channels.new state.new slots.new }
{
    let used = used_cells(state);
    let fed = put_inputs(line, index, state, channels, cells, used).map_err(|channel| RefusalIn {
        refusal: Refusal::HeapSpent,
        channel,
    })?;
    update_nodes(
        text, index, ends, readings, channels, state, slots, fed, calls,
    )
}

// The whole: a refusal leaves the state as it was; else it is slid.
pub fn iterate_state(
    text: &[u8],
    index: &[u32; INDEX_WORDS],
    ends: &[u16; TEXT_MOST],
    readings: &[u32; NODES_MOST],
    state: &mut [u32],
    scratch: &mut [u32],
    slots: &mut [u32],
    line: &[u8],
    cells: u32,
    calls: u32,
) -> Result<u32, RefusalIn>
    requires begun { Begun index.now state.old cells }
    requires cells_in_bounds { cells ≤ length scratch.old }
    ensures { IteratesState text.now index.now ends.now readings.now line.now cells calls state.old scratch.old slots.old result state.new scratch.new slots.new }
{
    let mut channels = [0u32; CHANNELS_MOST];
    take_channels(state, &mut channels);
    let used = used_cells(state);
    let updated = update(
        text,
        index,
        ends,
        readings,
        &mut channels,
        state,
        slots,
        line,
        cells,
        calls,
    );
    let Ok(top) = updated else {
        clear_cells(state, used, cells);
        return updated;
    };
    let counts = frame_counts(index);
    let n = counts.inputs + counts.nodes;
    put_channels(state, &channels, n);
    collect(index, state, scratch, n, top);
    updated
}
