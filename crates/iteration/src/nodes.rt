// The nodes' updates, in the iteration's order: each is evaluated with the channels as they stand by then.
ghost use Rattle.std.specs.Prelude.{◌≡◌};
ghost use Rattle.new_cells.specs.Steps.{Board};
ghost use Rattle.index.specs.Sections.{channels_of};
ghost use Rattle.index.specs.Indexed.{declared_at};
ghost use Rattle.node_order.specs.Files.{FewChannels};
ghost use Rattle.iteration.specs.Promises.{size_in_word, UpdatesNode, UpdatesNodes};

use channel_sets::{first, single};
use evaluator::channels::channel_value;
use index::channels::{declared_word, update_start};
use index::{INDEX_WORDS, frame_counts, put};
use language::limits::{CHANNELS_MOST, NODES_MOST, TEXT_MOST};
use language::refusals::Refusal;
use new_cells::Value;
use node_order::next_node;
use state_words::reads::size;
use state_words::tags::{CONSTRUCTOR_TAGS, word_size};

// A refusal, and the channel where it was met.
#[derive(Clone, Copy)]
pub struct RefusalIn {
    pub refusal: Refusal,
    pub channel: u32,
}

// The size in the declared type of channel c; 0 of a Bool or an Int.
fn declared_size(index: &[u32; INDEX_WORDS], c: u32) -> u32
    ensures { result ≡ size_in_word (declared_at (channels_of index.now) c) }
{
    let word = declared_word(index, c);
    if word < CONSTRUCTOR_TAGS {
        return 0;
    }
    word_size(word)
}

// The update of channel c; 23 where its value is above the declared size.
fn update_node(
    text: &[u8],
    index: &[u32; INDEX_WORDS],
    ends: &[u16; TEXT_MOST],
    channels: &[u32; CHANNELS_MOST],
    state: &mut [u32],
    slots: &mut [u32],
    c: u32,
    used: u32,
    calls: u32,
) -> Result<Value, Refusal>
    requires { Board state.old used }
    ensures { UpdatesNode text.now index.now ends.now channels.now c used calls state.old slots.old result state.new slots.new }
{
    let at = update_start(index, c);
    let value = channel_value(
        text, index, ends, channels, state, slots, c, at, used, calls,
    )?;
    if declared_size(index, c) < size(state, value.used, value.cell) {
        return Err(Refusal::ValueTooLarge);
    }
    Ok(value)
}

// All of them: again and again the lowest-numbered node not yet done whose readings of nodes are all done. How many cells are used then.
pub fn update_nodes(
    text: &[u8],
    index: &[u32; INDEX_WORDS],
    ends: &[u16; TEXT_MOST],
    readings: &[u32; NODES_MOST],
    channels: &mut [u32; CHANNELS_MOST],
    state: &mut [u32],
    slots: &mut [u32],
    used: u32,
    calls: u32,
) -> Result<u32, RefusalIn>
    requires board { Board state.old used }
    requires few_channels { FewChannels index.now }
    ensures { UpdatesNodes text.now index.now ends.now readings.now used calls channels.old state.old slots.old result channels.new state.new slots.new }
{
    let counts = frame_counts(index);
    let inputs = counts.inputs;
    let nodes = counts.nodes;
    let mut done = first(inputs);
    let mut top = used;
    for _ in 0..nodes {
        let Some(i) = next_node(readings, done, inputs, nodes) else {
            return Ok(top);
        };
        let channel = inputs + i;
        let value = update_node(
            text, index, ends, channels, state, slots, channel, top, calls,
        )
        .map_err(|refusal| RefusalIn { refusal, channel })?;
        put(channels, channel as usize, value.cell);
        top = value.used;
        done |= single(channel);
    }
    Ok(top)
}
