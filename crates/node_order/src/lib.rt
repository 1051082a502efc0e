// The order of an iteration's nodes: which node reads itself by `13`, directly or by others, and which node is next. Readings are a set of
// channels for each node.
#![tactic(auto)]

ghost use Rattle.std.specs.Prelude.{◌≡◌, ◌+◌, ◌≤◌, ◌<◌, get_or};
ghost use Rattle.channel_sets.specs.Sets.{word_bits};
ghost use Rattle.node_order.specs.Lowest.{LowestBelow};
ghost use Rattle.node_order.specs.Files.{FewChannels, JudgesOrder};
ghost use Rattle.node_order.specs.Rows.{ready_in, self_in, joined_by, ReadsLower, ReadOn, ReadThrough, SelfReader};

use channel_sets::has;
use heads::places::channel_line;
use index::{INDEX_WORDS, frame_counts, put, word_at};
use language::limits::NODES_MOST;

// Whether node i, channel c, is not done and all that it reads is.
fn is_ready(readings: &[u32; NODES_MOST], done: u32, c: u32, i: u32) -> bool
    requires { c < word_bits }
    ensures { result ≡ ready_in done c (get_or readings.now i 0) }
{
    !has(done, c) && done | word_at(readings, i as usize) == done
}

// The lowest node not done whose readings are all done.
pub fn next_node(readings: &[u32; NODES_MOST], done: u32, inputs: u32, nodes: u32) -> Option<u32>
    requires { inputs + nodes ≤ word_bits }
    ensures { LowestBelow (λ i. ready_in done (inputs + i) (get_or readings.now i 0)) nodes result }
{
    for i in 0..nodes {
        if is_ready(readings, done, inputs + i, i) {
            return Some(i);
        }
    }
    None
}

// Whether every node reads only channels below its own.
fn reads_lower(readings: &[u32; NODES_MOST], inputs: u32, nodes: u32) -> bool
    requires { inputs + nodes ≤ word_bits }
    ensures { ReadsLower readings.now inputs nodes result }
{
    for i in 0..nodes {
        if word_at(readings, i as usize) >> (inputs + i) != 0 {
            return false;
        }
    }
    true
}

// A node's readings, and those of the node of channel c where it reads that.
fn joined(own: u32, c: u32, through: u32) -> u32
    requires { c < word_bits }
    ensures { result ≡ joined_by c through own }
{
    if has(own, c) {
        return own | through;
    }
    own
}

// Adds what node k reads to the readings of every node that reads it.
fn read_on(readings: &mut [u32; NODES_MOST], inputs: u32, nodes: u32, k: u32)
    requires { (inputs + nodes ≤ word_bits) × (k < nodes) }
    ensures { ReadOn inputs nodes k readings.old readings.new }
{
    let c = inputs + k;
    let through = word_at(readings, k as usize);
    for i in 0..nodes {
        let own = word_at(readings, i as usize);
        put(readings, i as usize, joined(own, c, through));
    }
}

// What each node reads directly becomes what it reads directly or by others.
fn read_through(readings: &mut [u32; NODES_MOST], inputs: u32, nodes: u32)
    requires { inputs + nodes ≤ word_bits }
    ensures { ReadThrough inputs nodes readings.old readings.new }
{
    for k in 0..nodes {
        read_on(readings, inputs, nodes, k);
    }
}

// The lowest node that reads its own channel.
fn reads_itself(readings: &[u32; NODES_MOST], inputs: u32, nodes: u32) -> Option<u32>
    requires { inputs + nodes ≤ word_bits }
    ensures { LowestBelow (self_in readings.now inputs) nodes result }
{
    for node in 0..nodes {
        if has(word_at(readings, node as usize), inputs + node) {
            return Some(node);
        }
    }
    None
}

// The lowest node that reads itself, directly or by others. Where every node reads only channels below its own, none does.
pub fn self_reader(readings: &[u32; NODES_MOST], inputs: u32, nodes: u32) -> Option<u32>
    requires { inputs + nodes ≤ word_bits }
    ensures { SelfReader readings.now inputs nodes result }
{
    if reads_lower(readings, inputs, nodes) {
        return None;
    }
    let mut through = *readings;
    read_through(&mut through, inputs, nodes);
    reads_itself(&through, inputs, nodes)
}

// The frame, from 1, of the lowest node that reads itself, directly or by others.
pub fn self_reading_frame(index: &[u32; INDEX_WORDS], readings: &[u32; NODES_MOST]) -> Option<u32>
    requires { FewChannels index.now }
    ensures { JudgesOrder index.now readings.now result }
{
    let counts = frame_counts(index);
    let i = self_reader(readings, counts.inputs, counts.nodes)?;
    Some(channel_line(index, counts.inputs + i) + 1)
}
