// The words of the index written: counts, frames, the places of a function's parts, channels.
#![tactic(auto)]

ghost use Rattle.std.specs.Prelude.{◌≡◌, ◌+◌, ◌*◌, ◌^◌, ◌<◌, length, set};
ghost use Rattle.index.specs.Tables.{frame_words, function_words, channel_words};
ghost use Rattle.index.specs.FunctionTable.{head_words};
ghost use Rattle.index.specs.Sections.{index_words, frames_from, frame_table_words, frames_of, functions_from, function_table_words, functions_of, channels_from, channel_table_words, channels_of};
ghost use Rattle.index.specs.SectionLaws.{Outside, CountsPut};

use index::{
    BODY_PART, CHANNEL_WORDS, CHANNELS_FROM, CONDITIONS_PART, Counts, FRAME_WORDS, FRAMES_FROM,
    FUNCTION_COUNT, FUNCTION_WORDS, FUNCTIONS_FROM, HEAD_WORDS, INDEX_WORDS, INITIAL_WORD,
    INPUT_COUNT, MEASURE_PART, NODE_COUNT, TYPE_COUNT, TYPES_FROM, UPDATE_WORD, put,
};

// Writes the counts.
pub fn put_counts(index: &mut [u32; INDEX_WORDS], n: Counts)
    ensures { CountsPut n index.old index.new }
{
    put(index, TYPE_COUNT, n.types);
    put(index, FUNCTION_COUNT, n.functions);
    put(index, INPUT_COUNT, n.inputs);
    put(index, NODE_COUNT, n.nodes);
}

// Writes an entry into the section of frames.
fn frame_into(frames: &mut [u32], to: usize, place: u32, size: u32)
    requires { to < 2 ^ 62 }
    ensures { frames.new ≡ set (set frames.old to place) (to + 1) size }
{
    put(frames, to, place);
    put(frames, to + 1, size);
}

// Writes the entry of frame i, from 0: where it starts, and how many characters it has. Beyond the section nothing.
pub fn put_frame(index: &mut [u32; INDEX_WORDS], i: u32, place: u32, size: u32)
    ensures { (frames_of index.new ≡ set (set (frames_of index.old) (frame_words * i) place) (frame_words * i + 1) size) × Outside frames_from frame_table_words index.old index.new }
{
    let to = FRAME_WORDS * (i as usize);
    frame_into(&mut index[FRAMES_FROM..TYPES_FROM], to, place, size);
}

// Writes four places into the section of functions.
fn places_into(functions: &mut [u32], to: usize, a: u32, b: u32, c: u32, d: u32)
    requires { to < 2 ^ 62 }
    ensures { functions.new ≡ set (set (set (set functions.old to a) (to + 1) b) (to + 2) c) (to + 3) d }
{
    put(functions, to, a);
    put(functions, to + CONDITIONS_PART, b);
    put(functions, to + MEASURE_PART, c);
    put(functions, to + BODY_PART, d);
}

// Writes where the parts of function f start: its result, its conditions, its measure and its body.
pub fn put_places(
    index: &mut [u32; INDEX_WORDS],
    f: u32,
    res: u32,
    conditions: u32,
    measure: u32,
    body: u32,
)
    ensures { (functions_of index.new ≡ set (set (set (set (functions_of index.old) (function_words * f + head_words) res) (function_words * f + head_words + 1) conditions) (function_words * f + head_words + 2) measure) (function_words * f + head_words + 3) body) × Outside functions_from function_table_words index.old index.new }
{
    let to = FUNCTION_WORDS * (f as usize) + HEAD_WORDS;
    places_into(
        &mut index[FUNCTIONS_FROM..CHANNELS_FROM],
        to,
        res,
        conditions,
        measure,
        body,
    );
}

// Writes an entry into the section of channels.
fn channel_into(channels: &mut [u32], to: usize, word: u32, initial: u32, update: u32)
    requires { to < 2 ^ 62 }
    ensures { channels.new ≡ set (set (set channels.old to word) (to + 1) initial) (to + 2) update }
{
    put(channels, to, word);
    put(channels, to + INITIAL_WORD, initial);
    put(channels, to + UPDATE_WORD, update);
}

// Writes the entry of channel c.
pub fn put_channel(index: &mut [u32; INDEX_WORDS], c: u32, word: u32, initial: u32, update: u32)
    ensures { (channels_of index.new ≡ set (set (set (channels_of index.old) (channel_words * c) word) (channel_words * c + 1) initial) (channel_words * c + 2) update) × Outside channels_from channel_table_words index.old index.new }
{
    let to = CHANNEL_WORDS * (c as usize);
    channel_into(
        &mut index[CHANNELS_FROM..INDEX_WORDS],
        to,
        word,
        initial,
        update,
    );
}
