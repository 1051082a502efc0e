// The index that the reader leaves for later passes: one row of words, the counts of the file and a section each for its frames,
// types, functions and channels. Where a word stands is said here; index_writer and signatures write by it, all else asks the accessors.
#![tactic(auto)]

pub mod channels;
pub mod frames;
pub mod functions;
pub mod types;

ghost use Rattle.std.specs.Prelude.{◌≡◌, ◌+◌, ◌<◌, ◌≤◌, length, get_or, set, replicate};
ghost use Rattle.language.specs.Limits.{byte_range};
ghost use Rattle.language.specs.Format.{bit};
ghost use Rattle.index.specs.Sections.{section, index_words, counts_in, SmallCounts};

use language::limits::{
    BYTE_RANGE, CHANNELS_MOST, CONSTRUCTORS_MOST, FIELDS_MOST, FUNCTIONS_MOST, INPUTS_MOST,
    NODES_MOST, PARAMETERS_MOST, TYPES_MOST,
};

// How many frames a file may have.
pub const FRAMES_MOST: usize = TYPES_MOST + FUNCTIONS_MOST + INPUTS_MOST + NODES_MOST;

// The words of an entry. A frame: where its line starts, and how long it is.
pub const FRAME_WORDS: usize = 2;

// A constructor: how many fields it has, how many of the type itself, and the word of each.
pub const CONSTRUCTOR_HEAD: usize = 2;

pub const CONSTRUCTOR_WORDS: usize = CONSTRUCTOR_HEAD + FIELDS_MOST;

// A type: how many constructors it has, and the entry of each.
const TYPE_HEAD: usize = 1;

pub const TYPE_WORDS: usize = TYPE_HEAD + CONSTRUCTORS_MOST * CONSTRUCTOR_WORDS;

// A function: how many parameters it has, the word of each, and where its result, conditions, measure and body start.
pub const HEAD_WORDS: usize = 1 + PARAMETERS_MOST;

const RESULT_PART: usize = 0;

pub const CONDITIONS_PART: usize = 1;

pub const MEASURE_PART: usize = 2;

pub const BODY_PART: usize = 3;

pub const FUNCTION_WORDS: usize = HEAD_WORDS + BODY_PART + 1;

// A channel: the word of its declared type, and where its initial value and its update start.
pub const INITIAL_WORD: usize = 1;

pub const UPDATE_WORD: usize = 2;

pub const CHANNEL_WORDS: usize = UPDATE_WORD + 1;

// The words of the counts.
pub const TYPE_COUNT: usize = 0;

pub const FUNCTION_COUNT: usize = 1;

pub const INPUT_COUNT: usize = 2;

pub const NODE_COUNT: usize = 3;

// How long the sections are, and where they start.
const COUNT_WORDS: usize = NODE_COUNT + 1;

const FRAME_TABLE: usize = FRAMES_MOST * FRAME_WORDS;

const TYPE_TABLE: usize = TYPES_MOST * TYPE_WORDS;

const FUNCTION_TABLE: usize = FUNCTIONS_MOST * FUNCTION_WORDS;

const CHANNEL_TABLE: usize = CHANNELS_MOST * CHANNEL_WORDS;

pub const FRAMES_FROM: usize = COUNT_WORDS;

pub const TYPES_FROM: usize = FRAMES_FROM + FRAME_TABLE;

pub const FUNCTIONS_FROM: usize = TYPES_FROM + TYPE_TABLE;

pub const CHANNELS_FROM: usize = FUNCTIONS_FROM + FUNCTION_TABLE;

pub const INDEX_WORDS: usize = CHANNELS_FROM + CHANNEL_TABLE;

// How many frames of each kind a file has.
#[derive(Clone, Copy)]
pub struct Counts {
    pub types: u32,
    pub functions: u32,
    pub inputs: u32,
    pub nodes: u32,
}

// A word of a row; 0 beyond it.
pub fn word_at(row: &[u32], i: usize) -> u32
    ensures { result ≡ get_or row.now i 0 }
{
    row.get(i).copied().unwrap_or(0)
}

// A byte of a row; 0 beyond it.
pub fn byte_at(row: &[u8], i: usize) -> u32
    ensures { (result ≡ get_or row.now i 0) × (result < byte_range) }
{
    u32::from(row.get(i).copied().unwrap_or(0))
}

// Writes a word of a row; beyond it nothing.
pub fn put(row: &mut [u32], i: usize, word: u32)
    ensures { row.new ≡ set row.old i word }
{
    if i < row.len() {
        row[i] = word;
    }
}

// Every word 0.
pub fn clear(row: &mut [u32])
    ensures { row.new ≡ replicate (length row.old) 0 }
{
    row.fill(0);
}

// 1 where the test holds, else 0.
pub fn one_if(holds: bool) -> u32
    ensures { (result ≡ bit holds) × (result ≤ 1) }
{
    u32::from(holds)
}

// Word i of the section of so many words from a place on; 0 beyond it.
fn section_word(index: &[u32; INDEX_WORDS], from: usize, words: usize, i: usize) -> u32
    requires { from + words ≤ index_words }
    ensures { result ≡ get_or (section from words index.now) i 0 }
{
    if i < words {
        return index[from + i];
    }
    0
}

// How many frames of each kind the file has.
pub fn frame_counts(index: &[u32; INDEX_WORDS]) -> Counts
    ensures { (result ≡ counts_in index.now) × SmallCounts result }
{
    Counts {
        types: section_word(index, 0, COUNT_WORDS, TYPE_COUNT) % BYTE_RANGE,
        functions: section_word(index, 0, COUNT_WORDS, FUNCTION_COUNT) % BYTE_RANGE,
        inputs: section_word(index, 0, COUNT_WORDS, INPUT_COUNT) % BYTE_RANGE,
        nodes: section_word(index, 0, COUNT_WORDS, NODE_COUNT) % BYTE_RANGE,
    }
}
