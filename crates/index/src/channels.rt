// Channels: the declared type, and where initial value and update start.
ghost use Rattle.std.specs.Prelude.{◌≡◌, ◌+◌, ◌*◌};
ghost use Rattle.index.specs.Sections.{channels_of};
ghost use Rattle.index.specs.Indexed.{declared_at, initial_at, update_at};

use super::{
    CHANNEL_TABLE, CHANNEL_WORDS, CHANNELS_FROM, INDEX_WORDS, INITIAL_WORD, UPDATE_WORD,
    section_word,
};
use text::Cursor;

// The word of a channel's declared type.
pub fn declared_word(index: &[u32; INDEX_WORDS], c: u32) -> u32
    ensures { result ≡ declared_at (channels_of index.now) c }
{
    section_word(
        index,
        CHANNELS_FROM,
        CHANNEL_TABLE,
        CHANNEL_WORDS * (c as usize),
    )
}

// Where a channel's initial value starts in its line, and a node's update.
pub fn initial_start(index: &[u32; INDEX_WORDS], c: u32) -> Cursor
    ensures { result.at ≡ initial_at (channels_of index.now) c }
{
    let word = section_word(
        index,
        CHANNELS_FROM,
        CHANNEL_TABLE,
        CHANNEL_WORDS * (c as usize) + INITIAL_WORD,
    );
    Cursor { at: word as usize }
}

pub fn update_start(index: &[u32; INDEX_WORDS], c: u32) -> Cursor
    ensures { result.at ≡ update_at (channels_of index.now) c }
{
    let word = section_word(
        index,
        CHANNELS_FROM,
        CHANNEL_TABLE,
        CHANNEL_WORDS * (c as usize) + UPDATE_WORD,
    );
    Cursor { at: word as usize }
}
