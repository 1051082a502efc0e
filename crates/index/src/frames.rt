// Frames: where each one's line stands in the text.
ghost use Rattle.std.specs.Prelude.{◌≡◌, ◌+◌, ◌*◌, ◌<◌};
ghost use Rattle.index.specs.Sections.{frames_of};
ghost use Rattle.index.specs.Indexed.{frame_place, frame_length, frame_part};

use super::{FRAME_TABLE, FRAME_WORDS, FRAMES_FROM, INDEX_WORDS, section_word};

// Where frame i starts in the text, from 0; 0 beyond the section.
pub fn frame_place(index: &[u32; INDEX_WORDS], i: u32) -> usize
    ensures { result ≡ frame_place (frames_of index.now) i }
{
    section_word(index, FRAMES_FROM, FRAME_TABLE, FRAME_WORDS * (i as usize)) as usize
}

// How many characters frame i has, from 0; 0 beyond the section.
pub fn frame_length(index: &[u32; INDEX_WORDS], i: u32) -> usize
    ensures { result ≡ frame_length (frames_of index.now) i }
{
    section_word(
        index,
        FRAMES_FROM,
        FRAME_TABLE,
        FRAME_WORDS * (i as usize) + 1,
    ) as usize
}

// The part of the text that the index names for frame i, from 0, as far as the text goes.
pub fn frame_line<'a>(text: &'a [u8], index: &[u32; INDEX_WORDS], i: u32) -> &'a [u8]
    ensures { result.now ≡ frame_part text.now (frames_of index.now) i }
{
    let entry = FRAME_WORDS * (i as usize);
    let place = section_word(index, FRAMES_FROM, FRAME_TABLE, entry) as usize;
    let size = section_word(index, FRAMES_FROM, FRAME_TABLE, entry + 1) as usize;
    let end = place + size;
    if end <= text.len() {
        return &text[place..end];
    }
    if place <= text.len() {
        return &text[place..];
    }
    &text[text.len()..]
}
