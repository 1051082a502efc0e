// The reader of rule files: refusals 1 to 8, and the index for later passes.
#![tactic(auto)]

mod frames;
mod lines;

ghost use Rattle.std.specs.Prelude.{◌≡◌, replicate};
ghost use Rattle.language.specs.Reader.{read_file};
ghost use Rattle.index.specs.Sections.{index_words};
ghost use Rattle.reader.specs.Texts.{Finished, Ready, FramesRead, TextRead};

use frames::frame;
use index::frames::frame_line;
use index::{Counts, FRAMES_MOST, INDEX_WORDS, clear};
use index_writer::put_counts;
use language::refusals::{Refusal, RefusalAt};
use lines::judge;

// After the last frame: refused at the next one if there is no node; else the counts are written.
fn finish(index: &mut [u32; INDEX_WORDS], known: Counts, next: u32) -> Result<(), RefusalAt>
    ensures { Finished known next index.old result index.new }
{
    if known.nodes == 0 {
        return Err(RefusalAt {
            refusal: Refusal::BadFrame,
            frame: next,
        });
    }
    put_counts(index, known);
    Ok(())
}

// Reads frame after frame, each by its entry in the index, of a text with so many frames and channels. Where the index has no room for
// another one, every kind has as many frames as it may have.
fn read_frames(
    text: &[u8],
    index: &mut [u32; INDEX_WORDS],
    frames: u32,
    channels: u32,
) -> Result<(), RefusalAt>
    requires { Ready text.now index.old frames channels }
    ensures { FramesRead text.now result index.new (read_file text.now) }
{
    let mut known = Counts {
        types: 0,
        functions: 0,
        inputs: 0,
        nodes: 0,
    };
    for read in 0..frames {
        if FRAMES_MOST <= read as usize {
            return Err(RefusalAt {
                refusal: Refusal::BadFrame,
                frame: read + 1,
            });
        }
        let line = frame_line(text, index, read);
        // By cases and no `map_err`: what its closure answers is not told to the proof.
        known = match frame(line, index, known, channels) {
            Ok(n) => n,
            Err(refusal) => {
                return Err(RefusalAt {
                    refusal,
                    frame: read + 1,
                });
            }
        };
    }
    finish(index, known, frames + 1)
}

// Reads a text into an index of zeros.
fn read_into(text: &[u8], index: &mut [u32; INDEX_WORDS]) -> Result<(), RefusalAt>
    requires { index.old ≡ replicate index_words 0 }
    ensures { FramesRead text.now result index.new (read_file text.now) }
{
    let n = judge(text, index)?;
    read_frames(text, index, n.frames, n.channels)
}

// Reads a text: the index is that of the text and its file, or there is a refusal and every word is 0.
#[tactic(auto, using(crate::specs::TextLaws::done_read, crate::specs::TextLaws::fault_read, crate::specs::TextLaws::cleared))]
pub fn read(text: &[u8], index: &mut [u32; INDEX_WORDS]) -> Result<(), RefusalAt>
    ensures { TextRead text.now result index.new (read_file text.now) }
{
    clear(index);
    let r = read_into(text, index);
    if r.is_err() {
        clear(index);
    }
    r
}
