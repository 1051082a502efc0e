// The lines of a text, judged as a whole; where each frame's line is goes into the index.
ghost use Rattle.std.specs.Prelude.{◌≡◌, replicate};
ghost use Rattle.index.specs.Sections.{index_words};
ghost use Rattle.reader.specs.Texts.{Judges};

use index::INDEX_WORDS;
use index_writer::put_frame;
use language::limits::TEXT_MOST;
use language::refusals::{NO_FRAME, Refusal, RefusalAt};
use text_lines::rule_lines::{RuleLine, rule_line, rule_marks};
use text_lines::{FrameCounts, channel};

// How many frames there are, and channels; refused is a text too long, and the first bad line. Where each frame's line starts and how
// long it is goes into the index, as far as it has room.
pub fn judge(text: &[u8], index: &mut [u32; INDEX_WORDS]) -> Result<FrameCounts, RefusalAt>
    requires { index.old ≡ replicate index_words 0 }
    ensures { Judges text.now index.old result index.new }
{
    if TEXT_MOST < text.len() {
        return Err(RefusalAt {
            refusal: Refusal::TextTooLong,
            frame: NO_FRAME,
        });
    }
    let digits = rule_marks();
    let mut at: usize = 0;
    let mut frames: u32 = 0;
    let mut channels: u32 = 0;
    // A line says where the next one starts: no range says the places.
    while at < text.len() {
        let Some(x) = rule_line(text, &digits, at) else {
            return Err(RefusalAt {
                refusal: Refusal::BadLine,
                frame: frames + 1,
            });
        };
        match x {
            RuleLine::Extra(next) => {
                at = next;
            }
            RuleLine::Frame(f) => {
                let end = f.end;
                put_frame(index, frames, at as u32, (end - at) as u32);
                channels += channel(&text[at..end]);
                frames += 1;
                at = f.next;
            }
        }
    }
    Ok(FrameCounts { frames, channels })
}
