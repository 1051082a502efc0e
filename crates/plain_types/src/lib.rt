// Plain types in every frame of a file that was read: refusal 9. The definition stands in language/specs/PlainTypes.
#![tactic(auto)]

mod exprs;
mod frames;
mod initials;
mod lists;
mod series;
mod words;

ghost use Rattle.plain_types.specs.Verdicts.{JudgesAll};

use frames::frame_agrees;
use heads::places::line_behind_types;
use index::INDEX_WORDS;
use language::limits::{CHANNELS_MOST, FUNCTIONS_MOST};

// How many frames have types to check: those of functions and of channels.
const BODIES_MOST: usize = FUNCTIONS_MOST + CHANNELS_MOST;

// The number, from 1, of the first frame whose plain types do not agree.
pub fn plain_types(text: &[u8], index: &[u32; INDEX_WORDS]) -> Option<u32>
    ensures { JudgesAll text.now index.now result }
{
    let most = BODIES_MOST as u32;
    for i in 0..most {
        if !frame_agrees(text, index, i) {
            return Some(line_behind_types(index, i) + 1);
        }
    }
    None
}
