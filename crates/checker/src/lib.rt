// The checker of rule files: refusals 1 to 18 and 25, the three bounds, and the list of instances.
#![tactic(auto)]

ghost use Rattle.checker.specs.Checks.{ReadHeld, Needs, SizesFound, ChecksGiven, ChecksWords};

use answers::{Answer, Board, judge, lent};
use cells::{CELLS_TABLE, channels_cells};
use ends::find_readings;
use estimate::{Estimate, capped_sum};
use index::{INDEX_WORDS, clear, frame_counts};
use instance_list::{LIST_WORDS, put_used};
use language::limits::NODES_MOST;
use language::refusals::{NO_FRAME, NO_REFUSAL, Refusal, RefusalAt};
use node_order::self_reading_frame;
use plain_types::plain_types;
use reader::read;
use size_checker::file::sized_file;
use size_steps::Counted;

// The numbers that a file needs: to the heap numbers of its updates come the cells of all channels and those of the inputs again.
fn needed(index: &[u32; INDEX_WORDS], updates: Estimate) -> Estimate
    ensures { Needs index.now updates result }
{
    let n = frame_counts(index);
    let mut table = [0u32; CELLS_TABLE];
    let all = channels_cells(index, &mut table, n.inputs + n.nodes);
    let inputs = channels_cells(index, &mut table, n.inputs);
    let channel_cells = capped_sum(all, inputs);
    let heap = capped_sum(channel_cells, updates.heap);
    Estimate {
        env: updates.env,
        heap,
        stack: updates.stack,
    }
}

// The sizes of a file that was read: 9, 25, 18, then 10 to 14. Whether enough is lent was judged before.
fn file_sizes(
    text: &[u8],
    index: &[u32; INDEX_WORDS],
    given: bool,
    words: &mut [u32; LIST_WORDS],
) -> Result<Counted, RefusalAt>
    requires { ReadHeld text.now index.now }
    ensures { SizesFound text.now index.now given result words.new }
{
    if let Some(frame) = plain_types(text, index) {
        return Err(RefusalAt {
            refusal: Refusal::TypesDisagree,
            frame,
        });
    }
    let mut readings = [0u32; NODES_MOST];
    find_readings(text, index, &mut readings);
    let node = self_reading_frame(index, &readings);
    if let Some(frame) = node {
        return Err(RefusalAt {
            refusal: Refusal::SelfReading,
            frame,
        });
    }
    if !given {
        return Err(RefusalAt {
            refusal: Refusal::NotLent,
            frame: NO_FRAME,
        });
    }
    sized_file(text, index, words)
}

// Checks a file that was read: its sizes, and what the board has. The words end with the records of the instances in order of entry, and
// how many they are; after a refusal all are zero.
pub fn check_read(
    text: &[u8],
    index: &[u32; INDEX_WORDS],
    b: Board,
    given: bool,
    words: &mut [u32; LIST_WORDS],
) -> Answer
    requires { ReadHeld text.now index.now }
    ensures { ChecksGiven text.now b given result words.new }
{
    let k = match file_sizes(text, index, given, words) {
        Ok(k) => k,
        Err(e) => {
            clear(words);
            return Answer::from(Err(e));
        }
    };
    let r = judge(b, needed(index, k.numbers));
    if r.number != NO_REFUSAL {
        clear(words);
        return r;
    }
    put_used(words, k.used);
    r
}

// Checks a text on a board that lends a list of so many records; the list is kept in words.
pub fn check_words(text: &[u8], b: Board, records: usize, words: &mut [u32; LIST_WORDS]) -> Answer
    ensures { ChecksWords text.now b records result words.new }
{
    let mut index = [0u32; INDEX_WORDS];
    if let Err(e) = read(text, &mut index) {
        clear(words);
        return Answer::from(Err(e));
    }
    check_read(text, &index, b, lent(b, records), words)
}
