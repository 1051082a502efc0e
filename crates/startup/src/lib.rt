// The call that starts a rule file on a board.
#![tactic(auto)]

ghost use Rattle.checker.specs.Checks.{ReadHeld};
ghost use Rattle.startup.specs.Starts.{StartsRead, StartsWords};

use answers::{Answer, Board, all_lent, clear_both};
use checker::check_read;
use index::{INDEX_WORDS, clear};
use initial_state::put_initial_state;
use instance_list::LIST_WORDS;
use language::refusals::NO_REFUSAL;
use reader::read;
use state_words::state_length;

// The start of a file that was read: 9 to 18 as the checker has them, or the state.
fn start_read(
    text: &[u8],
    index: &[u32; INDEX_WORDS],
    b: Board,
    records: usize,
    words: &mut [u32; LIST_WORDS],
    state: &mut [u32],
    scratch: &[u32],
    slots: &mut [u32],
) -> Answer
    requires { ReadHeld text.now index.now }
    ensures { StartsRead text.now b records state.old scratch.now slots.old result words.new state.new slots.new }
{
    let given = all_lent(b, records, state.len(), scratch.len(), slots.len());
    let r = check_read(text, index, b, given, words);
    if r.number != NO_REFUSAL {
        return r;
    }
    let state_words = state_length(b.cells);
    let slot_words = b.slots as usize;
    put_initial_state(
        text,
        index,
        &mut state[..state_words],
        &mut slots[..slot_words],
        b.calls,
    );
    r
}

// Checks a file on a board that lends a list of so many records, and starts it. The words end as `check_words` leaves them, scratch and
// slots zero; after a refusal the state is unchanged.
pub fn start_words(
    text: &[u8],
    b: Board,
    records: usize,
    words: &mut [u32; LIST_WORDS],
    state: &mut [u32],
    scratch: &mut [u32],
    slots: &mut [u32],
) -> Answer
    ensures { StartsWords text.now b records state.old scratch.old slots.old result words.new state.new scratch.new slots.new }
{
    clear_both(scratch, slots);
    let mut index = [0u32; INDEX_WORDS];
    if let Err(e) = read(text, &mut index) {
        clear(words);
        return Answer::from(Err(e));
    }
    let r = start_read(text, &index, b, records, words, state, scratch, slots);
    clear(slots);
    r
}
