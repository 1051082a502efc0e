// What a program calls: the proved calls under plain names. `paugmeln_c` exports them to C.
#![tactic(auto)]

ghost use Rattle.std.specs.Prelude.{◌≡◌};
ghost use Rattle.language.specs.Reader.{read_file};
ghost use Rattle.checker.specs.Checks.{Checks};
ghost use Rattle.startup.specs.Starts.{Starts};
ghost use Rattle.runtime.specs.Runs.{Iterates};
ghost use Rattle.writer.specs.Writes.{Writes};
ghost use Rattle.instance_list.specs.Records.{FindsPlace};
ghost use Rattle.paugmeln.specs.Answers.{Answers, board};

use answers::{Answer, Board};
use checker::check_words;
use index::INDEX_WORDS;
use instance_list::{Instance, LIST_WORDS, fill, find};
use reader::read;
use runtime::iterate;
use startup::start_words;
use writer::write;

// A board by its numbers.
fn lent_board(cells: u32, slots: u32, calls: u32) -> Board
    ensures { result ≡ board cells slots calls }
{
    Board {
        cells,
        slots,
        calls,
    }
}

// The answer for a text as far as refusal 8; its bounds are 0.
pub fn paugmeln_read(text: &[u8]) -> Answer
    ensures { Answers result (read_file text.now) }
{
    let mut index = [0u32; INDEX_WORDS];
    Answer::from(read(text, &mut index))
}

// The checker's answer for a text on a board; the list ends with the instances, or empty.
pub fn paugmeln_check(
    text: &[u8],
    cells: u32,
    slots: u32,
    calls: u32,
    list: &mut [Instance],
) -> Answer
    ensures { Checks text.now (board cells slots calls) list.old result list.new }
{
    let mut words = [0u32; LIST_WORDS];
    let b = lent_board(cells, slots, calls);
    let r = check_words(text, b, list.len(), &mut words);
    fill(&words, list);
    r
}

// The start of a text on a board: the list as above; the state of the initial values, or unchanged; scratch and environment zero.
pub fn paugmeln_start(
    text: &[u8],
    cells: u32,
    slots: u32,
    calls: u32,
    list: &mut [Instance],
    state: &mut [u32],
    scratch: &mut [u32],
    environment: &mut [u32],
) -> Answer
    ensures { Starts text.now (board cells slots calls) list.old state.old scratch.old environment.old result list.new state.new scratch.new environment.new }
{
    let mut words = [0u32; LIST_WORDS];
    let r = start_words(
        text,
        lent_board(cells, slots, calls),
        list.len(),
        &mut words,
        state,
        scratch,
        environment,
    );
    fill(&words, list);
    r
}

// The place of the first record of a list that has the key's function and sizes, or the list's length.
pub fn paugmeln_find(list: &[Instance], key: Instance) -> usize
    ensures { FindsPlace list.now key result }
{
    find(list, key)
}

// One iteration with a line of input: the state slid, or unchanged; scratch and environment zero.
pub fn paugmeln_iterate(
    text: &[u8],
    cells: u32,
    slots: u32,
    calls: u32,
    state: &mut [u32],
    scratch: &mut [u32],
    environment: &mut [u32],
    line: &[u8],
) -> Answer
    ensures { Iterates text.now (board cells slots calls) state.old scratch.old environment.old line.now result state.new scratch.new environment.new }
{
    let b = lent_board(cells, slots, calls);
    iterate(text, b, state, scratch, environment, line)
}

// The strict text of a file, document 02, R-1: the buffer is zero behind it, or all of it on a refusal; bounds are 0.
pub fn paugmeln_write(text: &[u8], buffer: &mut [u8]) -> Answer
    ensures { Writes text.now buffer.old result buffer.new }
{
    write(text, buffer)
}
