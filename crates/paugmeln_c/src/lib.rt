// The static library: the calls of `paugmeln` under the same names, for C and Rust, each with its clauses. Nothing else is in it.
#![tactic(auto)]

ghost use Rattle.language.specs.Reader.{read_file};
ghost use Rattle.checker.specs.Checks.{Checks};
ghost use Rattle.startup.specs.Starts.{Starts};
ghost use Rattle.runtime.specs.Runs.{Iterates};
ghost use Rattle.writer.specs.Writes.{Writes};
ghost use Rattle.instance_list.specs.Records.{FindsPlace};
ghost use Rattle.paugmeln.specs.Answers.{Answers, board};

use answers::Answer;
use instance_list::Instance;

// The answer for a text as far as refusal 8; its bounds are 0.
#[unsafe(no_mangle)]
pub extern "C" fn paugmeln_read(text: &[u8]) -> Answer
    ensures { Answers result (read_file text.now) }
{
    paugmeln::paugmeln_read(text)
}

// The checker's answer for a text on a board; the list ends with the instances, or empty.
#[unsafe(no_mangle)]
pub extern "C" fn paugmeln_check(
    text: &[u8],
    cells: u32,
    slots: u32,
    calls: u32,
    list: &mut [Instance],
) -> Answer
    ensures { Checks text.now (board cells slots calls) list.old result list.new }
{
    paugmeln::paugmeln_check(text, cells, slots, calls, list)
}

// The start of a text on a board: the list as above; the state of the initial values, or unchanged; scratch and environment zero.
#[unsafe(no_mangle)]
pub extern "C" fn paugmeln_start(
    text: &[u8],
    cells: u32,
    slots: u32,
    calls: u32,
    list: &mut [Instance],
    state: &mut [u32],
    scratch: &mut [u32],
    environment: &mut [u32],
) -> Answer
    ensures { Starts text.now (board cells slots calls) list.old state.old scratch.old environment.old result list.new state.new scratch.new environment.new }
{
    paugmeln::paugmeln_start(text, cells, slots, calls, list, state, scratch, environment)
}

// The place of the first record of a list that has the key's function and sizes, or the list's length.
#[unsafe(no_mangle)]
pub extern "C" fn paugmeln_find(list: &[Instance], key: Instance) -> usize
    ensures { FindsPlace list.now key result }
{
    paugmeln::paugmeln_find(list, key)
}

// One iteration with a line of input: the state slid, or unchanged; scratch and environment zero.
#[unsafe(no_mangle)]
pub extern "C" fn paugmeln_iterate(
    text: &[u8],
    cells: u32,
    slots: u32,
    calls: u32,
    state: &mut [u32],
    scratch: &mut [u32],
    environment: &mut [u32],
    line: &[u8],
) -> Answer
    ensures { Iterates text.now (board cells slots calls) state.old scratch.old environment.old line.now result state.new scratch.new environment.new }
{
    paugmeln::paugmeln_iterate(text, cells, slots, calls, state, scratch, environment, line)
}

// The strict text of a file: the buffer is zero behind it, or all of it on a refusal; bounds are 0.
#[unsafe(no_mangle)]
pub extern "C" fn paugmeln_write(text: &[u8], buffer: &mut [u8]) -> Answer
    ensures { Writes text.now buffer.old result buffer.new }
{
    paugmeln::paugmeln_write(text, buffer)
}
