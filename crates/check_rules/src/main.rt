// Checks the rule file on standard input with the largest board, and writes the answer on one line.
#![tactic(auto)]

ghost use Rattle.std.specs.Prelude.{◌≤◌, ◌<◌, length, take, IfOk};
ghost use Rattle.std.specs.Io.KnownBytes.{Consumes, IsAtEnd};

use answers::{Answer, Board};
use checker::check_words;
use instance_list::LIST_WORDS;
use language::limits::{CALLS_MOST, CELLS_MOST, INSTANCES_MOST, SLOTS_MOST, TEXT_MOST};
use std::io;
use std::io::Read;

// The word, on a refusal its number and frame, and the three bounds.
fn show(rt: &impl Print, r: Answer) -> io::Result<()> {
    let Answer {
        number,
        frame,
        heap,
        environment,
        stack,
    } = r;
    if number == 0 {
        println!(rt; "ACCEPT {heap} {environment} {stack}")
    } else {
        println!(rt; "REFUSE {number} {frame} {heap} {environment} {stack}")
    }
}

// Reads to the end of the input, or as far as there is room, and says how many characters that are.
fn read_text<R: Read>(input: &mut R, text: &mut [u8]) -> io::Result<usize>
    ensures within { IfOk result (λ n. n ≤ length text.new) }
    ensures read { IfOk result (λ n. Consumes (R.remaining input.old) (R.remaining input.new) (take n text.new)) }
    ensures to_the_end { IfOk result (λ n. n < length text.new → IsAtEnd (R.remaining input.new)) }
{
    let mut n = 0;
    // Each read takes as many as there are: no range says the places.
    while n < text.len() {
        let k = input.read(&mut text[n..])?;
        if k == 0 {
            break;
        }
        n += k;
    }
    Ok(n)
}

// A character more than a rule file may have is enough to know that a text is too long.
fn main(rt: HostRuntime) -> io::Result<()> {
    let mut text = [0u8; TEXT_MOST + 1];
    let n = read_text(&mut rt.stdin(), &mut text)?;
    let mut words = [0u32; LIST_WORDS];
    let b = Board {
        cells: CELLS_MOST,
        slots: SLOTS_MOST,
        calls: CALLS_MOST,
    };
    let r = check_words(&text[..n], b, INSTANCES_MOST, &mut words);
    show(&rt, r)
}
