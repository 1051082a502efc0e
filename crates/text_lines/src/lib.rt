// The lines of a text: where each ends, whether its characters spell bytes, and whether it is a channel.
#![tactic(auto)]

pub mod rule_lines;

ghost use Rattle.std.specs.Prelude.{◌≡◌, true, ◌+◌, ◌≤◌, length, drop};
ghost use Rattle.text.specs.Bytes.{bytes_of};
ghost use Rattle.text_lines.specs.Lines.{first_line, digit_marks, marked, digit_pairs, PairsTo, line_end, channels_of};

use language::codes::{KIND_INPUT, KIND_NODE, LINE_FEED};
use language::limits::BYTE_RANGE;
use text::{BYTE_DIGITS, Cursor, FOURTH_PAIR, SECOND_PAIR, THIRD_PAIR};

// So many digits are tested together.
const EIGHT: usize = 4 * BYTE_DIGITS;

// How many frames a text has, and how many of them are channels.
#[derive(Clone, Copy)]
pub struct FrameCounts {
    pub frames: u32,
    pub channels: u32,
}

// The part of the text from a place up to the next LF, or to the end; empty beyond the end.
pub fn line_at<'a>(text: &'a [u8], at: usize) -> &'a [u8]
    ensures { result.now ≡ first_line (drop at text.now) }
{
    if text.len() <= at {
        return &text[text.len()..];
    }
    for end in at..text.len() {
        if text[end] == LINE_FEED {
            return &text[at..end];
        }
    }
    &text[at..]
}

// For each character 1 where it is an upper-case hexadecimal digit, else 0.
fn digit_marks() -> [u8; BYTE_RANGE as usize]
    ensures { result ≡ digit_marks }
{
    let mut marks = [0u8; BYTE_RANGE as usize];
    marks[b'0' as usize] = 1;
    marks[b'1' as usize] = 1;
    marks[b'2' as usize] = 1;
    marks[b'3' as usize] = 1;
    marks[b'4' as usize] = 1;
    marks[b'5' as usize] = 1;
    marks[b'6' as usize] = 1;
    marks[b'7' as usize] = 1;
    marks[b'8' as usize] = 1;
    marks[b'9' as usize] = 1;
    marks[b'A' as usize] = 1;
    marks[b'B' as usize] = 1;
    marks[b'C' as usize] = 1;
    marks[b'D' as usize] = 1;
    marks[b'E' as usize] = 1;
    marks[b'F' as usize] = 1;
    marks
}

// The marks of the two characters at a place in one: 0 unless both are digits.
fn pair_mark(text: &[u8], digits: &[u8; BYTE_RANGE as usize], at: usize) -> u8
    requires { at + 2 ≤ length text.now }
    ensures { (result ≡ 0 → ⊥) → PairsTo digits.now text.now at (at + 2) }
{
    digits[text[at] as usize] & digits[text[at + 1] as usize]
}

// Whether the eight characters at a place are digits. Their marks are tested together: a test for each takes longer.
fn eight_digits(text: &[u8], digits: &[u8; BYTE_RANGE as usize], at: usize) -> bool
    requires { at + 8 ≤ length text.now }
    ensures { result ≡ true → PairsTo digits.now text.now at (at + 8) }
{
    let first = pair_mark(text, digits, at);
    let second = pair_mark(text, digits, at + SECOND_PAIR);
    let third = pair_mark(text, digits, at + THIRD_PAIR);
    let fourth = pair_mark(text, digits, at + FOURTH_PAIR);
    first & second & third & fourth != 0
}

// How far eight digits after eight stand from a place on; pairs of digits may follow.
fn eights_end(text: &[u8], digits: &[u8; BYTE_RANGE as usize], at: usize) -> usize
    requires { at ≤ length text.now }
    ensures { PairsTo digits.now text.now at result }
{
    let mut end = at;
    // What is left is asked for at each turn: `step_by` would take one more test for eight that are cut off.
    while EIGHT <= text.len() - end {
        if !eight_digits(text, digits, end) {
            return end;
        }
        end += EIGHT;
    }
    end
}

// Where the pairs of digits end that stand from a place on.
fn pairs_end(text: &[u8], digits: &[u8; BYTE_RANGE as usize], at: usize) -> usize
    requires { at ≤ length text.now }
    ensures { result ≡ at + digit_pairs (marked digits.now) (drop at text.now) }
{
    let mut end = eights_end(text, digits, at);
    // The same by two.
    while BYTE_DIGITS <= text.len() - end {
        if digits[text[end] as usize] == 0 {
            return end;
        }
        if digits[text[end + 1] as usize] == 0 {
            return end;
        }
        end += BYTE_DIGITS;
    }
    end
}

// Where the line from a place on ends, if it is ended by LF and spells bytes.
pub fn line_end(text: &[u8], at: usize) -> Option<usize>
    ensures { result ≡ line_end text.now at }
{
    if text.len() <= at {
        return None;
    }
    let digits = digit_marks();
    let end = pairs_end(text, &digits, at);
    if text.len() <= end {
        return None;
    }
    if text[end] != LINE_FEED {
        return None;
    }
    if end == at {
        return None;
    }
    Some(end)
}

// 1 for a line whose first byte is 03 or 04, an input or a node; 0 for any other.
pub fn channel(line: &[u8]) -> u32
    ensures { result ≡ channels_of (bytes_of line.now) }
{
    let Ok(f) = Cursor { at: 0 }.byte(line) else {
        return 0;
    };
    let kind = f.value;
    if kind == KIND_INPUT {
        return 1;
    }
    if kind == KIND_NODE {
        return 1;
    }
    0
}
