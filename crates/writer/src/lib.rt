// The writer: the strict text of a rule file. Document 02, R-1.
#![tactic(auto)]

ghost use Rattle.std.specs.Prelude.{◌≡◌, ◌+◌, ◌<◌, ◌≤◌, length};
ghost use Rattle.std.proofs.lemmas.List.Edits.{sets};
ghost use Rattle.language.specs.Codes.{digit_base};
ghost use Rattle.language.specs.Limits.{byte_range, text_most};
ghost use Rattle.language.specs.Format.{digit_of, pair_of};
ghost use Rattle.text.specs.Bytes.{bytes_left};
ghost use Rattle.reader.specs.Indexes.{ReadIndexed};
ghost use Rattle.answers.specs.Boards.{answer_of};
ghost use Rattle.writer.specs.Writes.{Writes, frames_indexed, strict_line, strict_lines, Cleared, PutsLine};

use answers::Answer;
use index::frames::frame_line;
use index::{INDEX_WORDS, frame_counts};
use language::codes::{DIGIT_BASE, LINE_FEED};
use language::refusals::{NO_FRAME, Refusal, RefusalAt};
use reader::read;
use text::{BYTE_DIGITS, Cursor};

// So many digits are decimal. Each adds its value to this: `0` to `9` are 30 to 39, `A` to `F` are 41 to 46.
const DECIMAL_DIGITS: u32 = 10;

const DECIMAL_OFFSET: u32 = 0x30;

const LETTER_OFFSET: u32 = 0x37;

// The character of a digit, upper case.
fn digit_character(d: u32) -> u8
    requires { d < digit_base }
    ensures { result ≡ digit_of d }
{
    if d < DECIMAL_DIGITS {
        return (DECIMAL_OFFSET + d) as u8;
    }
    (LETTER_OFFSET + d) as u8
}

// Stores the pair of a byte at a place and behind it.
fn put_pair(buffer: &mut [u8], at: usize, byte: u32)
    requires at_in_bounds { at + 1 < length buffer.old }
    requires byte_lt_byte_range { byte < byte_range }
    ensures { buffer.new ≡ sets buffer.old at (pair_of byte) }
{
    buffer[at] = digit_character(byte / DIGIT_BASE);
    buffer[at + 1] = digit_character(byte % DIGIT_BASE);
}

// How many bytes a line spells.
fn byte_count(line: &[u8]) -> usize
    ensures { result ≡ bytes_left line.now 0 }
{
    let mut n: usize = 0;
    let mut c = Cursor { at: 0 };
    while let Ok(f) = c.byte(line) {
        c = f.next;
        n += 1;
    }
    n
}

// Stores the strict text of a line from a place on, its pairs and LF; answers the place behind it.
fn put_line(line: &[u8], buffer: &mut [u8], from: usize) -> usize
    requires { from + length (strict_line line.now) ≤ length buffer.old }
    ensures { PutsLine line.now from buffer.old result buffer.new }
{
    let mut at = from;
    let mut c = Cursor { at: 0 };
    while let Ok(f) = c.byte(line) {
        put_pair(buffer, at, f.value);
        at += BYTE_DIGITS;
        c = f.next;
    }
    buffer[at] = LINE_FEED;
    at + 1
}

// How many frames the file has.
fn frame_count(index: &[u32; INDEX_WORDS]) -> u32
    ensures { result ≡ frames_indexed index.now }
{
    let n = frame_counts(index);
    n.types + n.functions + n.inputs + n.nodes
}

// How many characters the strict text of so many frames has.
fn strict_length(text: &[u8], index: &[u32; INDEX_WORDS], frames: u32) -> usize
    requires { length (strict_lines text.now index.now frames) ≤ text_most }
    ensures { result ≡ length (strict_lines text.now index.now frames) }
{
    let mut total: usize = 0;
    for i in 0..frames {
        let line = frame_line(text, index, i);
        let bytes = byte_count(line);
        total += BYTE_DIGITS * bytes + 1;
    }
    total
}

// Stores the strict text of so many frames from the buffer's start on.
fn put_lines(text: &[u8], index: &[u32; INDEX_WORDS], frames: u32, buffer: &mut [u8])
    requires { length (strict_lines text.now index.now frames) ≤ length buffer.old }
    ensures { buffer.new ≡ sets buffer.old 0 (strict_lines text.now index.now frames) }
{
    let mut at: usize = 0;
    for i in 0..frames {
        let line = frame_line(text, index, i);
        at = put_line(line, buffer, at);
    }
}

// Writes a file that was read into a buffer of zeros; refused where its strict text is longer.
fn write_read(text: &[u8], index: &[u32; INDEX_WORDS], buffer: &mut [u8]) -> Result<(), RefusalAt>
    requires read_indexed { ReadIndexed text.now index.now }
    requires cleared { Cleared buffer.old }
    ensures { Writes text.now buffer.old (answer_of result) buffer.new }
{
    let frames = frame_count(index);
    let size = strict_length(text, index, frames);
    if buffer.len() < size {
        return Err(RefusalAt {
            refusal: Refusal::BufferShort,
            frame: NO_FRAME,
        });
    }
    put_lines(text, index, frames, buffer);
    Ok(())
}

// Writes the strict text of a file. The buffer is zero behind it, and all of it after a refusal: 1 to 8, then 24.
pub fn write(text: &[u8], buffer: &mut [u8]) -> Answer
    ensures { Writes text.now buffer.old result buffer.new }
{
    buffer.fill(0);
    let mut index = [0u32; INDEX_WORDS];
    let x = read(text, &mut index);
    let Ok(()) = x else {
        return Answer::from(x);
    };
    Answer::from(write_read(text, &index, buffer))
}
