// The lines of a rule file, as an ordinary editor leaves them: document 02, R-1.
ghost use Rattle.std.specs.Prelude.{◌≡◌, ◌+◌, ◌≤◌, ◌<◌, length, get_or, drop};
ghost use Rattle.language.specs.Codes.{semicolon};
ghost use Rattle.text_lines.specs.RuleLines.{any_digit_marks, line_close, frame_close, frame_line, rule_line};

use super::{digit_marks, line_at, pairs_end};
use language::codes::{CARRIAGE_RETURN, LINE_FEED, SEMICOLON, SPACE};
use language::limits::BYTE_RANGE;
use text::behind_spaces;

// A frame's line: where its characters end, and where the next line starts.
#[derive(Clone, Copy)]
pub struct FrameEnd {
    pub end: usize,
    pub next: usize,
}

// A line of a rule file: one that is no frame, with where the next line starts; or a frame's.
#[derive(Clone, Copy)]
pub enum RuleLine {
    Extra(usize),
    Frame(FrameEnd),
}

// For each character 1 where it is a hexadecimal digit of either case, else 0.
pub fn rule_marks() -> [u8; BYTE_RANGE as usize]
    ensures { result ≡ any_digit_marks }
{
    let mut marks = digit_marks();
    marks[b'a' as usize] = 1;
    marks[b'b' as usize] = 1;
    marks[b'c' as usize] = 1;
    marks[b'd' as usize] = 1;
    marks[b'e' as usize] = 1;
    marks[b'f' as usize] = 1;
    marks
}

// Where the next line starts, if LF or CR LF stands at a place.
fn line_close(text: &[u8], at: usize) -> Option<usize>
    ensures { result ≡ line_close text.now at }
{
    if text.len() <= at {
        return None;
    }
    let behind = at + 1;
    if text[at] == LINE_FEED {
        return Some(behind);
    }
    if text[at] != CARRIAGE_RETURN {
        return None;
    }
    if text.len() <= behind {
        return None;
    }
    if text[behind] != LINE_FEED {
        return None;
    }
    let next = behind + 1;
    Some(next)
}

// A frame's line whose characters end at a place, if the line ends there.
fn frame_close(text: &[u8], end: usize) -> Option<RuleLine>
    ensures { result ≡ frame_close text.now end }
{
    let next = line_close(text, end)?;
    Some(RuleLine::Frame(FrameEnd { end, next }))
}

// The line at a place as a frame's: pairs of digits, with spaces between them.
fn frame_line(text: &[u8], digits: &[u8; BYTE_RANGE as usize], at: usize) -> Option<RuleLine>
    requires { (at ≤ length text.now) × (digits.now ≡ any_digit_marks) }
    ensures { result ≡ frame_line text.now at }
{
    let mut end = pairs_end(text, digits, at);
    if end == at {
        return None;
    }
    // A group of pairs says where the next one starts: no range says the places.
    while end < text.len() {
        if text[end] != SPACE {
            return frame_close(text, end);
        }
        let next = behind_spaces(text, end);
        end = pairs_end(text, digits, next);
        if end == next {
            return None;
        }
    }
    None
}

// A line that starts with a semicolon: whatever it holds, it is no frame.
fn comment_line(text: &[u8], at: usize) -> Option<RuleLine>
    requires { (at < length text.now) × (get_or text.now at 0 ≡ semicolon) }
    ensures { result ≡ rule_line text.now at }
{
    let line = line_at(text, at);
    let end = at + line.len();
    if text.len() <= end {
        return None;
    }
    let next = end + 1;
    Some(RuleLine::Extra(next))
}

// The line at a place, by the marks of `rule_marks`.
pub fn rule_line(text: &[u8], digits: &[u8; BYTE_RANGE as usize], at: usize) -> Option<RuleLine>
    requires { digits.now ≡ any_digit_marks }
    ensures { result ≡ rule_line text.now at }
{
    if text.len() <= at {
        return None;
    }
    if text[at] == SEMICOLON {
        return comment_line(text, at);
    }
    let Some(next) = line_close(text, at) else {
        return frame_line(text, digits, at);
    };
    Some(RuleLine::Extra(next))
}
