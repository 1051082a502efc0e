// Hexadecimal text: digits, and a cursor over the bytes that a line spells.
#![tactic(auto)]

ghost use Rattle.std.specs.Prelude.{true, ◌≡◌, ◌<◌, ◌^◌, ltb};
ghost use Rattle.language.specs.Limits.{byte_range};
ghost use Rattle.language.specs.Parser.{byte as byte_read, index as index_read, count as count_read};
ghost use Rattle.language.specs.ReadExpr.{int as int_read, size_at, result as result_read, plain, declared as declared_read, field as field_read};
ghost use Rattle.text.specs.Bytes.{digit_value_of, bytes_from, bytes_left, ReadsNumber, Passes, Below, UnspacedInt, forget, map_read, plain_word, declared_word, field_word};
ghost use Rattle.text.specs.Places.{pair_place_of};
ghost use Rattle.text.specs.Codes.{code_place, place_in, named_word};

use language::codes::{
    DIGIT_BASE, FIELD_FIRST, FIELD_FORMS, FIELD_OTHER, SIZE_FIRST, SIZE_FORMS, SIZE_NUMBER,
    SIZE_VARIABLE, SPACE, TYPE_FIRST, TYPE_FORMS, TYPE_NAMED,
};
use language::limits::{BYTE_RANGE, NESTING_MOST, SIZE_MOST};
use language::refusals::Refusal;

// A named type as a word: its number and one, times this, and its size. Types are words, and no enum, where they stand in a row of words
// (the index, a scope): fixed memory.
pub const TYPE_STEP: u32 = 256;

// A byte is spelled by so many digits, and an Int by so many.
pub const BYTE_DIGITS: usize = 2;

const INT_DIGITS: usize = 4 * BYTE_DIGITS;

// Where the pairs behind a first one start, if no space stands between them.
pub const SECOND_PAIR: usize = BYTE_DIGITS;

pub const THIRD_PAIR: usize = 2 * BYTE_DIGITS;

pub const FOURTH_PAIR: usize = 3 * BYTE_DIGITS;

// What the bytes of an Int before its last are worth.
const FIRST_BYTE: u32 = BYTE_RANGE * SECOND_BYTE;

const SECOND_BYTE: u32 = BYTE_RANGE * THIRD_BYTE;

const THIRD_BYTE: u32 = BYTE_RANGE;

// A letter is so far behind this character as it is in the alphabet, and spells nine more: `A` ten.
const LETTERS_FROM: u32 = 64;

const LETTER_ADDS: u32 = 9;

// The forms of a size, counted from the first code.
const NUMBER_PLACE: u32 = SIZE_NUMBER - SIZE_FIRST;

const VARIABLE_PLACE: u32 = SIZE_VARIABLE - SIZE_FIRST;

// The value of a hexadecimal digit, upper-case or lower-case; of any other character some number below 16.
pub fn digit(c: u8) -> u32
    ensures { (result ≡ digit_value_of c) × (result < 16) }
{
    let code = c as u32;
    (code % DIGIT_BASE + LETTER_ADDS * (code / LETTERS_FROM)) % DIGIT_BASE
}

// The first place from this one on where no space stands.
pub fn behind_spaces(line: &[u8], from: usize) -> usize
    ensures { result ≡ pair_place_of line.now from }
{
    for at in from..line.len() {
        if line[at] != SPACE {
            return at;
        }
    }
    from.max(line.len())
}

// Where the next pair starts. Strict lines have no space, so its walk is kept out of the way.
fn pair_start(line: &[u8], from: usize) -> usize
    ensures { result ≡ pair_place_of line.now from }
{
    if line.len() <= from {
        return from;
    }
    if line[from] != SPACE {
        return from;
    }
    behind_spaces(line, from)
}

// Whether the digits of an Int stand at a place, none of its pairs behind a space.
fn unspaced_int(line: &[u8], at: usize) -> bool
    ensures { result ≡ true → UnspacedInt line.now at }
{
    if line.len() < INT_DIGITS {
        return false;
    }
    if line.len() - INT_DIGITS < at {
        return false;
    }
    if line[at] == SPACE {
        return false;
    }
    if line[at + SECOND_PAIR] == SPACE {
        return false;
    }
    if line[at + THIRD_PAIR] == SPACE {
        return false;
    }
    if line[at + FOURTH_PAIR] == SPACE {
        return false;
    }
    true
}

// A place in a frame. That it is the number of characters before it, only this crate says: others hand it on. Each read hands it back moved
// on.
#[derive(Clone, Copy)]
pub struct Cursor {
    pub at: usize,
}

// A number read, and the cursor behind it.
#[derive(Clone, Copy)]
pub struct Found {
    pub value: u32,
    pub next: Cursor,
}

impl Cursor {
    // Whether bytes are left.
    pub fn more(self, line: &[u8]) -> bool
        ensures { result ≡ ltb 0 (bytes_left line.now self.at) }
    {
        let at = pair_start(line, self.at);
        if line.len() <= at {
            return false;
        }
        at + 1 < line.len()
    }

    // The next byte, behind the spaces before it; 4 where the line ends.
    pub fn byte(self, line: &[u8]) -> Result<Found, Refusal>
        ensures { ReadsNumber line.now self.at result (byte_read (bytes_from line.now self.at)) × Below byte_range result }
    {
        let from = self.at;
        if line.len() <= from {
            return Err(Refusal::BadLength);
        }
        let at = pair_start(line, from);
        let behind = at + BYTE_DIGITS;
        if line.len() < behind {
            return Err(Refusal::BadLength);
        }
        let high = digit(line[at]);
        let low = digit(line[at + 1]);
        let value = high * DIGIT_BASE + low;
        Ok(Found {
            value: value,
            next: Cursor { at: behind },
        })
    }

    // An index below a bound; 6 where it is none.
    pub fn index(self, line: &[u8], bound: u32) -> Result<Found, Refusal>
        ensures { ReadsNumber line.now self.at result (index_read bound (bytes_from line.now self.at)) × Below byte_range result }
    {
        let f = self.byte(line)?;
        let i = f.value;
        if bound <= i {
            return Err(Refusal::BadIndex);
        }
        Ok(f)
    }

    // A count from least to most; 7 where it is outside.
    pub fn count(self, line: &[u8], least: u32, most: u32) -> Result<Found, Refusal>
        ensures { ReadsNumber line.now self.at result (count_read least most (bytes_from line.now self.at)) × Below byte_range result }
    {
        let f = self.byte(line)?;
        let n = f.value;
        if n < least {
            return Err(Refusal::OutsideLimits);
        }
        if most < n {
            return Err(Refusal::OutsideLimits);
        }
        Ok(f)
    }

    // A code of a set: its place, counted from the first code; 5 where it is none of them.
    pub fn code(self, line: &[u8], first: u32, size: u32) -> Result<Found, Refusal>
        ensures { ReadsNumber line.now self.at result (code_place first size (bytes_from line.now self.at)) × Below byte_range result }
    {
        let f = self.byte(line)?;
        let b = f.value;
        let c = f.next;
        if b < first {
            return Err(Refusal::BadCode);
        }
        let i = b - first;
        if size <= i {
            return Err(Refusal::BadCode);
        }
        Ok(Found { value: i, next: c })
    }

    // The same where it matters whether there is room: 5 comes before 7.
    pub fn code_in(self, line: &[u8], room: bool, first: u32, size: u32) -> Result<Found, Refusal>
        ensures { ReadsNumber line.now self.at result (place_in room first size (bytes_from line.now self.at)) × Below byte_range result }
    {
        let f = self.code(line, first, size)?;
        if !room {
            return Err(Refusal::OutsideLimits);
        }
        Ok(f)
    }

    // An Int: four bytes, the high byte first.
    pub fn int(self, line: &[u8]) -> Result<Found, Refusal>
        ensures { ReadsNumber line.now self.at result (int_read (bytes_from line.now self.at)) }
    {
        let f = self.byte(line)?;
        let c = f.next;
        let g = c.byte(line)?;
        let d = g.next;
        let h = d.byte(line)?;
        let e = h.next;
        let k = e.byte(line)?;
        let value = f.value * FIRST_BYTE + g.value * SECOND_BYTE + h.value * THIRD_BYTE + k.value;
        let next = k.next;
        Ok(Found {
            value: value,
            next: next,
        })
    }

    // Passes over an Int, whatever its bytes are; 4 where the line ends before the last of them.
    pub fn past_int(self, line: &[u8]) -> Result<Cursor, Refusal>
        ensures { Passes line.now self.at result (forget (int_read (bytes_from line.now self.at))) }
    {
        let at = self.at;
        if unspaced_int(line, at) {
            return Ok(Cursor {
                at: at + INT_DIGITS,
            });
        }
        let f = self.int(line)?;
        Ok(f.next)
    }

    // Passes over a size with so many levels left; vars is the number of size variables in scope.
    pub fn size(self, line: &[u8], vars: u32, levels: u32) -> Result<Cursor, Refusal>
        ensures { Passes line.now self.at result (forget (size_at levels vars (bytes_from line.now self.at))) }
    {
        if levels == 0 {
            let none = self.code_in(line, false, SIZE_FIRST, SIZE_FORMS)?;
            return Ok(none.next);
        }
        let f = self.code_in(line, true, SIZE_FIRST, SIZE_FORMS)?;
        let form = f.value;
        let c = f.next;
        if form == NUMBER_PLACE {
            let k = c.byte(line)?;
            return Ok(k.next);
        }
        if form == VARIABLE_PLACE {
            let i = c.index(line, vars)?;
            return Ok(i.next);
        }
        let d = c.size(line, vars, levels - 1)?;
        d.size(line, vars, levels - 1)
    }

    // Passes over a result type.
    pub fn result(self, line: &[u8], types: u32, vars: u32) -> Result<Cursor, Refusal>
        ensures { Passes line.now self.at result (forget (result_read types vars (bytes_from line.now self.at))) }
    {
        let f = self.code(line, TYPE_FIRST, TYPE_FORMS)?;
        let form = f.value;
        let c = f.next;
        if form < TYPE_NAMED {
            return Ok(c);
        }
        let g = c.index(line, types)?;
        let d = g.next;
        d.size(line, vars, NESTING_MOST)
    }

    // The type of a parameter, as a word.
    pub fn parameter(self, line: &[u8], types: u32) -> Result<Found, Refusal>
        ensures { ReadsNumber line.now self.at result (map_read plain_word (plain types (bytes_from line.now self.at))) × Below (2 ^ 17) result }
    {
        let f = self.code(line, TYPE_FIRST, TYPE_FORMS)?;
        let form = f.value;
        if form < TYPE_NAMED {
            return Ok(f);
        }
        let c = f.next;
        let g = c.index(line, types)?;
        let t = g.value;
        let d = g.next;
        Ok(Found {
            value: TYPE_STEP * (t + 1),
            next: d,
        })
    }

    // A named type with its size, as a word: its number, and a size from 1 on.
    pub fn named(self, line: &[u8], types: u32) -> Result<Found, Refusal>
        ensures { ReadsNumber line.now self.at result (named_word types (bytes_from line.now self.at)) × Below (2 ^ 17) result }
    {
        let f = self.index(line, types)?;
        let t = f.value;
        let c = f.next;
        let g = c.count(line, 1, SIZE_MOST)?;
        let k = g.value;
        let d = g.next;
        Ok(Found {
            value: TYPE_STEP * (t + 1) + k,
            next: d,
        })
    }

    // A declared type, as a word.
    pub fn declared(self, line: &[u8], types: u32) -> Result<Found, Refusal>
        ensures { ReadsNumber line.now self.at result (map_read declared_word (declared_read types (bytes_from line.now self.at))) × Below (2 ^ 17) result }
    {
        let f = self.code(line, TYPE_FIRST, TYPE_FORMS)?;
        let form = f.value;
        if form < TYPE_NAMED {
            return Ok(f);
        }
        let c = f.next;
        c.named(line, types)
    }

    // A field of a constructor, as a word.
    pub fn field(self, line: &[u8], types: u32) -> Result<Found, Refusal>
        ensures { ReadsNumber line.now self.at result (map_read field_word (field_read types (bytes_from line.now self.at))) × Below (2 ^ 17) result }
    {
        let f = self.code(line, FIELD_FIRST, FIELD_FORMS)?;
        let form = f.value;
        if form < FIELD_OTHER {
            return Ok(f);
        }
        let c = f.next;
        c.named(line, types)
    }
}
