// The input line: whether it is one that the file allows (document 01, "Estimation and memory"). It is judged whole before any cell is
// made.
#![tactic(auto)]

ghost use Rattle.std.specs.Prelude.{◌≡◌, ◌≤◌};
ghost use Rattle.language.specs.Line.{value_at, value_behind};
ghost use Rattle.language.specs.ReadExpr.{bool_form, int_form, con_form};
ghost use Rattle.input_line.specs.Judges.{own_part, wanted_word, LeafJudged, ConstructorAt, Judges, InputsJudged, LineJudged};

use index::channels::declared_word;
use index::types::{OWN_FIELD, constructors, field_word, fields};
use index::{INDEX_WORDS, frame_counts};
use language::codes::{
    BOOL_FIRST, BOOLS, EXPR_BOOL, EXPR_CONSTRUCT, EXPR_FIRST, EXPR_FORMS, EXPR_INT, FIELD_BOOL,
    FIELD_INT, KIND_INPUT_LINE,
};
use state_words::tags::{CONSTRUCTOR_TAGS, tag_type, word_size};
use text::{Cursor, Found};
use text_lines::line_end;

// The forms of a value, counted from the first code of an expression.
pub const BOOL: u32 = EXPR_BOOL - EXPR_FIRST;

pub const INT: u32 = EXPR_INT - EXPR_FIRST;

pub const CONSTRUCT: u32 = EXPR_CONSTRUCT - EXPR_FIRST;

// The size of a Bool or an Int.
pub const NO_SIZE: u32 = 0;

// What stands behind the code of a Bool, where a Bool is wanted: its size.
fn bool_behind(line: &[u8], c: Cursor, word: u32) -> Option<Found>
    ensures { LeafJudged line.now c.at word bool_form result }
{
    if word != FIELD_BOOL {
        return None;
    }
    let f = c.code(line, BOOL_FIRST, BOOLS).ok()?;
    Some(Found {
        value: NO_SIZE,
        next: f.next,
    })
}

// The same of an Int.
fn int_behind(line: &[u8], c: Cursor, word: u32) -> Option<Found>
    ensures { LeafJudged line.now c.at word int_form result }
{
    if word != FIELD_INT {
        return None;
    }
    let next = c.past_int(line).ok()?;
    Some(Found {
        value: NO_SIZE,
        next,
    })
}

// The constructor behind its code, where one of its type and of some size is wanted.
fn constructor_at(line: &[u8], index: &[u32; INDEX_WORDS], c: Cursor, word: u32) -> Option<Found>
    ensures { ConstructorAt line.now index.now c.at word result }
{
    if word < CONSTRUCTOR_TAGS {
        return None;
    }
    if word_size(word) == 0 {
        return None;
    }
    let f = c.byte(line).ok()?;
    let t = tag_type(word);
    if f.value != t {
        return None;
    }
    f.next.index(line, constructors(index, t)).ok()
}

// The word of the type that a field has: its own type's is the constructor's, less the size found so far.
fn wanted(kind: u32, word: u32, size: u32) -> u32
    requires { size ≤ word }
    ensures { result ≡ wanted_word kind word size }
{
    if kind == OWN_FIELD { word - size } else { kind }
}

// What a field of some size adds to its constructor's.
pub fn own_part(kind: u32, size: u32) -> u32
    ensures { result ≡ own_part kind size }
{
    if kind == OWN_FIELD { size } else { 0 }
}

// A value of the type that a word stands for: its size and the place behind it.
#[cycle(value)]
fn value(line: &[u8], index: &[u32; INDEX_WORDS], c: Cursor, word: u32) -> Option<Found>
    ensures { Judges line.now index.now c.at word result (λ n P. value_at n P) }
{
    let f = c.code(line, EXPR_FIRST, EXPR_FORMS).ok()?;
    match f.value {
        BOOL => bool_behind(line, f.next, word),
        INT => int_behind(line, f.next, word),
        CONSTRUCT => construct(line, index, f.next, word),
        _ => None,
    }
}

// What stands behind the code of a constructor: each field is of its type, those of the type itself within what is left of its size.
#[cycle(value)]
fn construct(line: &[u8], index: &[u32; INDEX_WORDS], c: Cursor, word: u32) -> Option<Found>
    ensures { Judges line.now index.now c.at word result (λ n P. value_behind P (value_at n P) con_form) }
{
    let f = constructor_at(line, index, c, word)?;
    let t = tag_type(word);
    let constructor = f.value;
    let n = fields(index, t, constructor);
    let mut next = f.next;
    let mut size: u32 = 1;
    for j in 0..n {
        let kind = field_word(index, t, constructor, j);
        let g = value(line, index, next, wanted(kind, word, size))?;
        next = g.next;
        size += own_part(kind, g.value);
    }
    Some(Found { value: size, next })
}

// Whether the bytes of a line are its kind and a value for each input, of its declared type, and no more.
fn inputs_fit(line: &[u8], index: &[u32; INDEX_WORDS]) -> bool
    ensures { InputsJudged line.now index.now result }
{
    let Ok(f) = Cursor { at: 0 }.byte(line) else {
        return false;
    };
    if f.value != KIND_INPUT_LINE {
        return false;
    }
    let counts = frame_counts(index);
    let n = counts.inputs;
    let mut next = f.next;
    for i in 0..n {
        let Some(g) = value(line, index, next, declared_word(index, i)) else {
            return false;
        };
        next = g.next;
    }
    !next.more(line)
}

// Whether a text is an input line that the file allows: one line with its LF, and nothing behind it.
pub fn allowed_line(line: &[u8], index: &[u32; INDEX_WORDS]) -> bool
    ensures { LineJudged line.now index.now result }
{
    let Some(end) = line_end(line, 0) else {
        return false;
    };
    if line.len() - end != 1 {
        return false;
    }
    inputs_fit(&line[..end], index)
}
