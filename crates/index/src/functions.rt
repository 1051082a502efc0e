// Function frames: the parameters are read into the function's entry, conditions and measure passed over.
ghost use Rattle.std.specs.Prelude.{◌≡◌, ◌+◌, ◌*◌, ◌%◌, ◌<◌, get_or};
ghost use Rattle.language.specs.Limits.{byte_range};
ghost use Rattle.index.specs.Tables.{function_words};
ghost use Rattle.index.specs.FunctionTable.{head_words};
ghost use Rattle.index.specs.Sections.{functions_of};
ghost use Rattle.index.specs.Indexed.{result_at, conditions_at, measure_at, body_at};
ghost use Rattle.index.specs.Enters.{Named};

use super::{
    BODY_PART, CONDITIONS_PART, FUNCTION_TABLE, FUNCTION_WORDS, FUNCTIONS_FROM, HEAD_WORDS,
    INDEX_WORDS, MEASURE_PART, RESULT_PART, one_if, section_word,
};
use language::limits::BYTE_RANGE;
use text::{Cursor, TYPE_STEP};

// A word of the section of functions.
fn function_word(index: &[u32; INDEX_WORDS], i: usize) -> u32
    ensures { result ≡ get_or (functions_of index.now) i 0 }
{
    section_word(index, FUNCTIONS_FROM, FUNCTION_TABLE, i)
}

// How many parameters a function has, and the word of one's type.
pub fn arity(index: &[u32; INDEX_WORDS], f: u32) -> u32
    ensures { (result ≡ get_or (functions_of index.now) (function_words * f) 0 % byte_range) × (result < byte_range) }
{
    function_word(index, FUNCTION_WORDS * (f as usize)) % BYTE_RANGE
}

pub fn parameter_word(index: &[u32; INDEX_WORDS], f: u32, i: u32) -> u32
    ensures { result ≡ get_or (functions_of index.now) (function_words * f + 1 + i) 0 }
{
    function_word(index, FUNCTION_WORDS * (f as usize) + 1 + (i as usize))
}

// Where a part of a function starts in its line.
fn part_start(index: &[u32; INDEX_WORDS], f: u32, part: usize) -> Cursor
    requires { part < 4 }
    ensures { result.at ≡ get_or (functions_of index.now) (function_words * f + head_words + part) 0 }
{
    let word = function_word(index, FUNCTION_WORDS * (f as usize) + HEAD_WORDS + part);
    Cursor { at: word as usize }
}

pub fn result_start(index: &[u32; INDEX_WORDS], f: u32) -> Cursor
    ensures { result.at ≡ result_at (functions_of index.now) f }
{
    part_start(index, f, RESULT_PART)
}

pub fn conditions_start(index: &[u32; INDEX_WORDS], f: u32) -> Cursor
    ensures { result.at ≡ conditions_at (functions_of index.now) f }
{
    part_start(index, f, CONDITIONS_PART)
}

pub fn measure_start(index: &[u32; INDEX_WORDS], f: u32) -> Cursor
    ensures { result.at ≡ measure_at (functions_of index.now) f }
{
    part_start(index, f, MEASURE_PART)
}

pub fn body_start(index: &[u32; INDEX_WORDS], f: u32) -> Cursor
    ensures { result.at ≡ body_at (functions_of index.now) f }
{
    part_start(index, f, BODY_PART)
}

// How many parameters of a function are of named types.
pub fn named(index: &[u32; INDEX_WORDS], f: u32) -> u32
    ensures { Named (functions_of index.now) f result }
{
    let n = arity(index, f);
    let mut sum: u32 = 0;
    for i in 0..n {
        let word = parameter_word(index, f, i);
        sum += one_if(TYPE_STEP <= word);
    }
    sum
}
