// Function frames: the parameters are read into the function's entry, conditions and measure passed over.
ghost use Rattle.std.specs.Prelude.{◌≡◌, ◌+◌, ◌*◌, ◌^◌, ◌<◌, length};
ghost use Rattle.language.specs.Limits.{parameters_most, conditions_most, measures_most};
ghost use Rattle.language.specs.Parser.{many, counted, index as index_read};
ghost use Rattle.language.specs.ReadExpr.{plain};
ghost use Rattle.language.specs.Reader.{condition as condition_read};
ghost use Rattle.language.specs.Format.{spell_all};
ghost use Rattle.text.specs.Bytes.{bytes_from, IsPlace, Passes, forget};
ghost use Rattle.index.specs.Tables.{function_words};
ghost use Rattle.index.specs.Sections.{index_words, functions_from, function_table_words, functions_of};
ghost use Rattle.index.specs.SectionLaws.{Outside};
ghost use Rattle.index.specs.Enters.{Enters, plain_words, parameters_entry};

use index::{CHANNELS_FROM, FUNCTION_WORDS, FUNCTIONS_FROM, INDEX_WORDS, put};
use language::codes::{RELATION_FIRST, RELATIONS};
use language::limits::{CONDITIONS_MOST, MEASURES_MOST, NESTING_MOST, PARAMETERS_MOST};
use language::refusals::Refusal;
use text::Cursor;

// Reads the type of a parameter and writes its word.
fn parameter_into(
    line: &[u8],
    functions: &mut [u32],
    c: Cursor,
    types: u32,
    to: usize,
) -> Result<Cursor, Refusal>
    ensures { Enters plain_words line.now c.at to functions.old result functions.new (plain types (bytes_from line.now c.at)) }
{
    let f = c.parameter(line, types)?;
    put(functions, to, f.value);
    Ok(f.next)
}

// Reads so many of them, and writes their words from a place on.
fn parameters_into(
    line: &[u8],
    functions: &mut [u32],
    c: Cursor,
    types: u32,
    to: usize,
    n: u32,
) -> Result<Cursor, Refusal>
    requires to_bound { to < 2 ^ 62 }
    requires place { IsPlace line.now c.at }
    ensures { Enters (spell_all plain_words) line.now c.at to functions.old result functions.new (many (plain types) n (bytes_from line.now c.at)) }
{
    let mut next = c;
    for i in 0..n {
        next = parameter_into(line, functions, next, types, to + (i as usize))?;
    }
    Ok(next)
}

// Reads the parameters of function f, and writes the first words of its entry into the section of functions: how many, and each
// one's type.
fn head_into(
    line: &[u8],
    functions: &mut [u32],
    c: Cursor,
    types: u32,
    f: u32,
) -> Result<Cursor, Refusal>
    ensures { Enters parameters_entry line.now c.at (function_words * f) functions.old result functions.new (counted 0 parameters_most (plain types) (bytes_from line.now c.at)) }
{
    let g = c.count(line, 0, PARAMETERS_MOST as u32)?;
    let n = g.value;
    let next = g.next;
    let to = FUNCTION_WORDS * (f as usize);
    put(functions, to, n);
    parameters_into(line, functions, next, types, to + 1, n)
}

// The same for the whole index.
pub fn parameters(
    line: &[u8],
    index: &mut [u32; INDEX_WORDS],
    c: Cursor,
    types: u32,
    f: u32,
) -> Result<Cursor, Refusal>
    ensures { Enters parameters_entry line.now c.at (function_words * f) (functions_of index.old) result (functions_of index.new) (counted 0 parameters_most (plain types) (bytes_from line.now c.at)) × Outside functions_from function_table_words index.old index.new }
{
    head_into(line, &mut index[FUNCTIONS_FROM..CHANNELS_FROM], c, types, f)
}

// Passes over a condition.
fn condition(line: &[u8], c: Cursor, vars: u32) -> Result<Cursor, Refusal>
    ensures { Passes line.now c.at result (forget (condition_read vars (bytes_from line.now c.at))) }
{
    let f = c.code(line, RELATION_FIRST, RELATIONS)?;
    let d = f.next;
    let e = d.size(line, vars, NESTING_MOST)?;
    e.size(line, vars, NESTING_MOST)
}

// Passes over the conditions of a function, vars its size variables.
pub fn conditions(line: &[u8], c: Cursor, vars: u32) -> Result<Cursor, Refusal>
    ensures { Passes line.now c.at result (forget (counted 0 conditions_most (condition_read vars) (bytes_from line.now c.at))) }
{
    let f = c.count(line, 0, CONDITIONS_MOST)?;
    let n = f.value;
    let mut next = f.next;
    for _ in 0..n {
        next = condition(line, next, vars)?;
    }
    Ok(next)
}

// Passes over the measure of a function.
pub fn measure(line: &[u8], c: Cursor, vars: u32) -> Result<Cursor, Refusal>
    ensures { Passes line.now c.at result (forget (counted 0 measures_most (index_read vars) (bytes_from line.now c.at))) }
{
    let f = c.count(line, 0, MEASURES_MOST)?;
    let n = f.value;
    let mut next = f.next;
    for _ in 0..n {
        let g = next.index(line, vars)?;
        next = g.next;
    }
    Ok(next)
}
