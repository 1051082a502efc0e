// Skipping an expression that is known to be spelled in a line: where the next thing starts. The scope is not asked for; the index says
// how many parts a form has.
ghost use Rattle.std.specs.Prelude.{◌≡◌, ◌<◌};
ghost use Rattle.language.specs.Limits.{byte_range, types_most, size_variables_most, nesting_most};
ghost use Rattle.language.specs.Format.{size_bytes, result_bytes};
ghost use Rattle.language.specs.Within.{WithinSize, WithinResult};
ghost use Rattle.index.specs.Sections.{types_of, functions_of};
ghost use Rattle.heads.specs.Skips.{Skips, SkipsAll, Over, parts_of};

use super::{Form, head_at};
use index::INDEX_WORDS;
use index::functions::arity;
use index::types::{constructors, fields};
use language::limits::{NESTING_MOST, SIZE_VARIABLES_MOST, TYPES_MOST};
use text::Cursor;

// How many expressions end an expression of a form.
pub fn parts(index: &[u32; INDEX_WORDS], form: Form) -> u32
    ensures { (result ≡ parts_of (types_of index.now) (functions_of index.now) form) × (result < byte_range) }
{
    match form {
        Form::Let => 2,
        Form::If => 3,
        Form::Operator(_) => 2,
        Form::Call(f) => arity(index, f),
        Form::Construct(t, k) => fields(index, t, k),
        Form::Case(t) => constructors(index, t),
        Form::Adjust => 1,
        Form::Fit(_) => 3,
        _ => 0,
    }
}

// The cursor behind a written size.
pub fn behind_size(line: &[u8], c: Cursor) -> Cursor
    ensures { Over size_bytes (WithinSize size_variables_most nesting_most) line.now c.at result }
{
    c.size(line, SIZE_VARIABLES_MOST, NESTING_MOST).unwrap_or(c)
}

// The cursor behind the return type of a case.
pub fn behind_result(line: &[u8], c: Cursor) -> Cursor
    ensures { Over result_bytes (WithinResult types_most size_variables_most) line.now c.at result }
{
    c.result(line, TYPES_MOST as u32, SIZE_VARIABLES_MOST)
        .unwrap_or(c)
}

// An expression with so many levels left.
#[cycle(skipping)]
pub fn skip(line: &[u8], index: &[u32; INDEX_WORDS], c: Cursor, levels: u32) -> Cursor
    ensures { Skips line.now (types_of index.now) (functions_of index.now) c levels result }
{
    if levels == 0 {
        return c;
    }
    let head = head_at(line, c);
    let form = head.form;
    let next = head.next;
    let n = parts(index, form);
    let first = match form {
        Form::Case(_) => {
            let result = skip(line, index, next, levels - 1);
            behind_result(line, result)
        }
        Form::Adjust => behind_size(line, next),
        _ => next,
    };
    skip_several(line, index, first, levels - 1, n)
}

// So many expressions, one after the other.
#[cycle(skipping)]
fn skip_several(line: &[u8], index: &[u32; INDEX_WORDS], c: Cursor, levels: u32, n: u32) -> Cursor
    ensures { SkipsAll line.now (types_of index.now) (functions_of index.now) c levels n result }
{
    if n == 0 {
        return c;
    }
    let next = skip(line, index, c, levels);
    skip_several(line, index, next, levels, n - 1)
}
