// Passing over an expression: refusals 4 to 7, bytes left to right. Each function hands back the cursor behind what it passed, or
// the refusal.
#![tactic(auto)]

ghost use Rattle.std.specs.Prelude.{◌≡◌, [], ◌≤◌, ◌<◌, get_or, drop};
ghost use Rattle.language.specs.Limits.{byte_range, nesting_most};
ghost use Rattle.language.specs.ReadExpr.{expr_at, expr_behind, branches as branches_read, let_form, call_form, con_form, case_form, fit_form};
ghost use Rattle.expression_reader.specs.Follows.{Follows, Opens, Heads, Roomy, wider_names, levels_in, opened_at, form_at};
ghost use Rattle.expression_reader.specs.Parts.{parts};

use index::functions::arity;
use index::types::{constructors, fields, own_fields};
use index::{INDEX_WORDS, put, word_at};
use language::codes::{
    BOOL_FIRST, BOOLS, EXPR_ADJUST, EXPR_BOOL, EXPR_CALL, EXPR_CASE, EXPR_CONSTRUCT, EXPR_FIRST,
    EXPR_FORMS, EXPR_IF, EXPR_INT, EXPR_LAST, EXPR_LET, EXPR_NOW, EXPR_OPERATOR, EXPR_VARIABLE,
    OPERATOR_FIRST, OPERATORS,
};
use language::limits::{NESTING_MOST, SIZE_MOST, SIZE_VARIABLES_MOST, VARIABLES_MOST};
use language::refusals::Refusal;
use text::{Cursor, Found};

// What may be named where an expression stands: how many variables, size variables, channels (by `13` as by `14`), types
// and functions.
#[derive(Clone, Copy)]
pub struct Names {
    pub variables: u32,
    pub sizes: u32,
    pub channels: u32,
    pub types: u32,
    pub functions: u32,
}

// How many levels are left in a scope: none where it is too wide.
fn levels_in(s: Names, levels: u32) -> u32
    ensures { result ≡ levels_in s levels }
{
    if s.variables <= VARIABLES_MOST && s.sizes <= SIZE_VARIABLES_MOST {
        levels
    } else {
        0
    }
}

// The scope with more variables and size variables.
fn wider(s: Names, variables: u32, sizes: u32) -> Names
    requires roomy { Roomy s }
    requires variables_lt_byte_range { (variables < byte_range) × (sizes < byte_range) }
    ensures { result ≡ wider_names variables sizes s }
{
    Names {
        variables: s.variables + variables,
        sizes: s.sizes + sizes,
        ..s
    }
}

// What was passed, and how many parts follow in the same scope.
fn opened(next: Cursor, parts: u32) -> Found
    ensures { result ≡ opened_at next parts }
{
    Found { value: parts, next }
}

// `18`: a call; its arguments follow.
fn call(line: &[u8], index: &[u32; INDEX_WORDS], c: Cursor, s: Names) -> Result<Found, Refusal>
    ensures { Opens line.now index.now c s result (λ S. parts (expr_at 0) S call_form) }
{
    let f = c.index(line, s.functions)?;
    let parts = arity(index, f.value);
    Ok(opened(f.next, parts))
}

// `19`: a constructor; its fields follow.
fn construct(line: &[u8], index: &[u32; INDEX_WORDS], c: Cursor, s: Names) -> Result<Found, Refusal>
    ensures { Opens line.now index.now c s result (λ S. parts (expr_at 0) S con_form) }
{
    let f = c.index(line, s.types)?;
    let t = f.value;
    let count = constructors(index, t);
    let g = f.next.index(line, count)?;
    let parts = fields(index, t, g.value);
    Ok(opened(g.next, parts))
}

// An expression; none is nested deeper than the limit.
pub fn expr(line: &[u8], index: &[u32; INDEX_WORDS], c: Cursor, s: Names) -> Result<Cursor, Refusal>
    ensures { Follows line.now index.now c s result (expr_at nesting_most) }
{
    nested(line, index, c, s, NESTING_MOST)
}

// An expression with so many levels left. The parts of a form that are in its own scope are passed in the same loop; for each level
// inside, `waiting` has how many are still to be passed there.
#[cycle(passing)]
fn nested(
    line: &[u8],
    index: &[u32; INDEX_WORDS],
    c: Cursor,
    s: Names,
    levels: u32,
) -> Result<Cursor, Refusal>
    requires { levels ≤ nesting_most }
    ensures { Follows line.now index.now c s result (expr_at levels) }
{
    let most = levels_in(s, levels);
    let mut waiting = [0u32; NESTING_MOST as usize];
    let mut next = c;
    let mut depth: u32 = 0;
    let mut left: u32 = 1;
    // Levels are entered and left as the text has them: no range counts the turns.
    loop {
        if left == 0 {
            if depth == 0 {
                return Ok(next);
            }
            depth -= 1;
            left = word_at(&waiting, depth as usize);
        } else {
            let f = head(line, index, next, s, most - depth)?;
            next = f.next;
            left -= 1;
            if f.value != 0 {
                put(&mut waiting, depth as usize, left);
                depth += 1;
                left = f.value;
            }
        }
    }
}

// The code of an expression and what stands behind it, up to parts in the same scope: how many of those follow.
#[cycle(passing)]
fn head(
    line: &[u8],
    index: &[u32; INDEX_WORDS],
    c: Cursor,
    s: Names,
    levels: u32,
) -> Result<Found, Refusal>
    requires levels_le_nesting_most { levels ≤ nesting_most }
    requires roomy { 0 < levels → Roomy s }
    ensures { Heads line.now index.now c s result levels }
{
    let f = c.code_in(line, 0 < levels, EXPR_FIRST, EXPR_FORMS)?;
    behind(line, index, f.next, s, levels - 1, f.value)
}

// The forms of an expression, counted from the first code; the last is a fit.
const BOOL: u32 = EXPR_BOOL - EXPR_FIRST;

const INT: u32 = EXPR_INT - EXPR_FIRST;

const VARIABLE: u32 = EXPR_VARIABLE - EXPR_FIRST;

const NOW: u32 = EXPR_NOW - EXPR_FIRST;

const LAST: u32 = EXPR_LAST - EXPR_FIRST;

const LET: u32 = EXPR_LET - EXPR_FIRST;

const IF: u32 = EXPR_IF - EXPR_FIRST;

const OPERATOR: u32 = EXPR_OPERATOR - EXPR_FIRST;

const CALL: u32 = EXPR_CALL - EXPR_FIRST;

const CONSTRUCT: u32 = EXPR_CONSTRUCT - EXPR_FIRST;

const CASE: u32 = EXPR_CASE - EXPR_FIRST;

const ADJUST: u32 = EXPR_ADJUST - EXPR_FIRST;

// What stands behind the code of a form, with so many levels left inside; forms are counted from `10`.
#[cycle(passing)]
fn behind(
    line: &[u8],
    index: &[u32; INDEX_WORDS],
    c: Cursor,
    s: Names,
    levels: u32,
    form: u32,
) -> Result<Found, Refusal>
    requires levels_le_nesting_most { levels ≤ nesting_most }
    requires roomy { Roomy s }
    requires form_bound { form < 13 }
    ensures { Opens line.now index.now c s result (λ S. parts (expr_at levels) S (form_at form)) }
{
    match form {
        BOOL => Ok(opened(c.code(line, BOOL_FIRST, BOOLS)?.next, 0)),
        INT => Ok(opened(c.past_int(line)?, 0)),
        VARIABLE => Ok(opened(c.index(line, s.variables)?.next, 0)),
        NOW | LAST => Ok(opened(c.index(line, s.channels)?.next, 0)),
        LET => Ok(opened(binding(line, index, c, s, levels)?, 0)),
        IF => Ok(opened(c, 3)),
        OPERATOR => Ok(opened(c.code(line, OPERATOR_FIRST, OPERATORS)?.next, 2)),
        CALL => call(line, index, c, s),
        CONSTRUCT => construct(line, index, c, s),
        CASE => Ok(opened(case_of(line, index, c, s, levels)?, 0)),
        ADJUST => Ok(opened(c.size(line, s.sizes, NESTING_MOST)?, 1)),
        _ => Ok(opened(fit(line, index, c, s, levels)?, 0)),
    }
}

// `15`: a let.
#[cycle(passing)]
fn binding(
    line: &[u8],
    index: &[u32; INDEX_WORDS],
    c: Cursor,
    s: Names,
    levels: u32,
) -> Result<Cursor, Refusal>
    requires levels_le_nesting_most { levels ≤ nesting_most }
    requires roomy { Roomy s }
    ensures { Follows line.now index.now c s result (λ S. expr_behind (expr_at levels) S let_form) }
{
    let next = nested(line, index, c, s, levels)?;
    let inner = wider(s, 1, 0);
    nested(line, index, next, inner, levels)
}

// `1A`: a case: its subject, its return type, a branch for each constructor.
#[cycle(passing)]
fn case_of(
    line: &[u8],
    index: &[u32; INDEX_WORDS],
    c: Cursor,
    s: Names,
    levels: u32,
) -> Result<Cursor, Refusal>
    requires levels_le_nesting_most { levels ≤ nesting_most }
    requires roomy { Roomy s }
    ensures { Follows line.now index.now c s result (λ S. expr_behind (expr_at levels) S case_form) }
{
    let f = c.index(line, s.types)?;
    let written = nested(line, index, f.next, s, levels)?;
    let next = written.result(line, s.types, s.sizes)?;
    branches(line, index, next, s, levels, f.value, 0)
}

// The branches of a case over type t from constructor k on.
#[cycle(passing)]
fn branches(
    line: &[u8],
    index: &[u32; INDEX_WORDS],
    c: Cursor,
    s: Names,
    levels: u32,
    t: u32,
    k: u32,
) -> Result<Cursor, Refusal>
    requires levels_le_nesting_most { levels ≤ nesting_most }
    requires roomy { Roomy s }
    requires t_lt_types { (t < s.types) × (k < byte_range) }
    ensures { Follows line.now index.now c s result (λ S. branches_read (expr_at levels) S (drop k (get_or S.types t []))) }
{
    let count = constructors(index, t);
    if count <= k {
        return Ok(c);
    }
    let variables = fields(index, t, k);
    let sizes = own_fields(index, t, k);
    let inner = wider(s, variables, sizes);
    let next = nested(line, index, c, inner, levels)?;
    branches(line, index, next, s, levels, t, k + 1)
}

// `1C`: a fit: its bound, the subject, the arm where it fits, the other arm.
#[cycle(passing)]
fn fit(
    line: &[u8],
    index: &[u32; INDEX_WORDS],
    c: Cursor,
    s: Names,
    levels: u32,
) -> Result<Cursor, Refusal>
    requires levels_le_nesting_most { levels ≤ nesting_most }
    requires roomy { Roomy s }
    ensures { Follows line.now index.now c s result (λ S. expr_behind (expr_at levels) S fit_form) }
{
    let f = c.count(line, 1, SIZE_MOST)?;
    let second = nested(line, index, f.next, s, levels)?;
    let inner = wider(s, 1, 0);
    let third = nested(line, index, second, inner, levels)?;
    nested(line, index, third, s, levels)
}
