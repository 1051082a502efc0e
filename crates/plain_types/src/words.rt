// Plain types, and their words in the index and in a scope: 0 Bool, 1 Int, else 256 × (t + 1), and in the index the size.
ghost use Rattle.std.specs.Prelude.{Some, ◌≡◌};
ghost use Rattle.language.specs.PlainTypes.{is_named};
ghost use Rattle.index.specs.Sections.{channels_of};
ghost use Rattle.index.specs.Indexed.{declared_at};
ghost use Rattle.plain_types.specs.Agrees.{meaning};
ghost use Rattle.plain_types.specs.Words.{named_type, type_at, WordOf, operand_of, outcome_of, wanted_type, entered, ReadsResult, Returns};

use heads::places::{SCOPE_WORDS, line_behind_types};
use index::channels::declared_word;
use index::frames::frame_line;
use index::functions::{parameter_word, result_start};
use index::types::{OWN_FIELD, field_word};
use index::{INDEX_WORDS, put};
use language::codes::{OPERATOR_AND, OPERATOR_EQUAL, TYPE_NAMED};
use language::limits::{NESTING_MOST, SIZE_VARIABLES_MOST};
use text::{Cursor, TYPE_STEP};

// A plain type: Bool, Int, or the number of a named type.
#[derive(Clone, Copy, PartialEq, Eq)]
pub enum PlainType {
    Bool,
    Int,
    Named(u8),
}

// A plain type, and the cursor behind what has it.
#[derive(Clone, Copy)]
pub struct Typed {
    pub of: PlainType,
    pub next: Cursor,
}

// What types a list of expressions is compared with: a function's parameters, a constructor's fields.
#[derive(Clone, Copy)]
pub enum Want {
    Parameters(u32),
    Fields(u32, u32),
}

// A type, and the cursor behind what has it.
pub fn answer(of: PlainType, next: Cursor) -> Option<Typed>
    ensures { result ≡ Some (record { of = of; next = next }) }
{
    Some(Typed { of, next })
}

// A named type, its number a byte.
pub fn named(t: u32) -> PlainType
    ensures { result ≡ named_type t }
{
    PlainType::Named((t % TYPE_STEP) as u8)
}

// The type of a word, which may have a size.
impl From<u32> for PlainType {
    ghost from_gives = { λ word r. r ≡ type_at word };

    fn from(word: u32) -> PlainType {
        if word == 0 {
            return PlainType::Bool;
        }
        if word < TYPE_STEP {
            return PlainType::Int;
        }
        named(word / TYPE_STEP - 1)
    }
}

// The word of a type.
impl From<PlainType> for u32 {
    ghost from_gives = { λ x r. WordOf x r };

    fn from(x: PlainType) -> u32 {
        match x {
            PlainType::Bool => 0,
            PlainType::Int => 1,
            PlainType::Named(t) => TYPE_STEP * (u32::from(t) + 1),
        }
    }
}

// Whether a type is a named one.
pub fn is_named(x: PlainType) -> bool
    ensures { result ≡ is_named (meaning x) }
{
    matches!(x, PlainType::Named(_))
}

// The type of both operands of an operator, by its code.
pub fn operand(o: u32) -> PlainType
    ensures { result ≡ operand_of o }
{
    if o < OPERATOR_AND {
        return PlainType::Int;
    }
    PlainType::Bool
}

// The type of what an operator gives, by its code.
pub fn outcome(o: u32) -> PlainType
    ensures { result ≡ outcome_of o }
{
    if o < OPERATOR_EQUAL {
        return PlainType::Int;
    }
    PlainType::Bool
}

// The plain type of parameter or field j.
pub fn wanted(index: &[u32; INDEX_WORDS], want: Want, j: u32) -> PlainType
    ensures { result ≡ wanted_type index.now want j }
{
    match want {
        Want::Parameters(f) => PlainType::from(parameter_word(index, f, j)),
        Want::Fields(t, c) => {
            let word = field_word(index, t, c, j);
            if word == OWN_FIELD {
                return named(t);
            }
            PlainType::from(word)
        }
    }
}

// Writes the words of the first n parameters' or fields' types into a scope, from a place on.
pub fn enter(
    index: &[u32; INDEX_WORDS],
    scope: &mut [u32; SCOPE_WORDS],
    want: Want,
    to: u32,
    n: u32,
)
    ensures { scope.new ≡ entered index.now want scope.old to n }
{
    for i in 0..n {
        let of = wanted(index, want, i);
        put(scope, (to as usize) + (i as usize), u32::from(of));
    }
}

// A result or return type without its size.
pub fn result_type(line: &[u8], c: Cursor) -> Option<Typed>
    ensures { ReadsResult line.now c result }
{
    let f = c.byte(line).ok()?;
    let form = f.value;
    if form < TYPE_NAMED {
        return answer(PlainType::from(form), f.next);
    }
    let g = f.next.byte(line).ok()?;
    let next = g.next.size(line, SIZE_VARIABLES_MOST, NESTING_MOST).ok()?;
    answer(named(g.value), next)
}

// The result type of function f, read in its line.
pub fn returned(text: &[u8], index: &[u32; INDEX_WORDS], f: u32) -> PlainType
    ensures { Returns text.now index.now f result }
{
    let i = line_behind_types(index, f);
    let line = frame_line(text, index, i);
    let Some(k) = result_type(line, result_start(index, f)) else {
        return PlainType::Bool;
    };
    k.of
}

// A channel: its declared type, the size left out.
pub fn channel(index: &[u32; INDEX_WORDS], c: u32, next: Cursor) -> Option<Typed>
    ensures { result ≡ Some (record { of = type_at (declared_at (channels_of index.now) c); next = next }) }
{
    answer(PlainType::from(declared_word(index, c)), next)
}
