// Written sizes worked out at the sizes of their variables; types with sizes, conditions and measures.
#![tactic(auto)]

ghost use Rattle.std.specs.Prelude.{◌≡◌, ◌<◌, ◌≤◌};
ghost use Rattle.language.specs.Limits.{byte_range, nesting_most};
ghost use Rattle.sizes.specs.Promises.{Reads, Told, LeafWorked, WorksOut, SizeGiven, TypeGiven, Compares, Judges, HoldAll, Hold, SumsMeasure, SumsMeasures, WordOf, FromWord};

use index::byte_at;
use language::codes::{RELATION_EQUAL, RELATION_LESS, SIZE_NUMBER, SIZE_SUM, TYPE_BOOL, TYPE_INT};
use language::limits::{NESTING_MOST, SIZE_MOST};
use text::{Cursor, Found, TYPE_STEP};

// A size: what is added, what is taken away; the cursor behind it.
#[derive(Clone, Copy)]
struct Worked {
    pub added: u64,
    pub taken: u64,
    pub next: Cursor,
}

// The size of a type, 1 to 64, and the cursor behind it.
#[derive(Clone, Copy)]
pub struct SizeAt {
    pub size: u8,
    pub next: Cursor,
}

// A type with its size: Bool, Int, or the number of a named type and its size.
#[derive(Clone, Copy, PartialEq, Eq)]
pub enum SizedType {
    Bool,
    Int,
    Named(u8, u8),
}

// A result or return type, and the cursor behind it.
#[derive(Clone, Copy)]
pub struct TypeAt {
    pub ty: SizedType,
    pub next: Cursor,
}

// Whether a condition holds, and the cursor behind it.
#[derive(Clone, Copy)]
struct Judged {
    pub holds: bool,
    pub next: Cursor,
}

// The byte at the cursor; 0 where the line has none.
fn read(line: &[u8], c: Cursor) -> Found
    ensures { Reads line.now c result }
{
    c.byte(line).unwrap_or(Found { value: 0, next: c })
}

// The size of a variable.
fn size_of(sizes: &[u8], i: u32) -> u32
    ensures { Told sizes.now i result }
{
    byte_at(sizes, i as usize)
}

// `01` and `02`: a number or a variable; c stands behind the code.
fn leaf(line: &[u8], c: Cursor, sizes: &[u8], code: u32) -> Worked
    ensures { LeafWorked line.now c sizes.now code result }
{
    let f = read(line, c);
    let k = f.value;
    let next = f.next;
    if code == SIZE_NUMBER {
        return Worked {
            added: k as u64,
            taken: 0,
            next,
        };
    }
    let size = size_of(sizes, k);
    Worked {
        added: size as u64,
        taken: 0,
        next,
    }
}

// A size with so many levels left.
fn work_out(line: &[u8], c: Cursor, sizes: &[u8], levels: u32) -> Worked
    requires { levels ≤ nesting_most }
    ensures { WorksOut line.now c sizes.now levels result }
{
    if levels == 0 {
        return Worked {
            added: 0,
            taken: 0,
            next: c,
        };
    }
    let f = read(line, c);
    let code = f.value;
    let first = f.next;
    if code < SIZE_SUM {
        return leaf(line, first, sizes, code);
    }
    let x = work_out(line, first, sizes, levels - 1);
    let second = x.next;
    let y = work_out(line, second, sizes, levels - 1);
    let next = y.next;
    if code == SIZE_SUM {
        return Worked {
            added: x.added + y.added,
            taken: x.taken + y.taken,
            next,
        };
    }
    Worked {
        added: x.added + y.taken,
        taken: x.taken + y.added,
        next,
    }
}

// The size of a type; none where it is not 1 to 64.
pub fn size_at(line: &[u8], c: Cursor, sizes: &[u8]) -> Option<SizeAt>
    ensures { SizeGiven line.now c sizes.now result }
{
    let x = work_out(line, c, sizes, NESTING_MOST);
    let added = x.added;
    let taken = x.taken;
    if added <= taken {
        return None;
    }
    let k = added - taken;
    if (SIZE_MOST as u64) < k {
        return None;
    }
    let next = x.next;
    Some(SizeAt {
        size: k as u8,
        next,
    })
}

// A result or return type; none where its size is not 1 to 64.
pub fn type_at(line: &[u8], c: Cursor, sizes: &[u8]) -> Option<TypeAt>
    ensures { TypeGiven line.now c sizes.now result }
{
    let f = read(line, c);
    let code = f.value;
    let behind = f.next;
    if code == TYPE_BOOL {
        return Some(TypeAt {
            ty: SizedType::Bool,
            next: behind,
        });
    }
    if code == TYPE_INT {
        return Some(TypeAt {
            ty: SizedType::Int,
            next: behind,
        });
    }
    let g = read(line, behind);
    let t = g.value;
    let written = g.next;
    let s = size_at(line, written, sizes)?;
    Some(TypeAt {
        ty: SizedType::Named(t as u8, s.size),
        next: s.next,
    })
}

// Two whole numbers in a relation, by its code: the clause holds of any byte, so an enum would need a variant for the other codes.
fn compare(code: u32, a: u64, b: u64) -> bool
    ensures { Compares code a b result }
{
    if code == RELATION_EQUAL {
        return a == b;
    }
    if code == RELATION_LESS {
        return a < b;
    }
    a <= b
}

// A condition: what is taken away on one side is added on the other.
fn condition(line: &[u8], c: Cursor, sizes: &[u8]) -> Judged
    ensures { Judges line.now c sizes.now result }
{
    let f = read(line, c);
    let code = f.value;
    let first = f.next;
    let x = work_out(line, first, sizes, NESTING_MOST);
    let second = x.next;
    let y = work_out(line, second, sizes, NESTING_MOST);
    let next = y.next;
    let holds = compare(code, x.added + y.taken, y.added + x.taken);
    Judged { holds, next }
}

// So many conditions, one after the other.
fn conditions(line: &[u8], c: Cursor, sizes: &[u8], n: u32) -> bool
    ensures { HoldAll line.now c sizes.now n result }
{
    if n == 0 {
        return true;
    }
    let x = condition(line, c, sizes);
    if !x.holds {
        return false;
    }
    let next = x.next;
    conditions(line, next, sizes, n - 1)
}

// Whether the conditions of a function hold; c stands at their count.
pub fn conditions_hold(line: &[u8], c: Cursor, sizes: &[u8]) -> bool
    ensures { Hold line.now c sizes.now result }
{
    let f = read(line, c);
    let n = f.value;
    let next = f.next;
    conditions(line, next, sizes, n)
}

// The sum of so many sizes, the variables one after the other.
fn measures(line: &[u8], c: Cursor, sizes: &[u8], n: u32) -> u32
    requires { n < byte_range }
    ensures { SumsMeasures line.now c sizes.now n result }
{
    if n == 0 {
        return 0;
    }
    let f = read(line, c);
    let next = f.next;
    let size = size_of(sizes, f.value);
    let rest = measures(line, next, sizes, n - 1);
    size + rest
}

// The summed measure of a function; c stands at its count.
pub fn summed_measure(line: &[u8], c: Cursor, sizes: &[u8]) -> u32
    ensures { SumsMeasure line.now c sizes.now result }
{
    let f = read(line, c);
    let n = f.value;
    let next = f.next;
    measures(line, next, sizes, n)
}

// A type as a word of a table or of a scope.
impl From<SizedType> for u32 {
    ghost from_gives = { λ x word. WordOf x word };

    fn from(x: SizedType) -> u32 {
        match x {
            SizedType::Bool => TYPE_BOOL,
            SizedType::Int => TYPE_INT,
            SizedType::Named(t, k) => TYPE_STEP * (t as u32 + 1) + k as u32,
        }
    }
}

// The type of a word.
impl From<u32> for SizedType {
    ghost from_gives = { λ word x. FromWord word x };

    fn from(word: u32) -> SizedType {
        if word == TYPE_BOOL {
            return SizedType::Bool;
        }
        if word < TYPE_STEP {
            return SizedType::Int;
        }
        let t = word / TYPE_STEP - 1;
        SizedType::Named((t % TYPE_STEP) as u8, (word % TYPE_STEP) as u8)
    }
}
