// Initial values: document 01 allows them the forms `10`, `11`, `19` and `1B` only.
ghost use Rattle.index.specs.Sections.{types_of};
ghost use Rattle.plain_types.specs.Initials.{TestsInitial, TestsInitials};

use super::words::{PlainType, Typed, answer};
use heads::{Form, head_at};
use index::INDEX_WORDS;
use index::types::fields;
use language::limits::{NESTING_MOST, SIZE_VARIABLES_MOST};
use text::Cursor;

// Whether an expression is an initial value, and the cursor behind it.
#[cycle(initials)]
pub fn initial(line: &[u8], index: &[u32; INDEX_WORDS], c: Cursor, levels: u32) -> Option<Typed>
    ensures { TestsInitial line.now (types_of index.now) c levels result }
{
    if levels == 0 {
        return None;
    }
    let head = head_at(line, c);
    let next = head.next;
    match head.form {
        Form::Bool(_) | Form::Int(_) => answer(PlainType::Bool, next),
        Form::Construct(t, k) => {
            let n = fields(index, t, k);
            initials(line, index, next, levels - 1, n)
        }
        Form::Adjust => {
            let first = next.size(line, SIZE_VARIABLES_MOST, NESTING_MOST).ok()?;
            initial(line, index, first, levels - 1)
        }
        _ => None,
    }
}

// So many of them, one after the other.
#[cycle(initials)]
fn initials(
    line: &[u8],
    index: &[u32; INDEX_WORDS],
    c: Cursor,
    levels: u32,
    n: u32,
) -> Option<Typed>
    ensures { TestsInitials line.now (types_of index.now) c levels n result }
{
    if n == 0 {
        return answer(PlainType::Bool, c);
    }
    let k = initial(line, index, c, levels)?;
    initials(line, index, k.next, levels, n - 1)
}
