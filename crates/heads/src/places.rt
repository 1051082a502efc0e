// Places of expressions: where one stands, where its parts stand, and the line of a frame.
ghost use Rattle.std.specs.Prelude.{◌≡◌, ◌+◌, ◌^◌, ◌<◌};
ghost use Rattle.heads.specs.Places.{moved_to, wider_by, inside_of, line_behind_types, channel_line_of};

use index::{INDEX_WORDS, frame_counts};
use language::limits::{BYTE_RANGE, VARIABLES_MOST};
use text::{Cursor, TYPE_STEP};

// The words of a scope, one for each variable.
pub const SCOPE_WORDS: usize = VARIABLES_MOST as usize;

// Where an expression stands: its place in the line of that number, the levels left, and how many variables are in scope.
#[derive(Clone, Copy)]
pub struct Place {
    pub at: Cursor,
    pub levels: u32,
    pub line: u32,
    pub variables: u32,
}

// The same place with the cursor moved on.
pub fn moved(p: Place, next: Cursor) -> Place
    ensures { result ≡ moved_to p next }
{
    Place { at: next, ..p }
}

// The same with so many variables more.
pub fn widened(p: Place, next: Cursor, n: u32) -> Place
    requires { p.variables + n < 2 ^ 32 }
    ensures { result ≡ wider_by n p next }
{
    Place {
        at: next,
        variables: p.variables + n,
        ..p
    }
}

// The place of the parts of a form: a level less.
pub fn inside(p: Place, next: Cursor) -> Place
    requires { 0 < p.levels }
    ensures { result ≡ inside_of p next }
{
    Place {
        at: next,
        levels: p.levels - 1,
        ..p
    }
}

// The line of frame i behind the types, its number a byte.
pub fn line_behind_types(index: &[u32; INDEX_WORDS], i: u32) -> u32
    ensures { result ≡ line_behind_types index.now i }
{
    let counts = frame_counts(index);
    counts.types + i % TYPE_STEP
}

// The line of channel c.
pub fn channel_line(index: &[u32; INDEX_WORDS], c: u32) -> u32
    ensures { result ≡ channel_line_of index.now c }
{
    let counts = frame_counts(index);
    line_behind_types(index, counts.functions + c % BYTE_RANGE)
}
