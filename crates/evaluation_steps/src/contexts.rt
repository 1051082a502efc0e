// The place of a part: elsewhere in the line, with more cells used, with more in the environment, in the body of a function.
ghost use Rattle.std.specs.Prelude.{◌≡◌, ◌+◌, ◌-◌, ◌^◌, ◌<◌};
ghost use Rattle.evaluation_steps.specs.Contexts.{moved_to, bound_to, body_context};

use super::Context;
use heads::places::line_behind_types;
use index::INDEX_WORDS;
use index::functions::body_start;
use text::Cursor;

// The same place elsewhere in the line, with so many cells used.
pub fn moved(p: Context, at: Cursor, used: u32) -> Context
    ensures { result ≡ moved_to p at used }
{
    Context { at, used, ..p }
}

// The same with n more slots in the environment.
pub fn bound(p: Context, at: Cursor, n: usize) -> Context
    requires { p.top + n < 2 ^ 64 }
    ensures { result ≡ bound_to p at n }
{
    Context {
        at,
        top: p.top + n,
        ..p
    }
}

// Where the body of function f stands, with its n arguments in the first slots and a call less.
pub fn body_context(index: &[u32; INDEX_WORDS], p: Context, f: u32, n: usize) -> Context
    requires { 0 < p.calls }
    ensures { result ≡ body_context index.now p f n }
{
    let at = body_start(index, f);
    let line = line_behind_types(index, f);
    Context {
        at,
        line,
        top: n,
        used: p.used,
        calls: p.calls - 1,
    }
}
