// The three numbers of figure 7 as they are held: each stops at 65,535, and no sum overflows.
#![tactic(auto)]

ghost use Rattle.std.specs.Prelude.{◌≡◌, ◌+◌, max};
ghost use Rattle.language.specs.Estimate.{stop, nothing as nothing_of, one_cell, after as after_of, either as either_of, with_slots, in_call};
ghost use Rattle.estimate.specs.Stands.{Makes, Changes, Combines};

use language::limits::NUMBER_MOST;

#[derive(Clone, Copy)]
pub struct Estimate {
    pub env: u32,
    pub heap: u32,
    pub stack: u32,
}

// A number, which stops at 65,535.
fn capped(n: u32) -> u32
    ensures { result ≡ stop n }
{
    n.min(NUMBER_MOST)
}

// A sum, which stops there.
pub fn capped_sum(a: u32, b: u32) -> u32
    ensures { result ≡ stop (a + b) }
{
    capped(a.saturating_add(b))
}

// The larger of two, which stops there.
pub fn capped_larger(a: u32, b: u32) -> u32
    ensures { result ≡ stop (max a b) }
{
    capped(a.max(b))
}

// No cell, no slot, no call.
pub fn nothing() -> Estimate
    ensures { Makes nothing_of result }
{
    Estimate {
        env: 0,
        heap: 0,
        stack: 0,
    }
}

// One new cell.
pub fn one_cell() -> Estimate
    ensures { Makes one_cell result }
{
    Estimate {
        env: 0,
        heap: 1,
        stack: 0,
    }
}

// a, and then b.
pub fn after(a: Estimate, b: Estimate) -> Estimate
    ensures { Combines after_of a b result }
{
    let env = capped_larger(a.env, b.env);
    let heap = capped_sum(a.heap, b.heap);
    let stack = capped_larger(a.stack, b.stack);
    Estimate { env, heap, stack }
}

// a or b: the larger of each.
pub fn either(a: Estimate, b: Estimate) -> Estimate
    ensures { Combines either_of a b result }
{
    let env = capped_larger(a.env, b.env);
    let heap = capped_larger(a.heap, b.heap);
    let stack = capped_larger(a.stack, b.stack);
    Estimate { env, heap, stack }
}

// a with n slots held.
pub fn with_slots(n: u32, a: Estimate) -> Estimate
    ensures { Changes (with_slots n) a result }
{
    let env = capped_sum(n, a.env);
    let heap = capped(a.heap);
    let stack = capped(a.stack);
    Estimate { env, heap, stack }
}

// a inside a call.
pub fn in_call(a: Estimate) -> Estimate
    ensures { Changes in_call a result }
{
    let env = capped(a.env);
    let heap = capped(a.heap);
    let stack = capped_sum(1, a.stack);
    Estimate { env, heap, stack }
}
