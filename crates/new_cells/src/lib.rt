// A new cell for a constant: written above the used ones, or refused with 20. What any step that makes a cell promises is in specs/.
#![tactic(auto)]

ghost use Rattle.std.specs.Prelude.{[], ◌∷◌};
ghost use Rattle.language.specs.Limits.{fields_most};
ghost use Rattle.language.specs.Layout.{padded};
ghost use Rattle.new_cells.specs.Steps.{Board, Gives};
ghost use Rattle.new_cells.specs.Asked.{Allocates, MakesBool, MakesInt};

use language::refusals::Refusal;
use state_words::tags::{BOOL_TAG, INT_TAG};
use state_words::{put_leaf, state_length};

// A cell, and how many cells are used.
#[derive(Clone, Copy)]
pub struct Value {
    pub cell: u32,
    pub used: u32,
}

// A cell without fields, by its tag and its value; 20 where the board has none left.
fn new_leaf(state: &mut [u32], used: u32, tag: u32, value: u32) -> Result<Value, Refusal>
    requires { Board state.old used }
    ensures { Gives state.old used (Allocates (tag ∷ value ∷ padded fields_most [])) result state.new }
{
    let next = used + 1;
    if state.len() < state_length(next) {
        return Err(Refusal::HeapSpent);
    }
    put_leaf(state, used, tag, value);
    Ok(Value {
        cell: used,
        used: next,
    })
}

// A Bool, by its bit; an Int, by its bits.
pub fn new_bool(state: &mut [u32], used: u32, bit: u32) -> Result<Value, Refusal>
    requires { Board state.old used }
    ensures { Gives state.old used (MakesBool bit) result state.new }
{
    new_leaf(state, used, BOOL_TAG, bit)
}

pub fn new_int(state: &mut [u32], used: u32, n: u32) -> Result<Value, Refusal>
    requires { Board state.old used }
    ensures { Gives state.old used (MakesInt n) result state.new }
{
    new_leaf(state, used, INT_TAG, n)
}
