// A constructor's cell: "a constructor over size 64, a field above its k .. is refusal 23", and its size comes before its cell.
#![tactic(auto)]

ghost use Rattle.std.specs.Prelude.{◌<◌};
ghost use Rattle.language.specs.Limits.{size_most};
ghost use Rattle.new_cells.specs.Steps.{Board, Gives};
ghost use Rattle.new_cells.specs.Asked.{Adds, Sums, Constructs};

use index::types::{OWN_FIELD, field_word};
use index::{INDEX_WORDS, word_at};
use language::limits::{BYTE_RANGE, PARAMETERS_MOST, SIZE_MOST};
use language::refusals::Refusal;
use new_cells::Value;
use state_words::reads::size;
use state_words::tags::{constructor_tag, word_size};
use state_words::{put_constructor, state_length};

// The own-type sizes so far with that of a field, by its word and its cell; nothing where they reach the largest size or the field is
// above its k.
fn with_field(state: &[u32], used: u32, own: u32, word: u32, l: u32) -> Option<u32>
    requires { own < size_most }
    ensures { Adds state.now used own word l result }
{
    if word < OWN_FIELD {
        return Some(own);
    }
    let s = size(state, used, l);
    if word == OWN_FIELD {
        if s < SIZE_MOST - own {
            return Some(own + s);
        }
        return None;
    }
    if word_size(word) < s {
        return None;
    }
    Some(own)
}

// The sizes at the own-type fields, summed; nothing where they reach the largest size or a field is above its k.
fn own_sum(
    index: &[u32; INDEX_WORDS],
    state: &[u32],
    used: u32,
    t: u32,
    c: u32,
    values: &[u32; PARAMETERS_MOST],
    n: u32,
) -> Option<u32>
    ensures { Sums index.now state.now used values.now t c n result }
{
    let mut own: u32 = 0;
    for i in 0..n {
        let word = field_word(index, t, c, i);
        let l = word_at(values, i as usize);
        own = with_field(state, used, own, word, l)?;
    }
    Some(own)
}

// The cell of constructor c of type t with the first n of the cells given as its fields.
pub fn construct(
    index: &[u32; INDEX_WORDS],
    state: &mut [u32],
    used: u32,
    t: u32,
    c: u32,
    values: &[u32; PARAMETERS_MOST],
    n: u32,
) -> Result<Value, Refusal>
    requires { Board state.old used }
    ensures { Gives state.old used (Constructs index.now values.now t c n) result state.new }
{
    let Some(own) = own_sum(index, state, used, t, c, values, n) else {
        return Err(Refusal::ValueTooLarge);
    };
    let next = used + 1;
    if state.len() < state_length(next) {
        return Err(Refusal::HeapSpent);
    }
    let tag = constructor_tag(t % BYTE_RANGE, c % BYTE_RANGE);
    put_constructor(state, used, tag, own + 1, values, n);
    Ok(Value {
        cell: used,
        used: next,
    })
}
