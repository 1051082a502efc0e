// The frames of functions, inputs and nodes: whether the plain types of each agree.
ghost use Rattle.plain_types.specs.Asks.{Room};
ghost use Rattle.plain_types.specs.Verdicts.{ValueFits, FunctionFits, InitialFits, NodeFits, FrameFits};

use super::exprs::expect;
use super::initials::initial;
use super::words::{PlainType, Want, enter, returned};
use heads::places::{Place, SCOPE_WORDS, line_behind_types};
use index::channels::{declared_word, initial_start, update_start};
use index::frames::frame_line;
use index::functions::{arity, body_start};
use index::{INDEX_WORDS, frame_counts};
use language::limits::NESTING_MOST;

// Whether the body of function f is of its result type.
fn function_agrees(text: &[u8], index: &[u32; INDEX_WORDS], f: u32) -> bool
    ensures { FunctionFits text.now index.now f result }
{
    let mut scope = [0u32; SCOPE_WORDS];
    let n = arity(index, f);
    enter(index, &mut scope, Want::Parameters(f), 0, n);
    let at = body_start(index, f);
    let line = line_behind_types(index, f);
    let p = Place {
        at,
        levels: NESTING_MOST,
        line,
        variables: n,
    };
    let result = returned(text, index, f);
    expect(text, index, &mut scope, p, result).is_some()
}

// Whether the expression at a place is of the declared type of channel c.
fn value_agrees(text: &[u8], index: &[u32; INDEX_WORDS], p: Place, c: u32) -> bool
    requires { Room 0 p }
    ensures { ValueFits text.now index.now p c result }
{
    let mut scope = [0u32; SCOPE_WORDS];
    let declared = PlainType::from(declared_word(index, c));
    expect(text, index, &mut scope, p, declared).is_some()
}

// Whether the initial value of channel c, of frame i behind the types, is one and of the declared type.
fn initial_agrees(text: &[u8], index: &[u32; INDEX_WORDS], i: u32, c: u32) -> bool
    ensures { InitialFits text.now index.now i c result }
{
    let at = initial_start(index, c);
    let line = line_behind_types(index, i);
    let part = frame_line(text, index, line);
    let p = Place {
        at,
        levels: NESTING_MOST,
        line,
        variables: 0,
    };
    initial(part, index, at, NESTING_MOST).is_some() && value_agrees(text, index, p, c)
}

// Whether both expressions of a node, channel c, agree.
fn node_agrees(text: &[u8], index: &[u32; INDEX_WORDS], i: u32, c: u32) -> bool
    ensures { NodeFits text.now index.now i c result }
{
    let at = update_start(index, c);
    let line = line_behind_types(index, i);
    let p = Place {
        at,
        levels: NESTING_MOST,
        line,
        variables: 0,
    };
    initial_agrees(text, index, i, c) && value_agrees(text, index, p, c)
}

// Whether frame i behind the types agrees; so where there is none.
pub fn frame_agrees(text: &[u8], index: &[u32; INDEX_WORDS], i: u32) -> bool
    ensures { FrameFits text.now index.now i result }
{
    let counts = frame_counts(index);
    let most = counts.functions;
    if i < most {
        return function_agrees(text, index, i);
    }
    let c = i - most;
    let inputs = counts.inputs;
    if c < inputs {
        return initial_agrees(text, index, i, c);
    }
    if c - inputs < counts.nodes {
        return node_agrees(text, index, i, c);
    }
    true
}
