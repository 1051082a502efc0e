// What a form asks of the index: how many operands it has, the slots that wait for them, and where the first one starts.
ghost use Rattle.std.specs.Prelude.{◌≡◌, ◌<◌};
ghost use Rattle.language.specs.Limits.{byte_range};
ghost use Rattle.index.specs.Sections.{frames_of, types_of, functions_of};
ghost use Rattle.index.specs.Indexed.{frame_place};
ghost use Rattle.evaluation_steps.specs.Forms.{side_count, operand_count, reserved_count, first_at, end_after};

use super::Context;
use ends::end_of;
use heads::Form;
use index::INDEX_WORDS;
use index::functions::arity;
use index::types::fields;
use language::codes::OPERATOR_AND;
use language::limits::TEXT_MOST;
use text::Cursor;

// How many sides of an operator are operands: of and, or the left one, which may decide.
fn sides(o: u32) -> u32
    ensures { (result ≡ side_count o) × (result < byte_range) }
{
    if o >= OPERATOR_AND {
        return 1;
    }
    2
}

// How many parts are evaluated before the form's own step.
pub fn operands(index: &[u32; INDEX_WORDS], form: Form) -> u32
    ensures { (result ≡ operand_count (types_of index.now) (functions_of index.now) form) × (result < byte_range) }
{
    match form {
        Form::Operator(o) => sides(o),
        Form::Call(f) => arity(index, f),
        Form::Construct(t, c) => fields(index, t, c),
        _ => 1,
    }
}

// How many slots a call needs before its arguments.
pub fn reserved(index: &[u32; INDEX_WORDS], form: Form) -> u32
    ensures { (result ≡ reserved_count (functions_of index.now) form) × (result < byte_range) }
{
    match form {
        Form::Call(f) => arity(index, f),
        _ => 0,
    }
}

// Where the first operand starts: behind the head, that of an adj behind its size.
pub fn first_operand(
    ends: &[u16; TEXT_MOST],
    index: &[u32; INDEX_WORDS],
    p: Context,
    form: Form,
) -> Cursor
    ensures { result.at ≡ first_at ends.now (frame_place (frames_of index.now) p.line) form p.at.at }
{
    let at = p.at;
    match form {
        Form::Adjust => end_of(ends, index, p.line, at),
        _ => at,
    }
}

// Where the one behind so many expressions in a row starts, the first of them at a place.
pub fn branch_at(
    ends: &[u16; TEXT_MOST],
    index: &[u32; INDEX_WORDS],
    line: u32,
    first: Cursor,
    c: u32,
) -> Cursor
    ensures { result.at ≡ end_after ends.now (frame_place (frames_of index.now) line) first.at c }
{
    let mut at = first;
    for _ in 0..c {
        at = end_of(ends, index, line, at);
    }
    at
}
