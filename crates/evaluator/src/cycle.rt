// Expressions, argument lists, branches and bodies: they call each other, falling by the calls left and by the length of what is left of
// the line.
ghost use Rattle.std.specs.Prelude.{◌≡◌, ◌+◌, ◌≤◌, length, get_or};
ghost use Rattle.index.specs.Sections.{frames_of};
ghost use Rattle.index.specs.Indexed.{frame_part};
ghost use Rattle.evaluation_steps.specs.Promises.{of_program, Room, Waits, EvalsAll};
ghost use Rattle.evaluation_steps.specs.Asks.{EvalsExpr, EvalsForm, Finishes, EvalsBound, EvalsOperator, EvalsChoice, EvalsFit, EvalsBranch, EvalsBody};

use construction::construct;
use ends::end_of;
use evaluation_steps::contexts::{body_context, bound, moved};
use evaluation_steps::forms::{branch_at, first_operand, operands, reserved};
use evaluation_steps::slots::{push, push_fields, variable};
use evaluation_steps::{Context, Program, Values};
use heads::{Form, head_at, variable_at};
use index::frames::frame_line;
use index::types::constructors;
use index::{one_if, put, word_at};
use language::codes::OPERATOR_AND;
use language::limits::PARAMETERS_MOST;
use language::refusals::Refusal;
use new_cells::{Value, new_bool, new_int};
use operators::{decides, operate};
use state_words::channel_cell;
use state_words::reads::{constructor, fields, size, truth};

// An expression.
#[cycle(evaluation)]
pub fn expr(
    program: &Program,
    state: &mut [u32],
    slots: &mut [u32],
    p: Context,
) -> Result<Value, Refusal>
    requires { Room state.old slots.old p }
    ensures { of_program EvalsExpr program.now state.old slots.old p result state.new slots.new }
{
    let Program {
        text,
        index,
        channels,
        ..
    } = *program;
    let line = frame_line(text, index, p.line);
    let head = head_at(line, p.at);
    let form = head.form;
    let next = head.next;
    let q = moved(p, next, p.used);
    match form {
        Form::Bool(b) => new_bool(state, p.used, b),
        Form::Int(n) => new_int(state, p.used, n),
        Form::Variable(v) => Ok(Value {
            cell: variable(slots, p.top, v),
            used: p.used,
        }),
        Form::Now(c) => Ok(Value {
            cell: word_at(channels, c as usize),
            used: p.used,
        }),
        Form::Last(c) => Ok(Value {
            cell: channel_cell(state, c),
            used: p.used,
        }),
        Form::Missing => Err(Refusal::Unnamed),
        _ => compound(program, state, slots, line, q, form),
    }
}

// An expression that has parts; p stands behind its head. Its operands are evaluated first, those of a call while its slots wait.
#[cycle(evaluation)]
fn compound(
    program: &Program,
    state: &mut [u32],
    slots: &mut [u32],
    line: &[u8],
    p: Context,
    form: Form,
) -> Result<Value, Refusal>
    requires room { Room state.old slots.old p }
    requires line_value { line.now ≡ frame_part program.now.text.now (frames_of program.now.index.now) p.line }
    ensures { of_program EvalsForm program.now state.old slots.old p form result state.new slots.new }
{
    let n = operands(program.index, form);
    let waiting = reserved(program.index, form) as usize;
    if slots.len() - p.top < waiting {
        return Err(Refusal::EnvironmentSpent);
    }
    let room = slots.len() - waiting;
    let at = first_operand(program.ends, program.index, p, form);
    let first = moved(p, at, p.used);
    let mut row = [0u32; PARAMETERS_MOST];
    let values = arguments(program, state, &mut slots[..room], line, &mut row, first, n)?;
    let q = moved(p, values.next, values.used);
    finish(program, state, slots, q, form, &row, n)
}

// So many expressions, one after the other; their cells are stored in a row.
#[cycle(evaluation)]
fn arguments(
    program: &Program,
    state: &mut [u32],
    slots: &mut [u32],
    line: &[u8],
    row: &mut [u32; PARAMETERS_MOST],
    p: Context,
    n: u32,
) -> Result<Values, Refusal>
    requires room { Room state.old slots.old p }
    requires line_value { line.now ≡ frame_part program.now.text.now (frames_of program.now.index.now) p.line }
    ensures { of_program EvalsAll program.now state.old slots.old p n result state.new slots.new row.new }
{
    let mut at = p.at;
    let mut used = p.used;
    for i in 0..n {
        let q = moved(p, at, used);
        let value = operand(program, state, slots, line, q)?;
        put(row, i as usize, value.cell);
        at = end_of(program.ends, program.index, p.line, at);
        used = value.used;
    }
    Ok(Values { used, next: at })
}

// One of them: a variable is read at once.
#[cycle(evaluation)]
fn operand(
    program: &Program,
    state: &mut [u32],
    slots: &mut [u32],
    line: &[u8],
    p: Context,
) -> Result<Value, Refusal>
    requires room { Room state.old slots.old p }
    requires line_value { line.now ≡ frame_part program.now.text.now (frames_of program.now.index.now) p.line }
    ensures { of_program EvalsExpr program.now state.old slots.old p result state.new slots.new }
{
    match variable_at(line, p.at) {
        Some(f) => Ok(Value {
            cell: variable(slots, p.top, f.value),
            used: p.used,
        }),
        None => expr(program, state, slots, p),
    }
}

// What a form makes of its operands' cells, the first n words of a row; p stands behind them.
#[cycle(evaluation)]
fn finish(
    program: &Program,
    state: &mut [u32],
    slots: &mut [u32],
    p: Context,
    form: Form,
    row: &[u32; PARAMETERS_MOST],
    n: u32,
) -> Result<Value, Refusal>
    requires room { Room state.old slots.old p }
    requires waits { Waits form p.top n slots.old }
    ensures { of_program Finishes program.now state.old slots.old p form row.now n result state.new slots.new }
{
    let first = word_at(row, 0);
    match form {
        Form::Operator(o) => operator(program, state, slots, p, o, row),
        Form::Construct(t, c) => construct(program.index, state, p.used, t, c, row, n),
        Form::Adjust => Ok(Value {
            cell: first,
            used: p.used,
        }),
        Form::Call(f) => body(program, state, slots, p, f, row, n),
        Form::Case(t) => branch(program, state, slots, p, t, first),
        Form::If => choice(program, state, slots, p, first),
        Form::Fit(k) => fit(program, state, slots, p, k, first),
        Form::Let => binding(program, state, slots, p, first),
        _ => Err(Refusal::Unnamed),
    }
}

// `17`: what an operator gives of its sides' cells, the first words of a row; the right side of and, or is evaluated here, unless the left
// one decides.
#[cycle(evaluation)]
fn operator(
    program: &Program,
    state: &mut [u32],
    slots: &mut [u32],
    p: Context,
    o: u32,
    row: &[u32; PARAMETERS_MOST],
) -> Result<Value, Refusal>
    requires { Room state.old slots.old p }
    ensures { of_program EvalsOperator program.now state.old slots.old p o (get_or row.now 0 0) (get_or row.now 1 0) result state.new slots.new }
{
    let left = word_at(row, 0);
    if o < OPERATOR_AND {
        return operate(state, p.used, o, left, word_at(row, 1));
    }
    let holds = truth(state, p.used, left);
    if decides(o, holds) {
        return new_bool(state, p.used, one_if(holds));
    }
    let right = expr(program, state, slots, p)?;
    operate(state, right.used, o, left, right.cell)
}

// `15`: the second part of a let, with the first one's cell bound.
#[cycle(evaluation)]
fn binding(
    program: &Program,
    state: &mut [u32],
    slots: &mut [u32],
    p: Context,
    cell: u32,
) -> Result<Value, Refusal>
    requires { Room state.old slots.old p }
    ensures { of_program EvalsBound program.now state.old slots.old p cell result state.new slots.new }
{
    if slots.len() <= p.top {
        return Err(Refusal::EnvironmentSpent);
    }
    put(slots, p.top, cell);
    let q = bound(p, p.at, 1);
    expr(program, state, slots, q)
}

// `16`: the arm of an if.
#[cycle(evaluation)]
fn choice(
    program: &Program,
    state: &mut [u32],
    slots: &mut [u32],
    p: Context,
    cell: u32,
) -> Result<Value, Refusal>
    requires { Room state.old slots.old p }
    ensures { of_program EvalsChoice program.now state.old slots.old p cell result state.new slots.new }
{
    if truth(state, p.used, cell) {
        return expr(program, state, slots, p);
    }
    let third = end_of(program.ends, program.index, p.line, p.at);
    let q = moved(p, third, p.used);
    expr(program, state, slots, q)
}

// `1C`: the arm of a fit.
#[cycle(evaluation)]
fn fit(
    program: &Program,
    state: &mut [u32],
    slots: &mut [u32],
    p: Context,
    k: u32,
    cell: u32,
) -> Result<Value, Refusal>
    requires { Room state.old slots.old p }
    ensures { of_program EvalsFit program.now state.old slots.old p k cell result state.new slots.new }
{
    if size(state, p.used, cell) <= k {
        return binding(program, state, slots, p, cell);
    }
    let third = end_of(program.ends, program.index, p.line, p.at);
    let q = moved(p, third, p.used);
    expr(program, state, slots, q)
}

// `1A`: the branch of a cell's constructor, with its fields bound; p stands before the return type.
#[cycle(evaluation)]
fn branch(
    program: &Program,
    state: &mut [u32],
    slots: &mut [u32],
    p: Context,
    t: u32,
    cell: u32,
) -> Result<Value, Refusal>
    requires { Room state.old slots.old p }
    ensures { of_program EvalsBranch program.now state.old slots.old p t cell result state.new slots.new }
{
    let c = constructor(state, p.used, cell);
    if constructors(program.index, t) <= c {
        return Err(Refusal::Unnamed);
    }
    let n = fields(program.index, state, p.used, cell);
    if slots.len() - p.top < (n as usize) {
        return Err(Refusal::EnvironmentSpent);
    }
    push_fields(slots, p.top, state, p.used, cell, n);
    let first = end_of(program.ends, program.index, p.line, p.at);
    let at = branch_at(program.ends, program.index, p.line, first, c);
    let q = bound(p, at, n as usize);
    expr(program, state, slots, q)
}

// `18`: the body of function f, its n arguments the first words of a row, in slots of its own.
#[cycle(evaluation)]
fn body(
    program: &Program,
    state: &mut [u32],
    slots: &mut [u32],
    p: Context,
    f: u32,
    row: &[u32; PARAMETERS_MOST],
    n: u32,
) -> Result<Value, Refusal>
    requires room { Room state.old slots.old p }
    requires n_in_bounds { p.top + n ≤ length slots.old }
    ensures { of_program EvalsBody program.now state.old slots.old p f row.now n result state.new slots.new }
{
    if p.calls == 0 {
        return Err(Refusal::StackSpent);
    }
    let top = p.top;
    push(slots, top, row, n);
    let q = body_context(program.index, p, f, n as usize);
    expr(program, state, &mut slots[top..], q)
}
