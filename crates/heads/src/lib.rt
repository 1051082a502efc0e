// Reading the head of an expression: its form by the first byte, with the bytes that belong to it.
#![tactic(auto)]

pub mod places;
pub mod skip;

ghost use Rattle.std.specs.Prelude.{◌≡◌};
ghost use Rattle.heads.specs.HeadLaws.{missing_head};
ghost use Rattle.heads.specs.Heads.{Heads, Coded, OtherCode};
ghost use Rattle.heads.specs.Variables.{VariableRead};

use language::codes::{
    EXPR_ADJUST, EXPR_BOOL, EXPR_CALL, EXPR_CASE, EXPR_CONSTRUCT, EXPR_FIT, EXPR_IF, EXPR_INT,
    EXPR_LAST, EXPR_LET, EXPR_NOW, EXPR_OPERATOR, EXPR_VARIABLE,
};
use text::{Cursor, Found};

// The form of an expression, with the bytes that belong to it; Missing where none is read.
#[derive(Clone, Copy)]
pub enum Form {
    Bool(u32),
    Int(u32),
    Variable(u32),
    Now(u32),
    Last(u32),
    Let,
    If,
    Operator(u32),
    Call(u32),
    Construct(u32, u32),
    Case(u32),
    Adjust,
    Fit(u32),
    Missing,
}

// A form, and the cursor where its first part starts.
#[derive(Clone, Copy)]
pub struct Head {
    pub form: Form,
    pub next: Cursor,
}

// No form, in place of an Option: the walks are promised a form on any bytes. The cursor stays where it was.
fn missing(start: Cursor) -> Head
    ensures { result ≡ missing_head start }
{
    Head {
        form: Form::Missing,
        next: start,
    }
}

// `11`: an Int, whose four bytes stand behind the code.
fn number(line: &[u8], start: Cursor, c: Cursor) -> Head
    requires { Coded line.now start.at 0x11 1 c.at }
    ensures { Heads line.now start.at result }
{
    let Ok(f) = c.int(line) else {
        return missing(start);
    };
    Head {
        form: Form::Int(f.value),
        next: f.next,
    }
}

// `19`: a type and one of its constructors stand behind the code.
fn construct(line: &[u8], start: Cursor, c: Cursor) -> Head
    requires { Coded line.now start.at 0x19 1 c.at }
    ensures { Heads line.now start.at result }
{
    let Ok(f) = c.byte(line) else {
        return missing(start);
    };
    let Ok(g) = f.next.byte(line) else {
        return missing(start);
    };
    Head {
        form: Form::Construct(f.value, g.value),
        next: g.next,
    }
}

// The codes with one byte behind them.
fn one_operand(line: &[u8], start: Cursor, c: Cursor, code: u32) -> Head
    requires coded { Coded line.now start.at code 1 c.at }
    requires other_code { OtherCode code }
    ensures { Heads line.now start.at result }
{
    let Ok(f) = c.byte(line) else {
        return missing(start);
    };
    let b = f.value;
    let next = f.next;
    let form = match code {
        EXPR_BOOL => Form::Bool(b),
        EXPR_VARIABLE => Form::Variable(b),
        EXPR_NOW => Form::Now(b),
        EXPR_LAST => Form::Last(b),
        EXPR_OPERATOR => Form::Operator(b),
        EXPR_CALL => Form::Call(b),
        EXPR_CASE => Form::Case(b),
        EXPR_FIT => Form::Fit(b),
        _ => return missing(start),
    };
    Head { form, next }
}

// The head of an expression.
pub fn head_at(line: &[u8], c: Cursor) -> Head
    ensures { Heads line.now c.at result }
{
    let Ok(f) = c.byte(line) else {
        return missing(c);
    };
    let code = f.value;
    let next = f.next;
    match code {
        EXPR_INT => number(line, c, next),
        EXPR_LET => Head {
            form: Form::Let,
            next,
        },
        EXPR_IF => Head {
            form: Form::If,
            next,
        },
        EXPR_CONSTRUCT => construct(line, c, next),
        EXPR_ADJUST => Head {
            form: Form::Adjust,
            next,
        },
        _ => one_operand(line, c, next, code),
    }
}

// The variable at a place, where the expression there is one, and the cursor behind it; no more than two bytes are read.
pub fn variable_at(line: &[u8], c: Cursor) -> Option<Found>
    ensures { VariableRead line.now c.at result }
{
    let f = c.byte(line).ok()?;
    if f.value != EXPR_VARIABLE {
        return None;
    }
    f.next.byte(line).ok()
}
