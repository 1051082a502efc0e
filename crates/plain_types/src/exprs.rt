// The plain type of an expression, form by form, the scope's types as words in a lent array.
ghost use Rattle.plain_types.specs.Asks.{Room, TypesExpr, TypesWant, TypesLet, TypesIf, TypesOp, TypesAdj, TypesFit};

use super::lists::{call, case_of, make};
use super::words::{PlainType, Typed, answer, channel, is_named, operand, outcome};
use heads::places::{Place, SCOPE_WORDS, inside, moved, widened};
use heads::{Form, head_at};
use index::frames::frame_line;
use index::{INDEX_WORDS, put, word_at};
use language::limits::{NESTING_MOST, SIZE_VARIABLES_MOST};

// An expression with so many levels left.
#[cycle(typing)]
pub fn expr(
    text: &[u8],
    index: &[u32; INDEX_WORDS],
    scope: &mut [u32; SCOPE_WORDS],
    p: Place,
) -> Option<Typed>
    requires { Room 0 p }
    ensures { TypesExpr text.now index.now scope.old p result scope.new }
{
    if p.levels == 0 {
        return None;
    }
    let line = frame_line(text, index, p.line);
    let head = head_at(line, p.at);
    let next = head.next;
    let q = inside(p, next);
    match head.form {
        Form::Bool(_) => answer(PlainType::Bool, next),
        Form::Int(_) => answer(PlainType::Int, next),
        Form::Variable(v) => answer(PlainType::from(word_at(scope, v as usize)), next),
        Form::Now(c) => channel(index, c, next),
        Form::Last(c) => channel(index, c, next),
        Form::Let => binding(text, index, scope, q),
        Form::If => choice(text, index, scope, q),
        Form::Operator(o) => operation(text, index, scope, q, o),
        Form::Call(f) => call(text, index, scope, q, f),
        Form::Construct(t, c) => make(text, index, scope, q, t, c),
        Form::Case(t) => case_of(text, index, scope, q, t),
        Form::Adjust => adjust(text, index, scope, q),
        Form::Fit(_) => fit(text, index, scope, q),
        Form::Missing => None,
    }
}

// An expression of the type that is wanted.
#[cycle(typing)]
pub fn expect(
    text: &[u8],
    index: &[u32; INDEX_WORDS],
    scope: &mut [u32; SCOPE_WORDS],
    p: Place,
    of: PlainType,
) -> Option<Typed>
    requires { Room 0 p }
    ensures { TypesWant text.now index.now scope.old p of result scope.new }
{
    let k = expr(text, index, scope, p)?;
    if k.of != of {
        return None;
    }
    Some(k)
}

// `15`: let.
#[cycle(typing)]
fn binding(
    text: &[u8],
    index: &[u32; INDEX_WORDS],
    scope: &mut [u32; SCOPE_WORDS],
    p: Place,
) -> Option<Typed>
    requires { Room 1 p }
    ensures { TypesLet text.now index.now scope.old p result scope.new }
{
    let k = expr(text, index, scope, p)?;
    put(scope, p.variables as usize, u32::from(k.of));
    expr(text, index, scope, widened(p, k.next, 1))
}

// `16`: if, whose arms have one type.
#[cycle(typing)]
fn choice(
    text: &[u8],
    index: &[u32; INDEX_WORDS],
    scope: &mut [u32; SCOPE_WORDS],
    p: Place,
) -> Option<Typed>
    requires { Room 1 p }
    ensures { TypesIf text.now index.now scope.old p result scope.new }
{
    let a = expect(text, index, scope, p, PlainType::Bool)?;
    let b = expr(text, index, scope, moved(p, a.next))?;
    expect(text, index, scope, moved(p, b.next), b.of)
}

// `17`: an operator, its code o.
#[cycle(typing)]
fn operation(
    text: &[u8],
    index: &[u32; INDEX_WORDS],
    scope: &mut [u32; SCOPE_WORDS],
    p: Place,
    o: u32,
) -> Option<Typed>
    requires { Room 1 p }
    ensures { TypesOp text.now index.now scope.old p o result scope.new }
{
    let of = operand(o);
    let a = expect(text, index, scope, p, of)?;
    let b = expect(text, index, scope, moved(p, a.next), of)?;
    answer(outcome(o), b.next)
}

// `1B`: adj, whose subject is of a named type.
#[cycle(typing)]
fn adjust(
    text: &[u8],
    index: &[u32; INDEX_WORDS],
    scope: &mut [u32; SCOPE_WORDS],
    p: Place,
) -> Option<Typed>
    requires { Room 1 p }
    ensures { TypesAdj text.now index.now scope.old p result scope.new }
{
    let line = frame_line(text, index, p.line);
    let next = p.at.size(line, SIZE_VARIABLES_MOST, NESTING_MOST).ok()?;
    let k = expr(text, index, scope, moved(p, next))?;
    if !is_named(k.of) {
        return None;
    }
    Some(k)
}

// `1C`: fit, whose subject is of a named type and a variable of its first arm.
#[cycle(typing)]
fn fit(
    text: &[u8],
    index: &[u32; INDEX_WORDS],
    scope: &mut [u32; SCOPE_WORDS],
    p: Place,
) -> Option<Typed>
    requires { Room 1 p }
    ensures { TypesFit text.now index.now scope.old p result scope.new }
{
    let a = expr(text, index, scope, p)?;
    if !is_named(a.of) {
        return None;
    }
    put(scope, p.variables as usize, u32::from(a.of));
    let b = expr(text, index, scope, widened(p, a.next, 1))?;
    expect(text, index, scope, moved(p, b.next), b.of)
}
