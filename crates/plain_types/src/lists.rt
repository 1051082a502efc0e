// The forms with lists of expressions: calls, constructors and cases.
ghost use Rattle.std.specs.Prelude.{◌+◌, ◌^◌, ◌<◌};
ghost use Rattle.plain_types.specs.Asks.{Room, TypesCall, TypesCon, TypesSeveral, TypesCase, TypesBranches};

use super::exprs::expect;
use super::series::{BranchSeries, Series};
use super::words::{Typed, Want, answer, enter, named, result_type, returned, wanted};
use heads::places::{Place, SCOPE_WORDS, moved, widened};
use index::INDEX_WORDS;
use index::frames::frame_line;
use index::functions::arity;
use index::types::{constructors, fields};

// `18`: a call of function f.
#[cycle(typing)]
pub fn call(
    text: &[u8],
    index: &[u32; INDEX_WORDS],
    scope: &mut [u32; SCOPE_WORDS],
    p: Place,
    f: u32,
) -> Option<Typed>
    requires { Room 1 p }
    ensures { TypesCall text.now index.now scope.old p f result scope.new }
{
    let result = returned(text, index, f);
    let n = arity(index, f);
    let series = Series {
        of: Want::Parameters(f),
        first: 0,
        count: n,
        answer: result,
    };
    several(text, index, scope, p, series)
}

// `19`: constructor c of type t.
#[cycle(typing)]
pub fn make(
    text: &[u8],
    index: &[u32; INDEX_WORDS],
    scope: &mut [u32; SCOPE_WORDS],
    p: Place,
    t: u32,
    c: u32,
) -> Option<Typed>
    requires { Room 1 p }
    ensures { TypesCon text.now index.now scope.old p t c result scope.new }
{
    let result = named(t);
    let n = fields(index, t, c);
    let series = Series {
        of: Want::Fields(t, c),
        first: 0,
        count: n,
        answer: result,
    };
    several(text, index, scope, p, series)
}

// Expressions one after the other, each of the type that is wanted of it.
#[cycle(typing)]
fn several(
    text: &[u8],
    index: &[u32; INDEX_WORDS],
    scope: &mut [u32; SCOPE_WORDS],
    p: Place,
    series: Series,
) -> Option<Typed>
    requires { Room 0 p × (series.first + series.count < 2 ^ 32) }
    ensures { TypesSeveral text.now index.now scope.old p series result scope.new }
{
    let left = series.count;
    let result = series.answer;
    if left == 0 {
        return answer(result, p.at);
    }
    let of = series.of;
    let first = series.first;
    let one = wanted(index, of, first);
    let k = expect(text, index, scope, p, one)?;
    let others = Series {
        first: first + 1,
        count: left - 1,
        ..series
    };
    several(text, index, scope, moved(p, k.next), others)
}

// `1A`: a case over type t.
#[cycle(typing)]
pub fn case_of(
    text: &[u8],
    index: &[u32; INDEX_WORDS],
    scope: &mut [u32; SCOPE_WORDS],
    p: Place,
    t: u32,
) -> Option<Typed>
    requires { Room 1 p }
    ensures { TypesCase text.now index.now scope.old p t result scope.new }
{
    let subject = named(t);
    let k = expect(text, index, scope, p, subject)?;
    let line = frame_line(text, index, p.line);
    let result = result_type(line, k.next)?;
    let n = constructors(index, t);
    let series = BranchSeries {
        of: t,
        first: 0,
        count: n,
        answer: result.of,
    };
    branches(text, index, scope, moved(p, result.next), series)
}

// Branches one after the other, each with the fields of its constructor in scope.
#[cycle(typing)]
fn branches(
    text: &[u8],
    index: &[u32; INDEX_WORDS],
    scope: &mut [u32; SCOPE_WORDS],
    p: Place,
    series: BranchSeries,
) -> Option<Typed>
    requires { Room 1 p × (series.first + series.count < 2 ^ 32) }
    ensures { TypesBranches text.now index.now scope.old p series result scope.new }
{
    let left = series.count;
    let result = series.answer;
    if left == 0 {
        return answer(result, p.at);
    }
    let t = series.of;
    let c = series.first;
    let n = fields(index, t, c);
    enter(index, scope, Want::Fields(t, c), p.variables, n);
    let k = expect(text, index, scope, widened(p, p.at, n), result)?;
    let others = BranchSeries {
        first: c + 1,
        count: left - 1,
        ..series
    };
    branches(text, index, scope, moved(p, k.next), others)
}
