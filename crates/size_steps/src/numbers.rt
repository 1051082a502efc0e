// What a form makes of the answers of its parts: its type and its numbers.
ghost use Rattle.size_steps.specs.Leaves.{leaf_of, OperatorType, subject_of};
ghost use Rattle.std.specs.Prelude.{◌≡◌};
ghost use Rattle.language.specs.Sizes.{same_type};
ghost use Rattle.sizes.specs.Promises.{meaning, WordOf};
ghost use Rattle.size_steps.specs.Numbers.{counted_as, LetNumbers, IfNumbers, OpNumbers, CallNumbers, CaseNumbers, EitherNumbers, LargerNumbers, SlotNumbers, adjusted_to, FitNumbers, NoneCounted, Joins, passed_to, NothingYet};

use super::{Checked, Counted, Site, Subject};
use estimate::{Estimate, after, either, in_call, nothing, one_cell, with_slots};
use language::codes::OPERATOR_TIMES;
use language::refusals::RefusalAt;
use sizes::SizedType;
use text::Cursor;

// A constant, a variable or a channel, which ends where the site is.
pub fn leaf(ty: SizedType, numbers: Estimate, p: Site) -> Result<Checked, RefusalAt>
    ensures { result ≡ leaf_of ty numbers p }
{
    Ok(Checked {
        ty,
        numbers,
        next: p.place.at,
        used: p.used,
    })
}

// The type of an operation by its operator: `00` to `02` give Int.
pub fn operator_type(o: u32) -> SizedType
    ensures { OperatorType o result }
{
    if o <= OPERATOR_TIMES {
        return SizedType::Int;
    }
    SizedType::Bool
}

// A checked expression with other numbers.
fn counted(b: Checked, numbers: Estimate) -> Result<Checked, RefusalAt>
    ensures { result ≡ counted_as b numbers }
{
    Ok(Checked { numbers, ..b })
}

// The word of a checked expression's type.
pub fn type_word(a: Checked) -> u32
    ensures { WordOf a.ty result }
{
    u32::from(a.ty)
}

// Whether a checked expression is of this type.
pub fn is_type(a: Checked, ty: SizedType) -> bool
    ensures { result ≡ same_type (meaning a.ty) (meaning ty) }
{
    a.ty == ty
}

// Whether two checked expressions are of the same type.
pub fn agree(a: Checked, b: Checked) -> bool
    ensures { result ≡ same_type (meaning a.ty) (meaning b.ty) }
{
    is_type(a, b.ty)
}

// A let: a, and then b with a slot more.
pub fn with_let(a: Checked, b: Checked) -> Result<Checked, RefusalAt>
    ensures { LetNumbers a b result }
{
    let numbers = after(a.numbers, with_slots(1, b.numbers));
    counted(b, numbers)
}

// An if: a, and then b or d.
pub fn chosen(a: Checked, b: Checked, d: Checked) -> Result<Checked, RefusalAt>
    ensures { IfNumbers a b d result }
{
    let numbers = after(a.numbers, either(b.numbers, d.numbers));
    counted(d, numbers)
}

// An operation: a, b, and a cell for the result.
pub fn operated(o: u32, a: Checked, b: Checked) -> Result<Checked, RefusalAt>
    ensures { OpNumbers o a b result }
{
    let numbers = after(after(a.numbers, b.numbers), one_cell());
    let ty = operator_type(o);
    Ok(Checked { ty, numbers, ..b })
}

// A call of n arguments: a, and then the body b inside a call, with a slot for each argument.
pub fn called(n: u32, a: Counted, b: Checked) -> Result<Checked, RefusalAt>
    ensures { CallNumbers n a b result }
{
    let numbers = with_slots(n, after(a.numbers, in_call(b.numbers)));
    counted(b, numbers)
}

// A case: the subject a, and then its branches b.
pub fn cased(a: Checked, b: Checked) -> Result<Checked, RefusalAt>
    ensures { CaseNumbers a b result }
{
    let numbers = after(a.numbers, b.numbers);
    counted(b, numbers)
}

// Branches: a or b; the answer ends behind b.
pub fn branched(a: Checked, b: Checked) -> Result<Checked, RefusalAt>
    ensures { EitherNumbers a b result }
{
    let numbers = either(a.numbers, b.numbers);
    counted(b, numbers)
}

// A branch at splits so far, and at one more.
pub fn larger(all: Checked, a: Checked) -> Checked
    ensures { LargerNumbers all a result }
{
    let numbers = either(all.numbers, a.numbers);
    Checked {
        ty: all.ty,
        numbers,
        ..a
    }
}

// A branch at all splits, with a slot for each of n fields.
pub fn slotted(n: u32, all: Checked) -> Result<Checked, RefusalAt>
    ensures { SlotNumbers n all result }
{
    let numbers = with_slots(n, all.numbers);
    counted(all, numbers)
}

// An expression of type t adjusted to size k.
pub fn adjusted(t: u8, k: u8, a: Checked) -> Result<Checked, RefusalAt>
    ensures { result ≡ adjusted_to t k a }
{
    Ok(Checked {
        ty: SizedType::Named(t, k),
        ..a
    })
}

// A fit: a, and then b with a slot more, or d.
pub fn fitted(a: Checked, b: Checked, d: Checked) -> Result<Checked, RefusalAt>
    ensures { FitNumbers a b d result }
{
    let numbers = after(a.numbers, either(with_slots(1, b.numbers), d.numbers));
    counted(d, numbers)
}

// No part so far, with so many instances entered.
pub fn none(next: Cursor, used: u32) -> Counted
    ensures { NoneCounted next used result }
{
    Counted {
        numbers: nothing(),
        next,
        used,
    }
}

// No part so far, of those from a site on.
pub fn none_at(p: Site) -> Counted
    ensures { NoneCounted p.place.at p.used result }
{
    none(p.place.at, p.used)
}

// The parts so far, and then one more.
pub fn joined(all: Counted, a: Checked) -> Counted
    ensures { Joins all a result }
{
    let numbers = after(all.numbers, a.numbers);
    Counted {
        numbers,
        next: a.next,
        used: a.used,
    }
}

// The parts so far, and then one that takes nothing.
pub fn passed(all: Counted, next: Cursor) -> Counted
    ensures { result ≡ passed_to all next }
{
    Counted { next, ..all }
}

// A branch of this type before its first split.
pub fn nothing_yet(ty: SizedType, p: Site) -> Checked
    ensures { NothingYet ty p result }
{
    Checked {
        ty,
        numbers: nothing(),
        next: p.place.at,
        used: p.used,
    }
}

// The subject of a case.
pub fn subject(t: u32, m: u8, ty: SizedType) -> Subject
    ensures { result ≡ subject_of t m ty }
{
    Subject { of: t, size: m, ty }
}
