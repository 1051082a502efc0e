// What an operator gives of two cells: "sums, differences and products wrap", comparisons are signed; and whether the left side of and,
// or decides alone.
#![tactic(auto)]

ghost use Rattle.std.specs.Prelude.{◌≡◌, ◌*◌, ◌%◌, ◌<◌, ◌≤◌};
ghost use Rattle.language.specs.Limits.{int_range};
ghost use Rattle.language.specs.Codes.{operator_equal, operator_and};
ghost use Rattle.language.specs.Heap.{kbool, kint, signed_less};
ghost use Rattle.new_cells.specs.Steps.{Board, Gives};
ghost use Rattle.new_cells.specs.Asked.{Computes, Decides, Operates};

use index::one_if;
use language::codes::{
    OPERATOR_AND, OPERATOR_EQUAL, OPERATOR_LESS, OPERATOR_MINUS, OPERATOR_OR, OPERATOR_PLUS,
};
use language::limits::{INT_RANGE, SIGN_BIT};
use language::refusals::Refusal;
use new_cells::{Value, new_bool, new_int};
use state_words::reads::{number, truth};

// The product of two Ints.
fn times(a: u32, b: u32) -> u32
    ensures { result ≡ (a * b) % int_range }
{
    (u64::from(a) * u64::from(b) % INT_RANGE) as u32
}

// Whether an Int is less than another, by their bits with the sign turned over.
fn less(a: u32, b: u32) -> bool
    ensures { result ≡ signed_less a b }
{
    std::num::wrapping_add_u32(a, SIGN_BIT) < std::num::wrapping_add_u32(b, SIGN_BIT)
}

// The sum, the difference or the product. An operator stays its code here and below: the clauses hold of any byte, so that an enum with a
// variant for the other codes would be no plainer.
fn arithmetic(o: u32, a: u32, b: u32) -> u32
    requires { o < operator_equal }
    ensures { Computes o (kint a) (kint b) (kint result) }
{
    match o {
        OPERATOR_PLUS => std::num::wrapping_add_u32(a, b),
        OPERATOR_MINUS => std::num::wrapping_sub_u32(a, b),
        _ => times(a, b),
    }
}

// Whether two Ints are equal, less, or at most.
fn compares(o: u32, a: u32, b: u32) -> bool
    requires operator_equal_le_o { operator_equal ≤ o }
    requires o_lt_operator_and { o < operator_and }
    ensures { Computes o (kint a) (kint b) (kbool result) }
{
    match o {
        OPERATOR_EQUAL => a == b,
        OPERATOR_LESS => less(a, b),
        _ => !less(b, a),
    }
}

// And, or.
fn logic(o: u32, a: bool, b: bool) -> bool
    requires { operator_and ≤ o }
    ensures { Computes o (kbool a) (kbool b) (kbool result) }
{
    if o == OPERATOR_AND {
        return a & b;
    }
    a | b
}

// Whether the left side alone decides: of and one that does not hold, of or one that holds.
pub fn decides(o: u32, left: bool) -> bool
    ensures { Decides o left result }
{
    match o {
        OPERATOR_AND => !left,
        OPERATOR_OR => left,
        _ => false,
    }
}

// The cell of what an operator gives of the constants in two cells.
pub fn operate(state: &mut [u32], used: u32, o: u32, l: u32, m: u32) -> Result<Value, Refusal>
    requires { Board state.old used }
    ensures { Gives state.old used (Operates o l m) result state.new }
{
    if o >= OPERATOR_AND {
        let holds = logic(o, truth(state, used, l), truth(state, used, m));
        return new_bool(state, used, one_if(holds));
    }
    let a = number(state, used, l);
    let b = number(state, used, m);
    if o >= OPERATOR_EQUAL {
        return new_bool(state, used, one_if(compares(o, a, b)));
    }
    new_int(state, used, arithmetic(o, a, b))
}
