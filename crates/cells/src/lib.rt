// The worst cell count of a type at a size: recursion over type number and size, with a lent table of what is known already.
#![tactic(auto)]

ghost use Rattle.std.specs.Prelude.{◌≡◌, ◌+◌, ◌≤◌, get_or, set};
ghost use Rattle.language.specs.Limits.{number_most};
ghost use Rattle.cells.specs.Counts.{place, CountsCells, CountsOwn, CountsConstructor, CountsOthers, CountsField, CountsType, CountsChannels};

use estimate::{capped_larger, capped_sum};
use index::channels::declared_word;
use index::types::{OWN_FIELD, constructors, field_word, fields, own_fields};
use index::{INDEX_WORDS, put, word_at};
use language::limits::{FIELDS_MOST, SIZE_MOST, TYPES_MOST};
use text::TYPE_STEP;

// The lent table has a word for each size from 0 on, and such words for a type and for each number of values of it.
const SIZE_WORDS: usize = 1 + SIZE_MOST as usize;

const ROW_WORDS: usize = (1 + FIELDS_MOST) * SIZE_WORDS;

// Its words; all 0 where nothing is known.
pub const CELLS_TABLE: usize = TYPES_MOST * ROW_WORDS;

// Where the table says what is known of r values of type t and size m; r = 0: of one value of size at most m.
fn place_of(t: u32, r: u32, m: u32) -> usize
    ensures { result ≡ place t r m }
{
    ROW_WORDS * (t as usize) + SIZE_WORDS * (r as usize) + (m as usize)
}

// What is known: 0 nothing, else the number and one, and no Option: a table of zeros, in which nothing is known, is one clear.
fn known(table: &[u32; CELLS_TABLE], t: u32, r: u32, m: u32) -> u32
    ensures { result ≡ get_or table.now (place t r m) 0 }
{
    word_at(table, place_of(t, r, m))
}

// Makes a number known.
fn note(table: &mut [u32; CELLS_TABLE], t: u32, r: u32, m: u32, number: u32)
    requires { number ≤ number_most }
    ensures { table.new ≡ set table.old (place t r m) (1 + number) }
{
    put(table, place_of(t, r, m), 1 + number);
}

// The most cells of a value of type t and size at most k.
#[cycle(cell_counts)]
pub fn cells(index: &[u32; INDEX_WORDS], table: &mut [u32; CELLS_TABLE], t: u32, k: u32) -> u32
    ensures { CountsCells index.now table.old t k result table.new }
{
    if TYPES_MOST as u32 <= t {
        return 0;
    }
    if SIZE_MOST < k {
        return 0;
    }
    let word = known(table, t, 0, k);
    if word != 0 {
        return capped_sum(word - 1, 0);
    }
    let n = constructors(index, t);
    let mut most: u32 = 0;
    for c in 0..n {
        let made = constructor_cells(index, table, t, k, c);
        most = capped_larger(made, most);
    }
    note(table, t, 0, k, most);
    most
}

// The most cells of a value of size at most k that a constructor makes.
#[cycle(cell_counts)]
fn constructor_cells(
    index: &[u32; INDEX_WORDS],
    table: &mut [u32; CELLS_TABLE],
    t: u32,
    k: u32,
    c: u32,
) -> u32
    ensures { CountsConstructor index.now table.old t k c result table.new }
{
    let own = own_fields(index, t, c);
    if k <= own {
        return 0;
    }
    let others = other_cells(index, table, t, c);
    let owned = own_cells(index, table, t, own, k - 1);
    capped_sum(1, capped_sum(others, owned))
}

// The most cells of r values of type t whose sizes sum to at most m.
#[cycle(cell_counts)]
fn own_cells(
    index: &[u32; INDEX_WORDS],
    table: &mut [u32; CELLS_TABLE],
    t: u32,
    r: u32,
    m: u32,
) -> u32
    ensures { CountsOwn index.now table.old t r m result table.new }
{
    if r == 0 {
        return 0;
    }
    if m < r {
        return 0;
    }
    if (FIELDS_MOST as u32) < r {
        return 0;
    }
    let word = known(table, t, r, m);
    if word != 0 {
        return capped_sum(word - 1, 0);
    }
    let last = m - (r - 1);
    let mut most: u32 = 0;
    for p in 0..last {
        let first = cells(index, table, t, p + 1);
        let rest = own_cells(index, table, t, r - 1, m - (p + 1));
        let both = capped_sum(first, rest);
        most = capped_larger(both, most);
    }
    note(table, t, r, m, most);
    most
}

// The cells of a constructor's fields that are not of the type itself.
#[cycle(cell_counts)]
fn other_cells(index: &[u32; INDEX_WORDS], table: &mut [u32; CELLS_TABLE], t: u32, c: u32) -> u32
    ensures { CountsOthers index.now table.old t c result table.new }
{
    let n = fields(index, t, c);
    let mut sum: u32 = 0;
    for i in 0..n {
        let one = field_cells(index, table, t, c, i);
        sum = capped_sum(sum, one);
    }
    sum
}

// The cells of a field; none of one that is of the type itself.
#[cycle(cell_counts)]
fn field_cells(
    index: &[u32; INDEX_WORDS],
    table: &mut [u32; CELLS_TABLE],
    t: u32,
    c: u32,
    i: u32,
) -> u32
    ensures { CountsField index.now table.old t c i result table.new }
{
    let word = field_word(index, t, c, i);
    if word == OWN_FIELD {
        return 0;
    }
    if t < word / TYPE_STEP {
        return 0;
    }
    cells_of(index, table, word)
}

// The cells of a type given as a word.
#[cycle(cell_counts)]
pub fn cells_of(index: &[u32; INDEX_WORDS], table: &mut [u32; CELLS_TABLE], word: u32) -> u32
    ensures { CountsType index.now table.old word result table.new }
{
    if word < TYPE_STEP {
        return 1;
    }
    cells(index, table, word / TYPE_STEP - 1, word % TYPE_STEP)
}

// The cells of the first n channels' declared types, summed.
pub fn channels_cells(index: &[u32; INDEX_WORDS], table: &mut [u32; CELLS_TABLE], n: u32) -> u32
    ensures { CountsChannels index.now table.old n result table.new }
{
    let mut sum: u32 = 0;
    for i in 0..n {
        let word = declared_word(index, i);
        let one = cells_of(index, table, word);
        sum = capped_sum(sum, one);
    }
    sum
}
