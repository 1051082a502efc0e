// The checker's list of instances, as words: a record is the function, its sizes and its three numbers.
#![tactic(auto)]

ghost use Rattle.std.specs.Prelude.{◌≡◌, ◌+◌, ◌^◌, ◌<◌, ◌≤◌, length, replicate};
ghost use Rattle.std.proofs.lemmas.List.Edits.{sets};
ghost use Rattle.language.specs.Limits.{parameters_most};
ghost use Rattle.language.specs.Layout.{padded};
ghost use Rattle.instances.specs.Listed.{hint_words, result_word, Finds, Notes, Adds, Finishes, number_words};
ghost use Rattle.instances.specs.Matches.{Compared, Matches, Numbers};

use estimate::{Estimate, nothing};
use index::{byte_at, put, word_at};
use language::limits::{INSTANCES_MOST, PARAMETERS_MOST};

// Where the numbers of a record start, behind the function and its sizes; the environment is the first of them.
pub const NUMBERS_FROM: usize = 1 + PARAMETERS_MOST;

pub const HEAP_WORD: usize = 1;

pub const STACK_WORD: usize = 2;

// The words of a record: the function, its sizes, environment, heap and stack.
pub const INSTANCE_WORDS: usize = NUMBERS_FROM + STACK_WORD + 1;

// How many hints there are. A hint is one more than the number of the record that was added last among those with the same place
// for it, or 0. It never changes an answer: the record that it names is compared.
const HINT_WORDS: usize = INSTANCES_MOST;

// What is kept beside the list: the hints, and behind them for each record the word of its function's result type at its sizes.
pub const MEMO_WORDS: usize = HINT_WORDS + INSTANCES_MOST;

// Odd, so that instances that differ in one size only have different places.
const HINT_FACTOR: usize = 149;

// Whether the words from a place on are these sizes; the list has them.
fn same_sizes(list: &[u32], from: usize, sizes: &[u8]) -> bool
    requires { from + parameters_most ≤ length list.now }
    ensures { Compared list.now from sizes.now result }
{
    for j in 0..PARAMETERS_MOST {
        if list[from + j] != byte_at(sizes, j) {
            return false;
        }
    }
    true
}

// Whether record i is the instance of f at these sizes.
fn is_instance(list: &[u32], i: u32, f: u32, sizes: &[u8]) -> bool
    ensures { Matches list.now i f sizes.now result }
{
    let at = INSTANCE_WORDS * (i as usize);
    if list.len() < at + INSTANCE_WORDS {
        return false;
    }
    if list[at] != f {
        return false;
    }
    same_sizes(list, at + 1, sizes)
}

// The numbers of record i.
pub fn numbers(list: &[u32], i: u32) -> Estimate
    ensures { Numbers list.now i result }
{
    let at = INSTANCE_WORDS * (i as usize) + NUMBERS_FROM;
    let env = word_at(list, at);
    let heap = word_at(list, at + HEAP_WORD);
    let stack = word_at(list, at + STACK_WORD);
    Estimate { env, heap, stack }
}

// Where the hint of an instance stands.
fn hint_place(f: u32, sizes: &[u8]) -> usize
    ensures { result < hint_words }
{
    let mut h = f as usize % HINT_WORDS;
    for j in 0..PARAMETERS_MOST {
        h = (h * HINT_FACTOR + byte_at(sizes, j) as usize) % HINT_WORDS;
    }
    h
}

// The first of the records in use that is the instance of f at these sizes.
fn walk(list: &[u32], used: u32, f: u32, sizes: &[u8]) -> Option<u32>
    ensures { Finds list.now used f sizes.now result }
{
    for i in 0..used {
        if is_instance(list, i, f, sizes) {
            return Some(i);
        }
    }
    None
}

// The record in use that is the instance of f at these sizes: the one that the hint names is tried before the walk through all of
// them.
pub fn find(list: &[u32], memo: &[u32; MEMO_WORDS], used: u32, f: u32, sizes: &[u8]) -> Option<u32>
    ensures { Finds list.now used f sizes.now result }
{
    let k = memo[hint_place(f, sizes)];
    if 0 < k && k <= used {
        let hinted = k - 1;
        if is_instance(list, hinted, f, sizes) {
            return Some(hinted);
        }
    }
    walk(list, used, f, sizes)
}

// Writes the sizes from a place on.
fn put_sizes(list: &mut [u32], from: usize, sizes: &[u8])
    requires { from < 2 ^ 62 }
    ensures { list.new ≡ sets list.old from (padded parameters_most sizes.now) }
{
    for j in 0..PARAMETERS_MOST {
        let size = byte_at(sizes, j);
        put(list, from + j, size);
    }
}

// Writes three numbers from a place on.
fn put_numbers(list: &mut [u32], from: usize, x: Estimate)
    requires { from < 2 ^ 62 }
    ensures { list.new ≡ sets list.old from (number_words x) }
{
    put(list, from, x.env);
    put(list, from + HEAP_WORD, x.heap);
    put(list, from + STACK_WORD, x.stack);
}

// Notes the record behind those in use as the one to look at first for f at these sizes, and the word of its result type.
fn note(memo: &mut [u32; MEMO_WORDS], used: u32, f: u32, sizes: &[u8], word: u32)
    ensures { Notes memo.old used word memo.new }
{
    if INSTANCES_MOST <= used as usize {
        return;
    }
    let place = hint_place(f, sizes);
    put(memo, place, used + 1);
    put(memo, HINT_WORDS + (used as usize), word);
}

// Writes the record behind those in use, f at these sizes, its numbers 0, the hint to it and the word of its result type. Where it
// does not fit no record is written.
pub fn add(
    list: &mut [u32],
    memo: &mut [u32; MEMO_WORDS],
    used: u32,
    f: u32,
    sizes: &[u8],
    word: u32,
)
    ensures { Adds list.old used f sizes.now list.new × Notes memo.old used word memo.new }
{
    note(memo, used, f, sizes, word);
    let at = INSTANCE_WORDS * (used as usize);
    if list.len() < at + INSTANCE_WORDS {
        return;
    }
    put(list, at, f);
    put_sizes(list, at + 1, sizes);
    put_numbers(list, at + NUMBERS_FROM, nothing());
}

// The word of the result type of record i.
pub fn result_word(memo: &[u32; MEMO_WORDS], i: u32) -> u32
    ensures { result ≡ result_word memo.now i }
{
    word_at(memo, HINT_WORDS + (i as usize))
}

// Writes the numbers of record i. Where it is not there nothing is written.
pub fn finish(list: &mut [u32], i: u32, x: Estimate)
    ensures { Finishes list.old i x list.new }
{
    let at = INSTANCE_WORDS * (i as usize);
    if list.len() < at + INSTANCE_WORDS {
        return;
    }
    put_numbers(list, at + NUMBERS_FROM, x);
}

// Every word 0: `index::clear` under the name of the list, kept for the crates above.
pub fn clear(list: &mut [u32])
    ensures { list.new ≡ replicate (length list.old) 0 }
{
    list.fill(0);
}
