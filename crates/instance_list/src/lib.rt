// The lent list of instances, a slice of structs: a record added, a record found, and the list filled from the words in which the
// checker keeps it.
#![tactic(auto)]

ghost use Rattle.std.specs.Prelude.{◌≡◌, ◌^◌, ◌<◌, length, set, replicate};
ghost use Rattle.instance_list.specs.Records.{none, records_words, used_in, sizes_from, record_at, filled, same_key, FindsPlace};

use index::{put, word_at};
use instances::{HEAP_WORD, INSTANCE_WORDS, NUMBERS_FROM, STACK_WORD};
use language::limits::{INSTANCES_MOST, PARAMETERS_MOST};

// The words of all records.
const RECORDS_WORDS: usize = INSTANCES_MOST * INSTANCE_WORDS;

// The words in which the checker keeps its list: the records, and behind them how many are in use.
pub const LIST_WORDS: usize = RECORDS_WORDS + 1;

// A record of the list: a function, its sizes, unused 0, and its three numbers.
#[repr(C)]
#[derive(Clone, Copy)]
pub struct Instance {
    pub function: u32,
    pub sizes: [u32; PARAMETERS_MOST],
    pub environment: u32,
    pub heap: u32,
    pub stack: u32,
}

// A record that is not in use.
fn empty() -> Instance
    ensures { result ≡ none }
{
    Instance {
        function: 0,
        sizes: [0u32; PARAMETERS_MOST],
        environment: 0,
        heap: 0,
        stack: 0,
    }
}

// How many records of the words are in use.
fn used_in(words: &[u32]) -> usize
    ensures { result ≡ used_in words.now }
{
    word_at(words, RECORDS_WORDS) as usize
}

// Writes how many they are.
pub fn put_used(words: &mut [u32], used: u32)
    ensures { words.new ≡ set words.old records_words used }
{
    put(words, RECORDS_WORDS, used);
}

// The sizes from a word on.
fn sizes_at(words: &[u32], from: usize) -> [u32; PARAMETERS_MOST]
    requires { from < 2 ^ 62 }
    ensures { result ≡ sizes_from words.now from }
{
    let mut sizes = [0u32; PARAMETERS_MOST];
    for j in 0..PARAMETERS_MOST {
        sizes[j] = word_at(words, from + j);
    }
    sizes
}

// Record i of the words; there are no more than INSTANCES_MOST.
fn record_at(words: &[u32], i: usize) -> Instance
    ensures { result ≡ record_at words.now i }
{
    if INSTANCES_MOST <= i {
        return empty();
    }
    let at = INSTANCE_WORDS * i;
    let numbers = at + NUMBERS_FROM;
    let function = word_at(words, at);
    let sizes = sizes_at(words, at + 1);
    let environment = word_at(words, numbers);
    let heap = word_at(words, numbers + HEAP_WORD);
    let stack = word_at(words, numbers + STACK_WORD);
    Instance {
        function,
        sizes,
        environment,
        heap,
        stack,
    }
}

// Writes a record behind those in use, if there is room.
pub fn add(list: &mut [Instance], used: usize, r: Instance)
    ensures { list.new ≡ set list.old used r }
{
    if used < list.len() {
        list[used] = r;
    }
}

// Every record empty.
pub fn clear(list: &mut [Instance])
    ensures { list.new ≡ replicate (length list.old) none }
{
    list.fill(empty());
}

// The list as the words keep it, and empty records behind those in use.
pub fn fill(words: &[u32], list: &mut [Instance])
    ensures { list.new ≡ filled words.now (length list.old) }
{
    clear(list);
    let used = used_in(words);
    for i in 0..used {
        let r = record_at(words, i);
        add(list, i, r);
    }
}

// Whether two records are of one function at the same sizes.
fn same(r: Instance, key: Instance) -> bool
    ensures { result ≡ same_key r key }
{
    r.function == key.function && r.sizes == key.sizes
}

// The place of the first record that has the key's function and sizes, or the length: a number, since the C interface answers one.
pub fn find(list: &[Instance], key: Instance) -> usize
    ensures { FindsPlace list.now key result }
{
    for (i, r) in list.iter().enumerate() {
        if same(*r, key) {
            return i;
        }
    }
    list.len()
}
