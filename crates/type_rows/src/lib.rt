// Rows of type words, as the size checker keeps them: the fields of a constructor, the types of values, their sizes.
#![tactic(auto)]

ghost use Rattle.std.specs.Prelude.{◌≡◌, ◌<◌, set};
ghost use Rattle.language.specs.Limits.{byte_range};
ghost use Rattle.index.specs.Sections.{types_of};
ghost use Rattle.type_rows.specs.Rows.{size_in, field_agrees, bound_word, NamedSizes, OwnSum, FieldsAgree, FieldsBound};

use index::types::{OWN_FIELD, field_word, fields};
use index::{INDEX_WORDS, byte_at, one_if, put, word_at};
use text::TYPE_STEP;

// Writes a size; beyond the sizes nothing. Of bytes what `index::put` is of words: a generic one would ask for a bound and be no plainer.
fn put_size(sizes: &mut [u8], i: usize, size: u8)
    ensures { sizes.new ≡ set sizes.old i size }
{
    if i < sizes.len() {
        sizes[i] = size;
    }
}

// The size in the word of a type, 0 of Bool and Int.
fn size_in(word: u32) -> u32
    ensures { (result ≡ size_in word) × (result < byte_range) }
{
    if word < TYPE_STEP {
        return 0;
    }
    word % TYPE_STEP
}

// Whether the type of a value is that of the field, a field of the type t itself at any size.
fn field_agrees(field: u32, word: u32, t: u32) -> bool
    ensures { result ≡ field_agrees field word t }
{
    if field == OWN_FIELD {
        return (word / TYPE_STEP) as u64 == (t as u64) + 1;
    }
    field == word
}

// The word of the type of a field, one of the type t itself at a size.
fn bound_word(field: u32, t: u32, size: u32) -> u32
    requires { size < byte_range }
    ensures { result ≡ bound_word field t size }
{
    if field == OWN_FIELD {
        return TYPE_STEP * (t % TYPE_STEP + 1) + size;
    }
    field
}

// Writes the sizes of the named types among the first n words of a row, from 0 on; how many.
pub fn named_sizes(row: &[u32], n: u32, sizes: &mut [u8]) -> u32
    ensures { NamedSizes row.now n sizes.old result sizes.new }
{
    let mut count: u32 = 0;
    for i in 0..n {
        let word = word_at(row, i as usize);
        if TYPE_STEP <= word {
            put_size(sizes, count as usize, (word % TYPE_STEP) as u8);
            count += 1;
        }
    }
    count
}

// The sum of the sizes of the values at a constructor's fields of its own type; the row has the words of all its values' types.
pub fn own_sum(index: &[u32; INDEX_WORDS], row: &[u32], t: u32, c: u32) -> u32
    ensures { OwnSum (types_of index.now) row.now t c result }
{
    let n = fields(index, t, c);
    let mut sum: u32 = 0;
    for i in 0..n {
        if field_word(index, t, c, i) == OWN_FIELD {
            sum += size_in(word_at(row, i as usize));
        }
    }
    sum
}

// Whether the type of each value is exactly that of its field.
pub fn fields_agree(index: &[u32; INDEX_WORDS], row: &[u32], t: u32, c: u32) -> bool
    ensures { FieldsAgree (types_of index.now) row.now t c result }
{
    let n = fields(index, t, c);
    for i in 0..n {
        let field = field_word(index, t, c, i);
        let word = word_at(row, i as usize);
        if !field_agrees(field, word, t) {
            return false;
        }
    }
    true
}

// Writes the types of a constructor's fields into the scope from place `to` on, those of its own type at the sizes from `from` on.
pub fn bind_fields(
    index: &[u32; INDEX_WORDS],
    scope: &mut [u32],
    sizes: &[u8],
    t: u32,
    c: u32,
    to: u32,
    from: u32,
)
    ensures { FieldsBound (types_of index.now) scope.old sizes.now t c to from scope.new }
{
    let n = fields(index, t, c);
    let mut next: u32 = 0;
    for i in 0..n {
        let field = field_word(index, t, c, i);
        let size = byte_at(sizes, (from as usize) + (next as usize));
        let word = bound_word(field, t, size);
        put(scope, (to as usize) + (i as usize), word);
        next += one_if(field == OWN_FIELD);
    }
}
