// Type frames: what stands behind the kind is read, and the type's entry written.
ghost use Rattle.std.specs.Prelude.{◌≡◌, ◌+◌, ◌*◌, ◌%◌, ◌<◌, get_or};
ghost use Rattle.language.specs.Limits.{byte_range};
ghost use Rattle.index.specs.Tables.{constructor_words, type_words};
ghost use Rattle.index.specs.Sections.{types_of};
ghost use Rattle.index.specs.Indexed.{field_at};
ghost use Rattle.index.specs.Enters.{SelfFree};

use super::{
    CONSTRUCTOR_HEAD, CONSTRUCTOR_WORDS, INDEX_WORDS, TYPE_HEAD, TYPE_TABLE, TYPE_WORDS,
    TYPES_FROM, section_word,
};
use language::codes::FIELD_OWN;
use language::limits::BYTE_RANGE;

// From a type's entry on, where a constructor's count of fields of the type itself stands, and the word of its first field.
const OWN_COUNT: usize = TYPE_HEAD + 1;

const FIRST_FIELD: usize = TYPE_HEAD + CONSTRUCTOR_HEAD;

// The word of a field of the type itself.
pub const OWN_FIELD: u32 = FIELD_OWN;

// A word of the section of types.
fn type_word(index: &[u32; INDEX_WORDS], i: usize) -> u32
    ensures { result ≡ get_or (types_of index.now) i 0 }
{
    section_word(index, TYPES_FROM, TYPE_TABLE, i)
}

// How many constructors a type has.
pub fn constructors(index: &[u32; INDEX_WORDS], t: u32) -> u32
    ensures { (result ≡ get_or (types_of index.now) (type_words * t) 0 % byte_range) × (result < byte_range) }
{
    type_word(index, TYPE_WORDS * (t as usize)) % BYTE_RANGE
}

// How many fields a constructor has, how many of them are of the type itself, and the word of one.
pub fn fields(index: &[u32; INDEX_WORDS], t: u32, c: u32) -> u32
    ensures { (result ≡ get_or (types_of index.now) (type_words * t + 1 + constructor_words * c) 0 % byte_range) × (result < byte_range) }
{
    let entry = TYPE_WORDS * (t as usize) + TYPE_HEAD + CONSTRUCTOR_WORDS * (c as usize);
    type_word(index, entry) % BYTE_RANGE
}

pub fn own_fields(index: &[u32; INDEX_WORDS], t: u32, c: u32) -> u32
    ensures { (result ≡ get_or (types_of index.now) (type_words * t + 2 + constructor_words * c) 0 % byte_range) × (result < byte_range) }
{
    let entry = TYPE_WORDS * (t as usize) + OWN_COUNT + CONSTRUCTOR_WORDS * (c as usize);
    type_word(index, entry) % BYTE_RANGE
}

pub fn field_word(index: &[u32; INDEX_WORDS], t: u32, c: u32, i: u32) -> u32
    ensures { result ≡ field_at (types_of index.now) t c i }
{
    let first = TYPE_WORDS * (t as usize) + FIRST_FIELD + CONSTRUCTOR_WORDS * (c as usize);
    type_word(index, first + (i as usize))
}

// Whether a type has a constructor without a field of the type itself.
pub fn self_free(index: &[u32; INDEX_WORDS], t: u32) -> bool
    ensures { SelfFree (types_of index.now) t result }
{
    let n = constructors(index, t);
    for c in 0..n {
        if own_fields(index, t, c) == 0 {
            return true;
        }
    }
    false
}
