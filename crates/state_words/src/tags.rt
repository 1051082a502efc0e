// Tags: a Bool, an Int, or a type and its constructor; numbers, since they are words of the state, which the C interface lends.
ghost use Rattle.std.specs.Prelude.{◌≡◌, ◌+◌, ◌-◌, ◌*◌, ◌/◌, ◌%◌, ◌<◌, ◌≤◌, eqb};
ghost use Rattle.language.specs.Limits.{byte_range};
ghost use Rattle.language.specs.Layout.{tag_step};
ghost use Rattle.index.specs.Sections.{types_of};
ghost use Rattle.state_words.specs.Words.{field_count};

use index::INDEX_WORDS;
use index::types::fields;
use text::TYPE_STEP;

pub const BOOL_TAG: u32 = 1;

pub const INT_TAG: u32 = 2;

// The lowest tag of a constructor: a type's number and one, times this, and its constructor.
pub const CONSTRUCTOR_TAGS: u32 = TYPE_STEP;

// The tag of constructor c of type t.
pub fn constructor_tag(t: u32, c: u32) -> u32
    requires t_lt_byte_range { t < byte_range }
    requires c_lt_byte_range { c < byte_range }
    ensures { result ≡ tag_step * (t + 1) + c }
{
    TYPE_STEP * (t + 1) + c
}

// The type and the constructor of a tag.
pub fn tag_type(tag: u32) -> u32
    requires { tag_step ≤ tag }
    ensures { result ≡ tag / tag_step - 1 }
{
    tag / TYPE_STEP - 1
}

pub fn tag_constructor(tag: u32) -> u32
    ensures { result ≡ tag % tag_step }
{
    tag % TYPE_STEP
}

// Whether two tags, or a tag and the word of a type, name the same type.
pub fn same_type(a: u32, b: u32) -> bool
    ensures { result ≡ eqb (a / tag_step) (b / tag_step) }
{
    a / TYPE_STEP == b / TYPE_STEP
}

// The size in the word of a type.
pub fn word_size(word: u32) -> u32
    ensures { result ≡ word % tag_step }
{
    word % TYPE_STEP
}

// How many fields a cell with this tag has.
pub fn field_count(index: &[u32; INDEX_WORDS], tag: u32) -> u32
    ensures { (result ≡ field_count (types_of index.now) tag) × (result < byte_range) }
{
    if tag < CONSTRUCTOR_TAGS {
        return 0;
    }
    fields(index, tag_type(tag), tag_constructor(tag))
}
