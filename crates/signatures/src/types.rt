// Type frames: what stands behind the kind is read, and the type's entry written.
ghost use Rattle.std.specs.Prelude.{◌≡◌, ◌+◌, ◌*◌, ◌^◌, ◌<◌, length};
ghost use Rattle.language.specs.Parser.{many};
ghost use Rattle.language.specs.ReadExpr.{field as field_read};
ghost use Rattle.language.specs.Format.{spell_all};
ghost use Rattle.text.specs.Bytes.{bytes_from, IsPlace};
ghost use Rattle.index.specs.Tables.{type_words, constructor_entry, type_entry};
ghost use Rattle.index.specs.Sections.{index_words, types_from, type_table_words, types_of};
ghost use Rattle.index.specs.SectionLaws.{Outside};
ghost use Rattle.index.specs.Enters.{Enters, field_words, is_own, how_many, type_behind, constructor_behind};

use index::types::OWN_FIELD;
use index::{
    CONSTRUCTOR_HEAD, CONSTRUCTOR_WORDS, FUNCTIONS_FROM, INDEX_WORDS, TYPE_WORDS, TYPES_FROM,
    one_if, put, word_at,
};
use language::limits::{CONSTRUCTORS_MOST, FIELDS_MOST};
use language::refusals::Refusal;
use text::Cursor;

// Reads a field and writes its word.
fn field_into(
    line: &[u8],
    types: &mut [u32],
    c: Cursor,
    t: u32,
    to: usize,
) -> Result<Cursor, Refusal>
    ensures { Enters field_words line.now c.at to types.old result types.new (field_read t (bytes_from line.now c.at)) }
{
    let f = c.field(line, t)?;
    put(types, to, f.value);
    Ok(f.next)
}

// Reads so many fields, and writes their words from a place on.
fn fields_into(
    line: &[u8],
    types: &mut [u32],
    c: Cursor,
    t: u32,
    to: usize,
    n: u32,
) -> Result<Cursor, Refusal>
    requires to_bound { to < 2 ^ 62 }
    requires place { IsPlace line.now c.at }
    ensures { Enters (spell_all field_words) line.now c.at to types.old result types.new (many (field_read t) n (bytes_from line.now c.at)) }
{
    let mut next = c;
    for i in 0..n {
        next = field_into(line, types, next, t, to + (i as usize))?;
    }
    Ok(next)
}

// How many of n words from a place on are of fields of the type itself.
fn own_among(types: &[u32], from: usize, n: u32) -> u32
    requires { from < 2 ^ 62 }
    ensures { result ≡ how_many is_own types.now from n }
{
    let mut sum: u32 = 0;
    for i in 0..n {
        let word = word_at(types, from + (i as usize));
        sum += one_if(word == OWN_FIELD);
    }
    sum
}

// Reads a constructor and writes its entry.
fn constructor_into(
    line: &[u8],
    types: &mut [u32],
    c: Cursor,
    t: u32,
    to: usize,
) -> Result<Cursor, Refusal>
    requires { to < 2 ^ 61 }
    ensures { Enters constructor_entry line.now c.at to types.old result types.new (constructor_behind t (bytes_from line.now c.at)) }
{
    let f = c.count(line, 0, FIELDS_MOST as u32)?;
    let n = f.value;
    let next = f.next;
    let y = fields_into(line, types, next, t, to + CONSTRUCTOR_HEAD, n);
    let own = own_among(types, to + CONSTRUCTOR_HEAD, n);
    put(types, to, n);
    put(types, to + 1, own);
    y
}

// Reads so many constructors, and writes their entries from a place on.
fn constructors_into(
    line: &[u8],
    types: &mut [u32],
    c: Cursor,
    t: u32,
    to: usize,
    n: u32,
) -> Result<Cursor, Refusal>
    requires to_bound { to < 2 ^ 60 }
    requires place { IsPlace line.now c.at }
    ensures { Enters (spell_all constructor_entry) line.now c.at to types.old result types.new (many (constructor_behind t) n (bytes_from line.now c.at)) }
{
    let mut next = c;
    for i in 0..n {
        next = constructor_into(line, types, next, t, to + CONSTRUCTOR_WORDS * (i as usize))?;
    }
    Ok(next)
}

// Reads a type before which t types stand, and writes its entry into the section of types.
fn type_into(line: &[u8], types: &mut [u32], c: Cursor, t: u32) -> Result<Cursor, Refusal>
    ensures { Enters type_entry line.now c.at (type_words * t) types.old result types.new (type_behind t (bytes_from line.now c.at)) }
{
    let f = c.count(line, 1, CONSTRUCTORS_MOST as u32)?;
    let n = f.value;
    let next = f.next;
    let to = TYPE_WORDS * (t as usize);
    put(types, to, n);
    constructors_into(line, types, next, t, to + 1, n)
}

// The same for the whole index.
pub fn type_def(
    line: &[u8],
    index: &mut [u32; INDEX_WORDS],
    c: Cursor,
    t: u32,
) -> Result<Cursor, Refusal>
    ensures { Enters type_entry line.now c.at (type_words * t) (types_of index.old) result (types_of index.new) (type_behind t (bytes_from line.now c.at)) × Outside types_from type_table_words index.old index.new }
{
    type_into(line, &mut index[TYPES_FROM..FUNCTIONS_FROM], c, t)
}
