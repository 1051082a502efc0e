// Frames behind their kind: what stands there is judged, and the entry of the index written.
ghost use Rattle.std.specs.Prelude.{◌≡◌, ◌≤◌, Ok};
ghost use Rattle.language.specs.Limits.{functions_most};
ghost use Rattle.language.specs.Codes.{kind_first};
ghost use Rattle.language.specs.Parser.{decode};
ghost use Rattle.language.specs.Reader.{kinds};
ghost use Rattle.reader.specs.Held.{Few, Fits, PlaceWord, ReadsFunction, ReadsInput, ReadsNode, ReadsFrame, TypeTaken};
ghost use Rattle.reader.specs.Channels.{outside_names};
ghost use Rattle.reader.specs.Frames.{kind_end, meant, the_kind, Ordered, ended_as, one_more_of};
ghost use Rattle.reader.specs.Functions.{inside_names};

use expression_reader::{Names, expr};
use index::functions::{arity, named};
use index::types::self_free;
use index::{Counts, INDEX_WORDS};
use index_writer::{put_channel, put_places};
use language::codes::{KIND_FUNCTION, KIND_INPUT, KIND_NODE, KIND_TYPE};
use language::limits::{FUNCTIONS_MOST, INPUTS_MOST, NODES_MOST, TEXT_MOST, TYPES_MOST};
use language::refusals::Refusal;
use signatures::functions::{conditions, measure, parameters};
use signatures::types::type_def;
use text::Cursor;

// What a frame is of.
#[derive(Clone, Copy)]
enum Kind {
    Type,
    Function,
    Input,
    Node,
}

// The kind of a code, if there is one.
fn kind_of(code: u32) -> Option<Kind>
    ensures { the_kind result ≡ decode kind_first kinds code }
{
    match code {
        KIND_TYPE => Some(Kind::Type),
        KIND_FUNCTION => Some(Kind::Function),
        KIND_INPUT => Some(Kind::Input),
        KIND_NODE => Some(Kind::Node),
        _ => None,
    }
}

// A place as a word; a text is not so long that it has another.
fn place(c: Cursor) -> u32
    ensures { PlaceWord c.at result }
{
    if TEXT_MOST < c.at {
        return 0;
    }
    c.at as u32
}

// What an expression outside all functions may name.
fn outside(known: Counts, channels: u32) -> Names
    ensures { result ≡ outside_names known channels }
{
    Names {
        variables: 0,
        sizes: 0,
        channels,
        types: known.types,
        functions: known.functions,
    }
}

// What the body of the next function may name.
fn inside(known: Counts, variables: u32, sizes: u32) -> Names
    requires { known.functions ≤ functions_most }
    ensures { result ≡ inside_names known variables sizes }
{
    Names {
        variables,
        sizes,
        channels: 0,
        types: known.types,
        functions: known.functions + 1,
    }
}

// An input: its declared type and its initial value, which names no channel.
fn input_frame(
    line: &[u8],
    index: &mut [u32; INDEX_WORDS],
    start: Cursor,
    known: Counts,
) -> Result<Cursor, Refusal>
    requires fits { Fits line.now known }
    requires at_value { start.at ≡ kind_end line.now }
    ensures { ReadsInput line.now index.old known result index.new }
{
    let f = start.declared(line, known.types)?;
    let word = f.value;
    let c = f.next;
    let s = outside(known, 0);
    let next = expr(line, index, c, s)?;
    put_channel(index, known.inputs, word, place(c), 0);
    Ok(next)
}

// A node among so many channels: its declared type, its initial value and its update, where `13` and `14` may name any of them.
fn node_frame(
    line: &[u8],
    index: &mut [u32; INDEX_WORDS],
    start: Cursor,
    known: Counts,
    all: u32,
) -> Result<Cursor, Refusal>
    requires fits { Fits line.now known }
    requires at_value { start.at ≡ kind_end line.now }
    ensures { ReadsNode line.now index.old known all result index.new }
{
    let f = start.declared(line, known.types)?;
    let word = f.value;
    let c = f.next;
    let s = outside(known, 0);
    let d = expr(line, index, c, s)?;
    let before = known.inputs + known.nodes;
    let u = outside(known, all);
    let next = expr(line, index, d, u)?;
    put_channel(index, before, word, place(c), place(d));
    Ok(next)
}

// A function: its parameters, result, conditions, measure and body.
fn function_frame(
    line: &[u8],
    index: &mut [u32; INDEX_WORDS],
    start: Cursor,
    known: Counts,
) -> Result<Cursor, Refusal>
    requires fits { Fits line.now known }
    requires at_value { start.at ≡ kind_end line.now }
    ensures { ReadsFunction line.now index.old known result index.new }
{
    let f = known.functions;
    let c = parameters(line, index, start, known.types, f)?;
    let sizes = named(index, f);
    let d = c.result(line, known.types, sizes)?;
    let m = conditions(line, d, sizes)?;
    let b = measure(line, m, sizes)?;
    let s = inside(known, arity(index, f), sizes);
    let next = expr(line, index, b, s)?;
    put_places(index, f, place(c), place(d), place(m), place(b));
    Ok(next)
}

// Whether a frame of this kind may come next: none of a later kind has been read, and not one too many.
fn in_order(kind: Kind, known: Counts) -> bool
    ensures { Ordered (meant kind) known result }
{
    match kind {
        Kind::Type => {
            known.functions == 0
                && known.inputs == 0
                && known.nodes == 0
                && (known.types as usize) < TYPES_MOST
        }
        Kind::Function => {
            known.inputs == 0 && known.nodes == 0 && (known.functions as usize) < FUNCTIONS_MOST
        }
        Kind::Input => known.nodes == 0 && (known.inputs as usize) < INPUTS_MOST,
        Kind::Node => (known.nodes as usize) < NODES_MOST,
    }
}

// The frame is taken if its bytes end where it was read to.
fn ended(line: &[u8], next: Cursor, n: Counts) -> Result<Counts, Refusal>
    ensures { result ≡ ended_as line.now (Ok next) n }
{
    if next.more(line) {
        return Err(Refusal::BadLength);
    }
    Ok(n)
}

// The counts with one frame of this kind more.
fn one_more(n: Counts, kind: Kind) -> Counts
    requires { Few n }
    ensures { result ≡ one_more_of (meant kind) n }
{
    match kind {
        Kind::Type => Counts {
            types: n.types + 1,
            ..n
        },
        Kind::Function => Counts {
            functions: n.functions + 1,
            ..n
        },
        Kind::Input => Counts {
            inputs: n.inputs + 1,
            ..n
        },
        Kind::Node => Counts {
            nodes: n.nodes + 1,
            ..n
        },
    }
}

// A type: refused where every constructor has a field of the type itself.
fn type_frame(
    line: &[u8],
    index: &mut [u32; INDEX_WORDS],
    start: Cursor,
    known: Counts,
) -> Result<Counts, Refusal>
    requires fits { Fits line.now known }
    requires at_value { start.at ≡ kind_end line.now }
    ensures { TypeTaken line.now index.old known result index.new }
{
    let t = known.types;
    let next = type_def(line, index, start, t)?;
    let n = ended(line, next, one_more(known, Kind::Type))?;
    if !self_free(index, t) {
        return Err(Refusal::NoBaseConstructor);
    }
    Ok(n)
}

// One frame.
pub fn frame(
    line: &[u8],
    index: &mut [u32; INDEX_WORDS],
    known: Counts,
    all: u32,
) -> Result<Counts, Refusal>
    requires { Fits line.now known }
    ensures { ReadsFrame line.now index.old known all result index.new }
{
    let f = Cursor { at: 0 }.byte(line)?;
    let behind = f.next;
    let Some(kind) = kind_of(f.value) else {
        return Err(Refusal::BadFrame);
    };
    if !in_order(kind, known) {
        return Err(Refusal::BadFrame);
    }
    let n = one_more(known, kind);
    match kind {
        Kind::Type => type_frame(line, index, behind, known),
        Kind::Function => ended(line, function_frame(line, index, behind, known)?, n),
        Kind::Input => ended(line, input_frame(line, index, behind, known)?, n),
        Kind::Node => ended(line, node_frame(line, index, behind, known, all)?, n),
    }
}
