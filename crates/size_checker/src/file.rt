// A whole file: initial values first in channel order, then updates in node order, each against its channel's declared type.
ghost use Rattle.std.specs.Prelude.{◌≡◌, ◌+◌, ◌*◌, ◌<◌, get_or};
ghost use Rattle.language.specs.Limits.{channels_most};
ghost use Rattle.index.specs.Tables.{channel_words};
ghost use Rattle.index.specs.Sections.{channels_of};
ghost use Rattle.size_laws.specs.Promises.{lent, lent_by, table_of, SameList};
ghost use Rattle.size_laws.specs.FileParts.{Few, Limited, entry_word, outer_site, SizesChannel, SizesChannels, SizesInitials};
ghost use Rattle.size_laws.specs.FilePromises.{SizesFile};

use super::cycle::expr;
use heads::places::{Place, SCOPE_WORDS};
use index::channels::{initial_start, update_start};
use index::{Counts, INDEX_WORDS, frame_counts};
use instances::{MEMO_WORDS, clear};
use language::limits::{FUNCTIONS_MOST, INPUTS_MOST, NESTING_MOST, NODES_MOST, TYPES_MOST};
use language::refusals::{NO_FRAME, Refusal, RefusalAt};
use size_steps::leaves::channel_type;
use size_steps::numbers::{is_type, joined, none};
use size_steps::{Checked, Counted, Instances, SCOPE_SIZES, Scope, Site, Source};
use text::Cursor;

// Whether a file may have so many types, functions, inputs and nodes.
fn limited(n: Counts) -> bool
    ensures { Limited n result }
{
    if TYPES_MOST < n.types as usize {
        return false;
    }
    if FUNCTIONS_MOST < n.functions as usize {
        return false;
    }
    if INPUTS_MOST < n.inputs as usize {
        return false;
    }
    n.nodes as usize <= NODES_MOST
}

// Where an expression of channel c stands: nothing is in scope.
fn outer_site(n: Counts, c: u32, at: usize, used: u32) -> Site
    requires { Few n × (c < channels_most) }
    ensures { result ≡ outer_site n c at used }
{
    let place = Place {
        at: Cursor { at },
        levels: NESTING_MOST,
        line: n.types + n.functions + c,
        variables: 0,
    };
    Site {
        place,
        sizes: 0,
        measure: 0,
        used,
    }
}

// Where the initial value or, by the flag, the update of channel c starts: a closure for it would be handed through two loops.
fn expression_start(index: &[u32; INDEX_WORDS], c: u32, update: bool) -> Cursor
    ensures { result.at ≡ get_or (channels_of index.now) (channel_words * c + entry_word update) 0 }
{
    if update {
        return update_start(index, c);
    }
    initial_start(index, c)
}

// The initial value or the update of channel c, which must be of the declared type.
fn channel(
    source: &Source,
    instances: &mut Instances,
    n: Counts,
    c: u32,
    update: bool,
    used: u32,
) -> Result<Checked, RefusalAt>
    requires { Few n × (c < channels_most) }
    ensures sized { SizesChannel (lent_by source.now) (table_of instances.old) n c (entry_word update) used result (table_of instances.new) }
    ensures same_list { SameList instances.old instances.new }
{
    let mut scope = Scope {
        types: [0; SCOPE_WORDS],
        sizes: [0; SCOPE_SIZES],
    };
    let start = expression_start(source.index, c, update);
    let at = start.at;
    let p = outer_site(n, c, at, used);
    let a = expr(source, instances, &mut scope, p)?;
    if !is_type(a, channel_type(source.index, c)) {
        let here = p.place;
        return Err(RefusalAt {
            refusal: Refusal::SizesDisagree,
            frame: here.line + 1,
        });
    }
    Ok(a)
}

// The initial values or the updates of all channels from one on: their numbers together.
fn channels_from(
    source: &Source,
    instances: &mut Instances,
    n: Counts,
    from: u32,
    update: bool,
    used: u32,
) -> Result<Counted, RefusalAt>
    requires { Few n }
    ensures sized { SizesChannels (lent_by source.now) (table_of instances.old) n from (entry_word update) used result (table_of instances.new) }
    ensures same_list { SameList instances.old instances.new }
{
    let last = n.inputs + n.nodes;
    let mut all = none(Cursor { at: 0 }, used);
    for c in from..last {
        let a = channel(source, instances, n, c, update, all.used)?;
        all = joined(all, a);
    }
    Ok(all)
}

// The initial values of all channels, from a cleared list of instances on; refused where no file has such counts.
fn initials(
    source: &Source,
    instances: &mut Instances,
    counts: Counts,
) -> Result<Counted, RefusalAt>
    ensures sized { SizesInitials (lent_by source.now) instances.old.list.now counts result (table_of instances.new) }
    ensures same_list { SameList instances.old instances.new }
{
    clear(instances.list);
    if !limited(counts) {
        return Err(RefusalAt {
            refusal: Refusal::Unnamed,
            frame: NO_FRAME,
        });
    }
    channels_from(source, instances, counts, 0, false, 0)
}

// The numbers of all updates together, and the list of instances; or the first refusal of 10 to 14 with its frame.
pub fn sized_file(
    text: &[u8],
    index: &[u32; INDEX_WORDS],
    list: &mut [u32],
) -> Result<Counted, RefusalAt>
    ensures { SizesFile (lent text.now index.now) list.old result list.new }
{
    let counts = frame_counts(index);
    let source = Source { text, index };
    let mut memo = [0u32; MEMO_WORDS];
    let mut instances = Instances {
        list,
        memo: &mut memo,
    };
    let a = initials(&source, &mut instances, counts)?;
    channels_from(&source, &mut instances, counts, counts.inputs, true, a.used)
}
