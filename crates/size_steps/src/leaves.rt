// What a form asks of the index and of the lines: types, conditions, measures, fields.
ghost use Rattle.std.specs.Prelude.{◌≡◌, ◌<◌, ◌^◌};
ghost use Rattle.language.specs.Limits.{byte_range};
ghost use Rattle.size_steps.specs.Leaves.{Typed, ChannelTyped, calls_itself, Falls, Prepares, MayCall, Makes};
ghost use Rattle.size_steps.specs.Agreement.{table};
ghost use Rattle.size_steps.specs.Lookups.{Again};

use super::numbers::leaf;
use super::{Checked, Counted, Entry, SCOPE_SIZES, Site, Source};
use estimate::{after, one_cell};
use heads::places::line_behind_types;
use index::channels::declared_word;
use index::frames::frame_line;
use index::functions::{conditions_start, measure_start, result_start};
use index::{INDEX_WORDS, word_at};
use instances::{MEMO_WORDS, numbers, result_word};
use language::limits::SIZE_MOST;
use language::refusals::{Refusal, RefusalAt};
use sizes::{SizedType, conditions_hold, summed_measure, type_at};
use type_rows::{fields_agree, own_sum};

// The type whose word stands in a row, 0 beyond it.
pub fn type_in(row: &[u32], i: usize) -> SizedType
    ensures { Typed row.now i result }
{
    SizedType::from(word_at(row, i))
}

// The declared type of channel c.
pub fn channel_type(index: &[u32; INDEX_WORDS], c: u32) -> SizedType
    ensures { ChannelTyped index.now c result }
{
    SizedType::from(declared_word(index, c))
}

// Whether a call of f at a site is one of the function around it.
fn calls_itself(index: &[u32; INDEX_WORDS], p: Site, f: u32) -> bool
    ensures { result ≡ calls_itself index.now p f }
{
    let here = p.place;
    here.line == line_behind_types(index, f)
}

// For a self-call whether the summed measure falls; any other call may be made.
fn falls(index: &[u32; INDEX_WORDS], p: Site, f: u32, w: u32) -> bool
    ensures { Falls index.now p f w result }
{
    if !calls_itself(index, p, f) {
        return true;
    }
    w < p.measure
}

// A call whose arguments were checked: its conditions, for a self-call that the measure falls, and the size of its result.
pub fn prepare(
    source: &Source,
    sizes: &[u8; SCOPE_SIZES],
    p: Site,
    f: u32,
    n: u32,
    m: u32,
) -> Result<Entry, RefusalAt>
    requires { p.place.line < 2 ^ 16 }
    ensures { Prepares source.now.text.now source.now.index.now sizes.now p f n m result }
{
    let here = p.place;
    let called = line_behind_types(source.index, f);
    let line = frame_line(source.text, source.index, called);
    if !conditions_hold(line, conditions_start(source.index, f), sizes) {
        return Err(RefusalAt {
            refusal: Refusal::ConditionFails,
            frame: here.line + 1,
        });
    }
    let w = summed_measure(line, measure_start(source.index, f), sizes);
    if !falls(source.index, p, f, w) {
        return Err(RefusalAt {
            refusal: Refusal::MeasureNotLess,
            frame: here.line + 1,
        });
    }
    let Some(result) = type_at(line, result_start(source.index, f), sizes) else {
        return Err(RefusalAt {
            refusal: Refusal::SizeOutside,
            frame: called + 1,
        });
    };
    Ok(Entry {
        function: f,
        measure: w,
        ty: result.ty,
        variables: n,
        sizes: m,
    })
}

// Whether f may be called here at these sizes: the summed measure of a self-call must fall. Of any other call it is not worked out.
fn may_call(source: &Source, sizes: &[u8; SCOPE_SIZES], p: Site, f: u32) -> bool
    ensures { MayCall source.now.text.now source.now.index.now sizes.now p f result }
{
    if !calls_itself(source.index, p, f) {
        return true;
    }
    let line = frame_line(
        source.text,
        source.index,
        line_behind_types(source.index, f),
    );
    let w = summed_measure(line, measure_start(source.index, f), sizes);
    w < p.measure
}

// A call of an instance that was entered before, record i: its conditions hold, and its result type is known, so that only the
// measure is tested.
pub fn again(
    source: &Source,
    list: &[u32],
    memo: &[u32; MEMO_WORDS],
    sizes: &[u8; SCOPE_SIZES],
    p: Site,
    f: u32,
    i: u32,
) -> Result<Checked, RefusalAt>
    requires { p.place.line < 2 ^ 16 }
    ensures { Again source.now.text.now source.now.index.now (table list.now memo.now) sizes.now p f i result }
{
    if !may_call(source, sizes, p, f) {
        let here = p.place;
        return Err(RefusalAt {
            refusal: Refusal::MeasureNotLess,
            frame: here.line + 1,
        });
    }
    let ty = SizedType::from(result_word(memo, i));
    leaf(ty, numbers(list, i), p)
}

// A constructor whose fields were checked: its size, then that each field is exactly what it must be.
pub fn made(
    index: &[u32; INDEX_WORDS],
    row: &[u32],
    p: Site,
    a: Counted,
    t: u32,
    c: u32,
) -> Result<Checked, RefusalAt>
    requires { (p.place.line < 2 ^ 16) × (t < byte_range) }
    ensures { Makes index.now row.now p a t c result }
{
    let here = p.place;
    let size = own_sum(index, row, t, c);
    if SIZE_MOST <= size {
        return Err(RefusalAt {
            refusal: Refusal::SizeOutside,
            frame: here.line + 1,
        });
    }
    if !fields_agree(index, row, t, c) {
        return Err(RefusalAt {
            refusal: Refusal::SizesDisagree,
            frame: here.line + 1,
        });
    }
    let numbers = after(a.numbers, one_cell());
    Ok(Checked {
        ty: SizedType::Named(t as u8, (size + 1) as u8),
        numbers,
        next: a.next,
        used: a.used,
    })
}
