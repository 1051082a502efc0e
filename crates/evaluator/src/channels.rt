// The value of an expression of a channel, its update or its initial value: nothing is in the environment.
ghost use Rattle.std.specs.Prelude.{◌≡◌};
ghost use Rattle.new_cells.specs.Steps.{Board};
ghost use Rattle.evaluator.specs.ChannelValues.{channel_context, EvalsChannel};

use super::cycle::expr;
use evaluation_steps::{Context, Program};
use heads::places::channel_line;
use index::INDEX_WORDS;
use language::limits::{CHANNELS_MOST, TEXT_MOST};
use language::refusals::Refusal;
use new_cells::Value;
use text::Cursor;

// Where what starts at a place of the line of channel c is evaluated.
fn channel_context(index: &[u32; INDEX_WORDS], c: u32, at: Cursor, used: u32, calls: u32) -> Context
    ensures { result ≡ channel_context index.now c at used calls }
{
    let line = channel_line(index, c);
    Context {
        at,
        line,
        top: 0,
        used,
        calls,
    }
}

// Its value.
pub fn channel_value(
    text: &[u8],
    index: &[u32; INDEX_WORDS],
    ends: &[u16; TEXT_MOST],
    channels: &[u32; CHANNELS_MOST],
    state: &mut [u32],
    slots: &mut [u32],
    c: u32,
    at: Cursor,
    used: u32,
    calls: u32,
) -> Result<Value, Refusal>
    requires { Board state.old used }
    ensures { EvalsChannel text.now index.now ends.now channels.now c at.at used calls state.old slots.old result state.new slots.new }
{
    let p = channel_context(index, c, at, used, calls);
    let program = Program {
        text,
        index,
        ends,
        channels,
    };
    expr(&program, state, slots, p)
}
