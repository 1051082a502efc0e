// Sets of channels as the bits of a word.
#![tactic(auto)]

ghost use Rattle.std.specs.Prelude.{◌≡◌, ◌-◌, ◌^◌, ◌<◌};
ghost use Rattle.channel_sets.specs.Sets.{word_bits, in_set};

// The bits of a word: channels below this can be in a set.
pub const WORD_BITS: u32 = u32::BITS;

// The set of channel c alone.
pub fn single(c: u32) -> u32
    requires { c < word_bits }
    ensures { result ≡ 2 ^ c }
{
    1u32 << c
}

// Whether channel c is in a set.
pub fn has(set: u32, c: u32) -> bool
    requires { c < word_bits }
    ensures { result ≡ in_set set c }
{
    (set >> c) % 2 == 1
}

// The set of the first n channels.
pub fn first(n: u32) -> u32
    requires { n < word_bits }
    ensures { result ≡ 2 ^ n - 1 }
{
    single(n) - 1
}
