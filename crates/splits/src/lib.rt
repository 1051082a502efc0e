// The splits of a size into positive sizes, one after the other in a lent slice, in ascending dictionary order.
#![tactic(auto)]

ghost use Rattle.std.specs.Prelude.{◌≡◌, ◌<◌, ◌≤◌, length};
ghost use Rattle.splits.specs.Next.{may_move};
ghost use Rattle.splits.specs.Moves.{Starts, Moves, Pivot};

use language::limits::SIZE_MOST;

// Writes the first split of n into r sizes at a place: 1, 1, .., and what is left; nothing if there is none or no room.
pub fn first_split(sizes: &mut [u8], at: usize, r: u32, n: u8)
    ensures { Starts sizes.old at r n sizes.new }
{
    if r == 0 {
        return;
    }
    if (n as u32) < r {
        return;
    }
    if sizes.len() < at {
        return;
    }
    if sizes.len() - at < (r as usize) {
        return;
    }
    let last = at + (r as usize) - 1;
    for i in at..last {
        sizes[i] = 1;
    }
    sizes[last] = n - ((r - 1) as u8);
}

// Whether a size can be one more at the cost of the one behind it.
fn may_move(size: u8, behind: u8) -> bool
    ensures { result ≡ may_move size behind }
{
    1 < behind && (size as u32) < SIZE_MOST
}

// The rightmost place whose size may be lowered and the one before it raised; the first place if there is none.
fn pivot(sizes: &[u8], at: usize, end: usize) -> usize
    requires { (at < end) × (end ≤ length sizes.now) }
    ensures { Pivot sizes.now at end result }
{
    for j in (at + 1..end).rev() {
        if may_move(sizes[j - 1], sizes[j]) {
            return j;
        }
    }
    at
}

// Moves on to the next split of r sizes at a place; false, and nothing is written, where there is none.
pub fn next_split(sizes: &mut [u8], at: usize, r: u32) -> bool
    ensures { Moves sizes.old at r result sizes.new }
{
    if r == 0 {
        return false;
    }
    if sizes.len() < at {
        return false;
    }
    if sizes.len() - at < (r as usize) {
        return false;
    }
    let end = at + (r as usize);
    let j = pivot(sizes, at, end);
    if j == at {
        return false;
    }
    let old = sizes[j];
    sizes[j - 1] = sizes[j - 1] + 1;
    sizes[j] = 1;
    sizes[end - 1] = old - 1;
    true
}
