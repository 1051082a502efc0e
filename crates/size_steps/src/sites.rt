// The site of a part: elsewhere in the line, one level down, with more in scope, in the body of a function.
ghost use Rattle.std.specs.Prelude.{◌<◌, ◌+◌, ◌^◌, ◌≡◌};
ghost use Rattle.language.specs.Limits.{instances_most};
ghost use Rattle.size_steps.specs.Sites.{moved_on_of, down_to, widened_by};
ghost use Rattle.size_steps.specs.Leaves.{body_of};

use super::{Checked, Entry, Site};
use heads::places::{Place, inside, line_behind_types, moved, widened};
use index::INDEX_WORDS;
use index::functions::body_start;
use language::limits::NESTING_MOST;
use text::Cursor;

// The same site elsewhere in the line, with so many instances entered.
pub fn moved_on(p: Site, at: Cursor, used: u32) -> Site
    ensures { result ≡ moved_on_of p at used }
{
    Site {
        place: moved(p.place, at),
        used,
        ..p
    }
}

// The site of a part: one level down.
pub fn down(p: Site, at: Cursor) -> Site
    requires { 0 < p.place.levels }
    ensures { result ≡ down_to p at }
{
    Site {
        place: inside(p.place, at),
        ..p
    }
}

// The same site with more variables and size variables in scope.
pub fn widen(p: Site, variables: u32, sizes: u32) -> Site
    requires { (p.place.variables + variables < 2 ^ 32) × (p.sizes + sizes < 2 ^ 32) }
    ensures { result ≡ widened_by p variables sizes }
{
    Site {
        place: widened(p.place, p.place.at, variables),
        sizes: p.sizes + sizes,
        ..p
    }
}

// The site behind a part that was checked.
pub fn behind(p: Site, a: Checked) -> Site
    ensures { result ≡ moved_on_of p a.next a.used }
{
    moved_on(p, a.next, a.used)
}

// Where the body of an entry stands.
pub fn body_site(index: &[u32; INDEX_WORDS], p: Site, e: Entry) -> Site
    requires { p.used < instances_most }
    ensures { result ≡ body_of index.now p e }
{
    let at = body_start(index, e.function);
    let line = line_behind_types(index, e.function);
    let place = Place {
        at,
        levels: NESTING_MOST,
        line,
        variables: e.variables,
    };
    Site {
        place,
        sizes: e.sizes,
        measure: e.measure,
        used: p.used + 1,
    }
}
