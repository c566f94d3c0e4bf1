// Stops that share a location. The first stops of all locations stand in trees, so that each stop finds the first at its own in a few steps, whatever the plan.
ghost use Rattle.std.specs.Prelude.{◌≡◌, ◌&&◌, ℕ, ◌+◌, ◌≤◌, ◌<◌, ltb, eqb, length};
ghost use Rattle.below.specs.Below.{at, fill_below, pick};
ghost use Rattle.tables.specs.Limits.{limits};
ghost use Rattle.plan.specs.Search.{SearchEnds};
ghost use Rattle.plan.specs.Sharing.{roots, root_of, first_where, first_at, Trees, next_at, skip_at, after_stop};

use crate::lent::Links;
use tables::entries::Stop;

// How many trees there are, as many as stops at most, and how many slots: a root for each tree and two branches for each stop.
const ROOTS: usize = Stop::FULL;

pub const SLOTS: usize = ROOTS + 2 * Stop::FULL;

// The root of a location's tree. Locations in a row have trees of their own, and so have those that lie a power of two apart.
fn root(l: usize) -> usize
    requires { l < 65536 }
    ensures { (result ≡ root_of l) × (result < roots) }
{
    (l + l / ROOTS * 17) % ROOTS
}

// Where the search of location l ends, where the trees hold the first n stops: at the first of them there or, if there is none, at a free slot.
fn search(locations: &[u16], links: &[u16; SLOTS], n: usize, l: u16) -> Result<usize, usize>
    requires { Trees (at locations.now) n links.now × (n ≤ length locations.now) × (n ≤ limits.stops) }
    ensures { SearchEnds (at locations.now) n l links.now result }
{
    let location = usize::from(l);
    let mut slot = root(location);
    let mut digits = location / ROOTS;
    while links[slot] != 0 {
        let u = usize::from(links[slot]) - 1;
        if locations[u] == l {
            return Ok(u);
        }
        slot = ROOTS + 2 * u + digits % 2;
        digits /= 2;
    }
    Err(slot)
}

// The first stop at the location of w, where the trees hold the stops before w. If it is w itself, w joins its tree.
fn enter(locations: &[u16], links: &mut [u16; SLOTS], w: usize) -> usize
    requires { Trees (at locations.now) w links.old × (w < length locations.now) × (w < limits.stops) }
    ensures { (result ≡ first_at (at locations.now) w) × Trees (at locations.now) (w + 1) links.new }
{
    match search(locations, links, w, locations[w]) {
        Ok(u) => u,
        Err(slot) => {
            links[slot] = w as u16 + 1;
            w
        }
    }
}

// The first stop at the location of each of n stops.
pub fn fill_firsts(locations: &[u16], n: usize, first: &mut [u16; Stop::FULL])
    requires { (n ≤ length locations.now) × (n ≤ limits.stops) }
    ensures { first.new ≡ fill_below n (first_at (at locations.now)) first.old }
{
    let mut links = [0u16; SLOTS];
    fill_trees(locations, n, first, &mut links);
}

// The same, and the trees that hold them: for the numbers of pairs, among which single locations are sought afterwards.
pub fn fill_trees(locations: &[u16], n: usize, first: &mut [u16], links: &mut [u16; SLOTS])
    requires { (n ≤ length locations.now) × (n ≤ limits.stops) × (n ≤ length first.old) × Trees (at locations.now) 0 links.old }
    ensures firsts { first.new ≡ fill_below n (first_at (at locations.now)) first.old }
    ensures trees { Trees (at locations.now) n links.new }
{
    for w in 0..n {
        first[w] = enter(locations, links, w) as u16;
    }
}

// The first of n stops at location l, or n, where the trees hold these stops.
pub fn find(locations: &[u16], links: &[u16; SLOTS], n: usize, l: u16) -> usize
    requires { Trees (at locations.now) n links.now × (n ≤ length locations.now) × (n ≤ limits.stops) }
    ensures { (result ≡ first_where (at locations.now) n l) × (result ≤ n) }
{
    search(locations, links, n, l).unwrap_or(n)
}

// The next stop at the location of each of n stops, n where there is none; `first` has the first stop at each one's location.
pub fn fill_nexts(first: &[u16], n: usize, next: &mut [u16])
    requires { (n ≤ limits.stops) × (n ≤ length first.now) × (n ≤ length next.old) × ((v : ℕ) → v < n → at first.now v ≤ v) }
    ensures { next.new ≡ fill_below n (next_at (at first.now) n) next.old }
{
    let mut latest = [n as u16; Stop::FULL];
    for w in (0..n).rev() {
        let f = usize::from(first[w]);
        next[w] = latest[f];
        latest[f] = w as u16;
    }
}

// Whether u is one of n stops, and of the drone of w.
fn same_drone(owners: &[u8], n: usize, u: usize, w: usize) -> bool
    requires { (n ≤ length owners.now) × (w < n) }
    ensures { result ≡ ltb u n && eqb (at owners.now u) (at owners.now w) }
{
    u < n && owners[u] == owners[w]
}

// The end of the stretch of each of n stops: the next stop at its location whose drone is another, n where there is none; `next` has the next stop at each one's location.
pub fn fill_skips(owners: &[u8], next: &[u16; Stop::FULL], n: usize, skip: &mut [u16; Stop::FULL])
    requires { (n ≤ length owners.now) × (n ≤ limits.stops) × (length skip.old ≡ limits.stops) }
    ensures { (loc : ℕ → ℕ) → ((v : ℕ) → v < n → at next.now v ≡ next_at loc n v) → skip.new ≡ fill_below n (skip_at (at owners.now) loc n) skip.old }
{
    for w in (0..n).rev() {
        let u = usize::from(next[w]);
        skip[w] = if same_drone(owners, n, u, w) {
            skip[u]
        } else {
            next[w]
        };
    }
}

// Where a walk goes on after stop w: at the next stop there, or past the whole stretch of w.
#[tactic(auto, unfolding(crate::specs::Sharing::after_stop))]
pub(crate) fn after_stop_in(
    next: &[u16; Stop::FULL],
    skip: &[u16; Stop::FULL],
    w: usize,
    past: bool,
) -> usize
    requires { w < limits.stops }
    ensures { result ≡ after_stop next.now skip.now w past }
{
    let after = if past { skip[w] } else { next[w] };
    usize::from(after)
}

// The same, by the links. A long walk takes the two tables out of them once, and not for each stop.
pub fn after_stop(links: &Links<'_>, w: usize, past: bool) -> usize
    requires { w < limits.stops }
    ensures { result ≡ after_stop links.now.next.now links.now.skip.now w past }
{
    after_stop_in(links.next, links.skip, w, past)
}
