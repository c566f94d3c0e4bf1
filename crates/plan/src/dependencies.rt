// The dependencies of a plan, counted, and written into a slice for each field of their records. Only stops at one location or at near
// ones are compared.
ghost use Rattle.std.specs.Prelude.{◌≡◌, true, ◌&&◌, List, ℕ, ◌+◌, ◌*◌, ◌≤◌, ◌<◌, eqb, length};
ghost use Rattle.below.specs.Below.{at, count_below, first_below, pick};
ghost use Rattle.tables.specs.Limits.{limits, most_pairs};
ghost use Rattle.plan.specs.Sharing.{MayBegin, there, Placed};
ghost use Rattle.near.specs.Near.{meets_in, SoundPairs};
ghost use Rattle.plan.specs.Dependencies.{follows, is_last, is_fixed, flag_of, dependency_total, counted_to};
ghost use Rattle.plan.specs.Columns.{columns_with, row_written, rows_written, built_of, built_in};
ghost use Rattle.plan.specs.Room.{ColumnsRoom};
ghost use Rattle.plan.specs.Lent.{visits_held, later_held, StopsHeld, LinksHeld, WalksHeld};

use crate::lent::{Links, NearLinks, Stops, Walks};
use crate::{groups, sharing};
use tables::entries::{Dependency, NearPair, Stop};
use tables::flags::fixed_flag;

// Whether w is not before `from`, of another drone than v, and later.
#[tactic(auto, unfolding(crate::specs::Dependencies::later_from, crate::specs::Dependencies::later))]
fn is_later(stops: &Stops<'_>, from: usize, v: usize, w: usize) -> bool
    requires { StopsHeld stops.now × (v < stops.now.count) × (w < stops.now.count) }
    ensures { result ≡ later_held stops.now from v w }
{
    from <= w && stops.owners[v] != stops.owners[w] && stops.times[v] < stops.times[w]
}

// Whether w is the last stop of its drone.
#[tactic(auto, unfolding(crate::specs::Dependencies::is_last))]
fn is_last(stops: &Stops<'_>, w: usize) -> bool
    requires { StopsHeld stops.now × (w < stops.now.count) }
    ensures { result ≡ is_last (at stops.now.owners.now) stops.now.count w }
{
    let next = w + 1;
    stops.count <= next || stops.owners[next] != stops.owners[w]
}

// Whether the dependency of v and w is fixed.
#[tactic(auto, unfolding(crate::specs::Dependencies::is_fixed))]
fn is_fixed(stops: &Stops<'_>, numbers: &[u16], v: usize, w: usize) -> bool
    requires { StopsHeld stops.now × (stops.now.count ≤ length numbers.now) × (v < stops.now.count) × (w < stops.now.count) }
    ensures { result ≡ is_fixed (at stops.now.owners.now) (at numbers.now) stops.now.count v w }
{
    numbers[v] == 0 || is_last(stops, w)
}

// The flag byte of the dependency of v and w, which is not turned.
fn flag_of(stops: &Stops<'_>, numbers: &[u16], v: usize, w: usize) -> u8
    requires { StopsHeld stops.now × (stops.now.count ≤ length numbers.now) × (v < stops.now.count) × (w < stops.now.count) }
    ensures { result ≡ flag_of (at stops.now.owners.now) (at numbers.now) stops.now.count v w }
{
    fixed_flag(is_fixed(stops, numbers, v, w))
}

// The first stop not before `from` that is later than v, of those at one location, whose walk starts at `start`; their count if there is none.
fn follower_from(stops: &Stops<'_>, links: &Links<'_>, v: usize, from: usize, start: usize) -> usize
    requires { StopsHeld stops.now × LinksHeld stops.now links.now × (v < stops.now.count) }
    ensures { (g : ℕ) → MayBegin (at stops.now.locations.now) stops.now.count g (later_held stops.now from v) start → result ≡ first_below stops.now.count (there (at stops.now.locations.now) g (later_held stops.now from v)) }
{
    let mut w = start;
    while w < stops.count {
        if is_later(stops, from, v, w) {
            return w;
        }
        w = sharing::after_stop(links, w, stops.owners[w] == stops.owners[v]);
    }
    w
}

// Where the walk that goes by number k starts: at the first stop there, or from the second search on where the one before it came to.
fn place(near: &NearLinks<'_>, places: &[u16; NearPair::NUMBERS], k: usize, from: usize) -> usize
    requires { k < 2 * most_pairs }
    ensures { result ≡ pick (eqb from 0) (at near.now.starts.now k) (at places.now k) }
{
    let start = if from == 0 { near.starts[k] } else { places[k] };
    usize::from(start)
}

// The first stop not before `from` that follows v, or the count: the least of `own`, the first at its location, and of the first at each location near it. The walk at each near
// location goes on where the search before came to, so that a row of dependencies walks each of them once.
fn follower(
    walks: &Walks<'_>,
    v: usize,
    from: usize,
    own: usize,
    places: &mut [u16; NearPair::NUMBERS],
) -> usize
    requires visits_room { StopsHeld walks.now.stops × WalksHeld walks.now × (v < walks.now.stops.count) }
    requires own_value { (own ≡ first_below walks.now.stops.count (there (at walks.now.stops.locations.now) (at walks.now.stops.locations.now v) (later_held walks.now.stops from v))) × (length places.old ≡ 2 * most_pairs) × (0 < from → Placed walks.now.pairs.now (at walks.now.stops.locations.now) walks.now.stops.count v (later_held walks.now.stops from v) places.old) }
    ensures answer { result ≡ first_below walks.now.stops.count (λ u. meets_in walks.now.pairs.now (at walks.now.stops.locations.now v) (at walks.now.stops.locations.now u) && later_held walks.now.stops from v u) }
    ensures placed { Placed walks.now.pairs.now (at walks.now.stops.locations.now) walks.now.stops.count v (later_held walks.now.stops from v) places.new }
{
    let mut m = own;
    let mut k = usize::from(walks.near.heads[v]);
    while k < walks.near.ends {
        let start = place(&walks.near, places, k, from);
        let x = follower_from(&walks.stops, &walks.links, v, from, start);
        places[k] = x as u16;
        m = x.min(m);
        k = usize::from(walks.near.after[k]);
    }
    m
}

// Where the walk of v's own location goes on after stop w, the first that follows v: after w, if it has come to w.
fn resume(links: &Links<'_>, own: usize, w: usize) -> usize
    requires { w < limits.stops }
    ensures { result ≡ pick (eqb own w) (at links.now.next.now w) own }
{
    if own == w {
        usize::from(links.next[w])
    } else {
        own
    }
}

// How many dependencies have the first stop v.
fn count_row(walks: &Walks<'_>, v: usize, places: &mut [u16; NearPair::NUMBERS]) -> usize
    requires { StopsHeld walks.now.stops × WalksHeld walks.now × (v < walks.now.stops.count) × (length places.old ≡ 2 * most_pairs) }
    ensures count { (numbers : List ℕ) → result ≡ count_below walks.now.stops.count (follows (visits_held (meets_in walks.now.pairs.now) walks.now.stops numbers) v) }
    ensures sized { length places.new ≡ 2 * most_pairs }
{
    let mut c: usize = 0;
    let first = usize::from(walks.links.first[v]);
    let mut own = follower_from(&walks.stops, &walks.links, v, 0, first);
    let mut w = follower(walks, v, 0, own, places);
    while w < walks.stops.count {
        c += 1;
        let start = resume(&walks.links, own, w);
        own = follower_from(&walks.stops, &walks.links, v, w + 1, start);
        w = follower(walks, v, w + 1, own, places);
    }
    c
}

// How many dependencies there are; once they are more than the table's full size, nobody asks by how many.
fn count_dependencies(walks: &Walks<'_>) -> usize
    requires { StopsHeld walks.now.stops × WalksHeld walks.now }
    ensures { (numbers : List ℕ) → result ≡ counted_to limits.dependencies (dependency_total (visits_held (meets_in walks.now.pairs.now) walks.now.stops numbers)) }
{
    let mut places = [0u16; NearPair::NUMBERS];
    let mut c: usize = 0;
    for v in 0..walks.stops.count {
        c += count_row(walks, v, &mut places);
        if Dependency::FULL < c {
            return Dependency::FULL + 1;
        }
    }
    c
}

// Writes the dependencies with the first stop v from the entry c on, and answers the entry after them.
fn fill_row(
    walks: &Walks<'_>,
    numbers: &[u16],
    v: usize,
    places: &mut [u16; NearPair::NUMBERS],
    c: usize,
    first_drones: &mut [u8],
    first_stops: &mut [u16],
    second_drones: &mut [u8],
    second_stops: &mut [u16],
    flags: &mut [u8],
) -> usize
    requires plan_room { StopsHeld walks.now.stops × WalksHeld walks.now × (v < walks.now.stops.count) × (length places.old ≡ 2 * most_pairs) × (walks.now.stops.count ≤ length numbers.now) }
    requires columns_room { ColumnsRoom (c + count_below walks.now.stops.count (follows (visits_held (meets_in walks.now.pairs.now) walks.now.stops numbers.now) v)) (columns_with first_drones.old first_stops.old second_drones.old second_stops.old flags.old) }
    ensures answer { result ≡ c + count_below walks.now.stops.count (follows (visits_held (meets_in walks.now.pairs.now) walks.now.stops numbers.now) v) }
    ensures written { columns_with first_drones.new first_stops.new second_drones.new second_stops.new flags.new ≡ row_written (visits_held (meets_in walks.now.pairs.now) walks.now.stops numbers.now) v walks.now.stops.count c (columns_with first_drones.old first_stops.old second_drones.old second_stops.old flags.old) }
    ensures sized { length places.new ≡ 2 * most_pairs }
{
    let mut k = c;
    let first = usize::from(walks.links.first[v]);
    let mut own = follower_from(&walks.stops, &walks.links, v, 0, first);
    let mut w = follower(walks, v, 0, own, places);
    while w < walks.stops.count {
        first_drones[k] = walks.stops.owners[v];
        first_stops[k] = numbers[v];
        second_drones[k] = walks.stops.owners[w];
        second_stops[k] = numbers[w];
        flags[k] = flag_of(&walks.stops, numbers, v, w);
        k += 1;
        let start = resume(&walks.links, own, w);
        own = follower_from(&walks.stops, &walks.links, v, w + 1, start);
        w = follower(walks, v, w + 1, own, places);
    }
    k
}

// Writes all the dependencies, from the first entry on.
fn fill_rows(
    walks: &Walks<'_>,
    numbers: &[u16],
    first_drones: &mut [u8],
    first_stops: &mut [u16],
    second_drones: &mut [u8],
    second_stops: &mut [u16],
    flags: &mut [u8],
)
    requires plan_room { StopsHeld walks.now.stops × WalksHeld walks.now × (walks.now.stops.count ≤ length numbers.now) }
    requires columns_room { ColumnsRoom (dependency_total (visits_held (meets_in walks.now.pairs.now) walks.now.stops numbers.now)) (columns_with first_drones.old first_stops.old second_drones.old second_stops.old flags.old) }
    ensures { columns_with first_drones.new first_stops.new second_drones.new second_stops.new flags.new ≡ rows_written (visits_held (meets_in walks.now.pairs.now) walks.now.stops numbers.now) walks.now.stops.count (columns_with first_drones.old first_stops.old second_drones.old second_stops.old flags.old) }
{
    let mut places = [0u16; NearPair::NUMBERS];
    let mut k = 0;
    for v in 0..walks.stops.count {
        k = fill_row(
            walks,
            numbers,
            v,
            &mut places,
            k,
            first_drones,
            first_stops,
            second_drones,
            second_stops,
            flags,
        );
    }
}

// Writes the dependencies of a plan whose stops are linked, at one location and at near ones, from the first entry on, and answers how many there are. None: there are more than the
// table's full size, and the slices stay as they were.
fn build_linked(
    walks: &Walks<'_>,
    numbers: &[u16],
    first_drones: &mut [u8],
    first_stops: &mut [u16],
    second_drones: &mut [u8],
    second_stops: &mut [u16],
    flags: &mut [u8],
) -> Option<usize>
    requires plan_room { StopsHeld walks.now.stops × WalksHeld walks.now × (walks.now.stops.count ≤ length numbers.now) }
    requires columns_room { ColumnsRoom limits.dependencies (columns_with first_drones.old first_stops.old second_drones.old second_stops.old flags.old) }
    ensures answer { result ≡ built_of limits.dependencies (visits_held (meets_in walks.now.pairs.now) walks.now.stops numbers.now) }
    ensures written { columns_with first_drones.new first_stops.new second_drones.new second_stops.new flags.new ≡ built_in limits.dependencies (visits_held (meets_in walks.now.pairs.now) walks.now.stops numbers.now) (columns_with first_drones.old first_stops.old second_drones.old second_stops.old flags.old) }
{
    let total = count_dependencies(walks);
    if Dependency::FULL < total {
        return None;
    }
    fill_rows(
        walks,
        numbers,
        first_drones,
        first_stops,
        second_drones,
        second_stops,
        flags,
    );
    Some(total)
}

// The same at a site with near pairs, where the stops are linked by their locations alone.
fn build_near(
    pairs: &[u16],
    stops: &Stops<'_>,
    numbers: &[u16],
    links: &Links<'_>,
    first_drones: &mut [u8],
    first_stops: &mut [u16],
    second_drones: &mut [u8],
    second_stops: &mut [u16],
    flags: &mut [u8],
) -> Option<usize>
    requires sound_pairs { SoundPairs limits pairs.now × StopsHeld stops.now × (stops.now.count ≤ length numbers.now) × LinksHeld stops.now links.now }
    requires columns_room { ColumnsRoom limits.dependencies (columns_with first_drones.old first_stops.old second_drones.old second_stops.old flags.old) }
    ensures answer { result ≡ built_of limits.dependencies (visits_held (meets_in pairs.now) stops.now numbers.now) }
    ensures written { columns_with first_drones.new first_stops.new second_drones.new second_stops.new flags.new ≡ built_in limits.dependencies (visits_held (meets_in pairs.now) stops.now numbers.now) (columns_with first_drones.old first_stops.old second_drones.old second_stops.old flags.old) }
{
    let mut heads = [0u16; Stop::FULL];
    let mut after = [0u16; Stop::FULL];
    let mut starts = [0u16; Stop::FULL];
    let ends = groups::link(
        pairs,
        stops.locations,
        stops.count,
        &mut heads,
        &mut after,
        &mut starts,
    );
    let near = NearLinks {
        ends,
        heads: &heads,
        after: &after,
        starts: &starts,
    };
    let walks = Walks {
        pairs,
        stops: *stops,
        links: *links,
        near,
    };
    build_linked(
        &walks,
        numbers,
        first_drones,
        first_stops,
        second_drones,
        second_stops,
        flags,
    )
}

// Writes the dependencies of a plan whose stops are linked by their locations, from the first entry on, and answers how many there are. None: there are more than the
// table's full size, and the slices stay as they were.
pub fn build(
    pairs: &[u16],
    stops: &Stops<'_>,
    numbers: &[u16],
    links: &Links<'_>,
    first_drones: &mut [u8],
    first_stops: &mut [u16],
    second_drones: &mut [u8],
    second_stops: &mut [u16],
    flags: &mut [u8],
) -> Option<usize>
    requires sound_pairs { SoundPairs limits pairs.now × StopsHeld stops.now × (stops.now.count ≤ length numbers.now) × LinksHeld stops.now links.now }
    requires columns_room { ColumnsRoom limits.dependencies (columns_with first_drones.old first_stops.old second_drones.old second_stops.old flags.old) }
    ensures answer { result ≡ built_of limits.dependencies (visits_held (meets_in pairs.now) stops.now numbers.now) }
    ensures written { columns_with first_drones.new first_stops.new second_drones.new second_stops.new flags.new ≡ built_in limits.dependencies (visits_held (meets_in pairs.now) stops.now numbers.now) (columns_with first_drones.old first_stops.old second_drones.old second_stops.old flags.old) }
{
    if near::pair_count(pairs) != 0 {
        return build_near(
            pairs,
            stops,
            numbers,
            links,
            first_drones,
            first_stops,
            second_drones,
            second_stops,
            flags,
        );
    }
    let near = NearLinks {
        ends: 0,
        heads: links.first,
        after: links.first,
        starts: links.first,
    };
    let walks = Walks {
        pairs,
        stops: *stops,
        links: *links,
        near,
    };
    build_linked(
        &walks,
        numbers,
        first_drones,
        first_stops,
        second_drones,
        second_stops,
        flags,
    )
}
