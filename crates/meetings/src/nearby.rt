// The number of meetings at near locations, by a histogram over the numbers of the pairs that is filled drone by drone. A location's entry is at the first number that is
// it. A stop costs as many steps as its location has near ones.
ghost use Rattle.std.specs.Prelude.{◌≡◌, ℕ, ◌*◌, ◌≤◌, ◌<◌, length};
ghost use Rattle.below.specs.Below.{at};
ghost use Rattle.tables.specs.Limits.{limits, most_pairs};
ghost use Rattle.near.specs.Near.{near, Paired};
ghost use Rattle.plan.specs.Sharing.{first_where, Groups};
ghost use Rattle.meetings.specs.Meetings.{meeting_total, Grouped};
ghost use Rattle.meetings.specs.Histogram.{near_sum, NumberHeads};

use crate::histogram;
use plan::groups::other_end;
use plan::lent::Stops;
use plan::sharing;
use plan::sharing::SLOTS;
use tables::entries::{NearPair, Stop};

// Over the numbers of the pairs that are one location, from the first of them on: the stops counted at the locations that they are paired with.
fn near_row(
    pairs: &[u16],
    count: usize,
    first: &[u16; NearPair::NUMBERS],
    next: &[u16; NearPair::NUMBERS],
    counts: &[u16; Stop::FULL],
    head: usize,
) -> usize
    requires { Groups (at pairs.now) (2 * count) first.now next.now × (2 * count ≤ 2 * most_pairs) × (head ≤ 2 * count) }
    ensures { (l : ℕ) → head ≡ first_where (at pairs.now) (2 * count) l → result ≡ near_sum pairs.now first.now counts.now (2 * count) l }
{
    let mut sum: usize = 0;
    let mut k = head;
    while k < 2 * count {
        let f = usize::from(first[other_end(k)]);
        sum += usize::from(counts[f]);
        k = usize::from(next[k]);
    }
    sum
}

// Of each number of the pairs the first that is its location; of each of n stops the first that is its location, their number where there is none.
fn fill_ends(
    pairs: &[u16],
    count: usize,
    stops: &Stops<'_>,
    first: &mut [u16; NearPair::NUMBERS],
    heads: &mut [u16; Stop::FULL],
)
    requires { Paired limits pairs.now count × (stops.now.count ≤ length stops.now.locations.now) × (stops.now.count ≤ limits.stops) × (length first.old ≡ 2 * most_pairs) × (length heads.old ≡ limits.stops) }
    ensures { NumberHeads pairs.now stops.now.locations.now first.new heads.new count stops.now.count }
{
    let ends = 2 * count;
    let mut links = [0u16; SLOTS];
    sharing::fill_trees(pairs, ends, first, &mut links);
    for v in 0..stops.count {
        heads[v] = sharing::find(pairs, &links, ends, stops.locations[v]) as u16;
    }
}

// How many pairs of stops of different drones are at near locations, where the first numbers are known.
fn count_near(
    pairs: &[u16],
    count: usize,
    stops: &Stops<'_>,
    first: &[u16; NearPair::NUMBERS],
    heads: &[u16; Stop::FULL],
) -> usize
    requires { Paired limits pairs.now count × Grouped (at stops.now.owners.now) stops.now.count × (stops.now.count ≤ length stops.now.owners.now) × (stops.now.count ≤ limits.stops) × NumberHeads pairs.now stops.now.locations.now first.now heads.now count stops.now.count }
    ensures { result ≡ meeting_total (near pairs.now) (at stops.now.owners.now) (at stops.now.locations.now) stops.now.count }
{
    let mut next = [0u16; NearPair::NUMBERS];
    sharing::fill_nexts(first, 2 * count, &mut next);
    let mut counts = [0u16; Stop::FULL];
    let mut total: usize = 0;
    let mut lo = 0;
    for w in 0..stops.count {
        lo = histogram::settle(stops.owners, heads, stops.count, &mut counts, lo, w);
        let head = usize::from(heads[w]);
        total += near_row(pairs, count, first, &next, &counts, head);
    }
    total
}

// The same from the start. Each function has the tables that it alone needs.
fn near_total(
    pairs: &[u16],
    count: usize,
    stops: &Stops<'_>,
    heads: &mut [u16; Stop::FULL],
) -> usize
    requires { Paired limits pairs.now count × Grouped (at stops.now.owners.now) stops.now.count × (stops.now.count ≤ length stops.now.owners.now) × (stops.now.count ≤ length stops.now.locations.now) × (stops.now.count ≤ limits.stops) × (length heads.old ≡ limits.stops) }
    ensures { result ≡ meeting_total (near pairs.now) (at stops.now.owners.now) (at stops.now.locations.now) stops.now.count }
{
    let mut first = [0u16; NearPair::NUMBERS];
    fill_ends(pairs, count, stops, &mut first, heads);
    count_near(pairs, count, stops, &first, heads)
}

// How many pairs of stops of different drones are at near locations; at once where there are no pairs. `heads` is lent to work in.
pub fn near_meetings(
    pairs: &[u16],
    count: usize,
    stops: &Stops<'_>,
    heads: &mut [u16; Stop::FULL],
) -> usize
    requires { Paired limits pairs.now count × Grouped (at stops.now.owners.now) stops.now.count × (stops.now.count ≤ length stops.now.owners.now) × (stops.now.count ≤ length stops.now.locations.now) × (stops.now.count ≤ limits.stops) × (length heads.old ≡ limits.stops) }
    ensures { result ≡ meeting_total (near pairs.now) (at stops.now.owners.now) (at stops.now.locations.now) stops.now.count }
{
    if count == 0 {
        return 0;
    }
    near_total(pairs, count, stops, heads)
}
