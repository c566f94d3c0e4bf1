// Stops that may meet: those at one location, and those at near ones.
ghost use Rattle.std.specs.Prelude.{◌≡◌, ◌*◌, ◌≤◌, ◌<◌, length};
ghost use Rattle.below.specs.Below.{at, fill_below};
ghost use Rattle.tables.specs.Limits.{limits};
ghost use Rattle.near.specs.Near.{SoundPairs, Paired};
ghost use Rattle.plan.specs.Sharing.{first_where, first_at, next_at, StopsLinked, other_end, pair_ends, NumbersLinked};

use crate::sharing;
use crate::sharing::SLOTS;
use tables::entries::Stop;

// The stops gathered by their locations: the first and the next stop at the location of each of n stops, and the next there by another drone.
pub fn gather(
    owners: &[u8],
    locations: &[u16],
    n: usize,
    first: &mut [u16; Stop::FULL],
    next: &mut [u16; Stop::FULL],
    skip: &mut [u16; Stop::FULL],
)
    requires n_in_bounds { (n ≤ length owners.now) × (n ≤ length locations.now) × (n ≤ limits.stops) }
    requires first_len { (length first.old ≡ limits.stops) × (length next.old ≡ limits.stops) × (length skip.old ≡ limits.stops) }
    ensures { StopsLinked (at owners.now) (at locations.now) n first.new next.new skip.new }
{
    sharing::fill_firsts(locations, n, first);
    sharing::fill_nexts(first, n, next);
    sharing::fill_skips(owners, next, n, skip);
}

// The numbers of the pairs linked by their locations: the first and the next at the location of each; and of each of n stops the first at its location, or their number
// where it has no near one.
pub fn fill_ends(
    pairs: &[u16],
    count: usize,
    locations: &[u16],
    n: usize,
    first: &mut [u16; Stop::FULL],
    next: &mut [u16; Stop::FULL],
    heads: &mut [u16; Stop::FULL],
)
    requires { Paired limits pairs.now count × (n ≤ length locations.now) × (n ≤ limits.stops) × (length first.old ≡ limits.stops) × (length next.old ≡ limits.stops) }
    ensures firsts { first.new ≡ fill_below (2 * count) (first_at (at pairs.now)) first.old }
    ensures nexts { next.new ≡ fill_below (2 * count) (next_at (at pairs.now) (2 * count)) next.old }
    ensures heads { heads.new ≡ fill_below n (λ v. first_where (at pairs.now) (2 * count) (at locations.now v)) heads.old }
{
    let ends = 2 * count;
    let mut links = [0u16; SLOTS];
    sharing::fill_trees(pairs, ends, first, &mut links);
    sharing::fill_nexts(first, ends, next);
    for v in 0..n {
        heads[v] = sharing::find(pairs, &links, ends, locations[v]) as u16;
    }
}

// The other number of a pair.
#[tactic(auto, unfolding(crate::specs::Sharing::other_end))]
pub fn other_end(k: usize) -> usize
    requires { k < 65536 }
    ensures { result ≡ other_end k }
{
    if k % 2 == 0 { k + 1 } else { k - 1 }
}

// Of each number of the pairs the first of n stops at the location that its own is near, or n.
fn fill_opposite(
    pairs: &[u16],
    count: usize,
    locations: &[u16],
    n: usize,
    starts: &mut [u16; Stop::FULL],
)
    requires { Paired limits pairs.now count × (n ≤ length locations.now) × (n ≤ limits.stops) × (length starts.old ≡ limits.stops) }
    ensures { starts.new ≡ fill_below (2 * count) (λ k. first_where (at locations.now) n (at pairs.now (other_end k))) starts.old }
{
    let ends = 2 * count;
    let mut links = [0u16; SLOTS];
    let mut first = [0u16; Stop::FULL];
    sharing::fill_trees(locations, n, &mut first, &mut links);
    for k in 0..ends {
        starts[k] = sharing::find(locations, &links, n, pairs[other_end(k)]) as u16;
    }
}

// The stops at near locations linked through the numbers of the pairs, and how many numbers there are.
pub fn link(
    pairs: &[u16],
    locations: &[u16],
    n: usize,
    heads: &mut [u16; Stop::FULL],
    after: &mut [u16; Stop::FULL],
    starts: &mut [u16; Stop::FULL],
) -> usize
    requires sound_pairs { SoundPairs limits pairs.now × (n ≤ length locations.now) × (n ≤ limits.stops) }
    requires heads_len { (length heads.old ≡ limits.stops) × (length after.old ≡ limits.stops) × (length starts.old ≡ limits.stops) }
    ensures { (result ≡ pair_ends pairs.now) × (result ≤ limits.stops) × NumbersLinked pairs.now (at locations.now) n heads.new after.new starts.new }
{
    let count = near::pair_count(pairs);
    if count == 0 {
        return 0;
    }
    fill_ends(pairs, count, locations, n, starts, after, heads);
    fill_opposite(pairs, count, locations, n, starts);
    2 * count
}
