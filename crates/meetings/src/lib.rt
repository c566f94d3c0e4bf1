// The test of a dependency table in near-linear time, over stops that are numbered through; a dependency is a pair of stops. That the entries are clear pairs in rising
// order is tested entry by entry; that none is missing, and that nothing collides, by counting the meetings.
#![tactic(auto)]

mod entries;
mod histogram;
mod nearby;

ghost use Rattle.std.specs.Prelude.{◌≡◌, List, ℕ, ◌≤◌, length};
ghost use Rattle.below.specs.Below.{at};
ghost use Rattle.tables.specs.Limits.{limits};
ghost use Rattle.near.specs.Near.{meets_in, SoundPairs, Paired};
ghost use Rattle.plan.specs.Visits.{visits_of};
ghost use Rattle.plan.specs.Dependencies.{right};
ghost use Rattle.meetings.specs.Meetings.{meeting_total, Grouped};
ghost use Rattle.meetings.specs.Asked.{SteadyStops, PairTable};

use plan::lent::Stops;
use plan::sharing;
use tables::entries::Stop;

// How many pairs of stops of different drones are at locations that meet: at one location, or at near ones. It is called from two places, so that its tables stay out of the
// frame of who goes on with tables of its own.
fn all_meetings(pairs: &[u16], count: usize, stops: &Stops<'_>) -> usize
    requires { Paired limits pairs.now count × Grouped (at stops.now.owners.now) stops.now.count × (stops.now.count ≤ length stops.now.owners.now) × (stops.now.count ≤ length stops.now.locations.now) × (stops.now.count ≤ limits.stops) }
    ensures { result ≡ meeting_total (meets_in pairs.now) (at stops.now.owners.now) (at stops.now.locations.now) stops.now.count }
{
    let mut first = [0u16; Stop::FULL];
    sharing::fill_firsts(stops.locations, stops.count, &mut first);
    let total = histogram::count_meetings(stops.owners, &first, stops.count);
    total + nearby::near_meetings(pairs, count, stops, &mut first)
}

// Whether no two drones collide and the table is the list of the plan's dependencies, in order.
pub fn dependencies_right(
    pairs: &[u16],
    owners: &[u8],
    locations: &[u16],
    times: &[u32],
    n: usize,
    firsts: &[u16],
    seconds: &[u16],
    m: usize,
) -> bool
    requires { SoundPairs limits pairs.now × SteadyStops limits n owners.now locations.now times.now × PairTable m firsts.now seconds.now }
    ensures { (numbers : List ℕ) → result ≡ right (visits_of (meets_in pairs.now) owners.now numbers locations.now times.now n) m (at firsts.now) (at seconds.now) }
{
    let stops = Stops {
        owners,
        locations,
        times,
        count: n,
    };
    let count = near::pair_count(pairs);
    if 0 < count {
        return all_meetings(pairs, count, &stops) == m
            && entries::are_right(pairs, count, &stops, firsts, seconds, m);
    }
    entries::are_right(pairs, 0, &stops, firsts, seconds, m) && all_meetings(pairs, 0, &stops) == m
}
