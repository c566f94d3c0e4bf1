// The entries of a dependency table, tested one by one.
ghost use Rattle.std.specs.Prelude.{◌≡◌, ◌≤◌, ◌<◌, length};
ghost use Rattle.below.specs.Below.{at, all_below, pair_before};
ghost use Rattle.tables.specs.Limits.{limits};
ghost use Rattle.near.specs.Near.{meets_in, Paired};
ghost use Rattle.meetings.specs.Meetings.{clear, entry_right};
ghost use Rattle.meetings.specs.Asked.{StopsSteady, PairTable};

use plan::check::over_at;
use plan::lent::Stops;

// Whether v and w are visits by different drones of locations that meet, and v is over before w begins.
#[tactic(auto, unfolding(crate::specs::Meetings::clear))]
fn is_clear(pairs: &[u16], count: usize, stops: &Stops<'_>, v: usize, w: usize) -> bool
    requires { Paired limits pairs.now count × StopsSteady stops.now × (v < stops.now.count) × (w < stops.now.count) }
    ensures { result ≡ clear (meets_in pairs.now) (at stops.now.owners.now) (at stops.now.locations.now) (at stops.now.times.now) stops.now.count v w }
{
    stops.owners[v] != stops.owners[w]
        && over_at(stops, v, stops.times[w])
        && (stops.locations[v] == stops.locations[w]
            || near::meets(pairs, count, stops.locations[v], stops.locations[w]))
}

// Whether (v, w) comes before (x, y). One comparison, for which of two would decide is hard to foresee.
fn is_before(v: u16, w: u16, x: u16, y: u16) -> bool
    ensures { result ≡ pair_before v w x y }
{
    let earlier = usize::from(v) * 65536 + usize::from(w);
    let later = usize::from(x) * 65536 + usize::from(y);
    earlier < later
}

// Whether entry k holds two stops, the first clear of the second, and comes after entry k - 1.
#[tactic(auto, unfolding(crate::specs::Meetings::entry_right))]
fn is_right(
    pairs: &[u16],
    count: usize,
    stops: &Stops<'_>,
    firsts: &[u16],
    seconds: &[u16],
    k: usize,
) -> bool
    requires { Paired limits pairs.now count × StopsSteady stops.now × (k < length firsts.now) × (k < length seconds.now) }
    ensures { result ≡ entry_right (meets_in pairs.now) (at stops.now.owners.now) (at stops.now.locations.now) (at stops.now.times.now) stops.now.count (at firsts.now) (at seconds.now) k }
{
    let v = usize::from(firsts[k]);
    let w = usize::from(seconds[k]);
    v < stops.count
        && w < stops.count
        && is_clear(pairs, count, stops, v, w)
        && (k == 0 || is_before(firsts[k - 1], seconds[k - 1], firsts[k], seconds[k]))
}

// Whether each of the first m entries is right.
pub fn are_right(
    pairs: &[u16],
    count: usize,
    stops: &Stops<'_>,
    firsts: &[u16],
    seconds: &[u16],
    m: usize,
) -> bool
    requires { Paired limits pairs.now count × StopsSteady stops.now × PairTable m firsts.now seconds.now }
    ensures { result ≡ all_below m (entry_right (meets_in pairs.now) (at stops.now.owners.now) (at stops.now.locations.now) (at stops.now.times.now) stops.now.count (at firsts.now) (at seconds.now)) }
{
    (0..m).all(|k| is_right(pairs, count, stops, firsts, seconds, k))
}
