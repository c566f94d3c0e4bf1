// The number of meetings, by a histogram over the locations that is filled drone by drone. A location's entry is at its first stop.
ghost use Rattle.std.specs.Prelude.{◌≡◌, ◌≤◌, ◌<◌, length};
ghost use Rattle.below.specs.Below.{at};
ghost use Rattle.tables.specs.Limits.{limits};
ghost use Rattle.plan.specs.Visits.{same_location};
ghost use Rattle.meetings.specs.Meetings.{meeting_total, Grouped};
ghost use Rattle.meetings.specs.Histogram.{Indexed, Tally, Run, Settled};

use tables::entries::Stop;

// Adds the stops lo to hi - 1 to the histogram.
fn mark(firsts: &[u16; Stop::FULL], n: usize, counts: &mut [u16; Stop::FULL], lo: usize, hi: usize)
    requires { Indexed limits firsts.now n × Tally limits firsts.now counts.old n lo × (lo ≤ hi) × (hi ≤ n) }
    ensures { Tally limits firsts.now counts.new n hi }
{
    for f in &firsts[lo..hi] {
        counts[usize::from(*f)] += 1;
    }
}

// Where stop w begins the next drone, adds the drone before it to the histogram. Answers the first stop of w's drone.
pub fn settle(
    owners: &[u8],
    firsts: &[u16; Stop::FULL],
    n: usize,
    counts: &mut [u16; Stop::FULL],
    lo: usize,
    w: usize,
) -> usize
    requires indexed { Indexed limits firsts.now n × Tally limits firsts.now counts.old n lo × Run (at owners.now) lo w × Grouped (at owners.now) n }
    requires w_lt_n { (w < n) × (n ≤ length owners.now) }
    ensures { Settled limits owners.now firsts.now counts.new n w result }
{
    if owners[w] == owners[lo] {
        return lo;
    }
    mark(firsts, n, counts, lo, w);
    w
}

// How many pairs of stops of different drones share a location.
pub fn count_meetings(owners: &[u8], firsts: &[u16; Stop::FULL], n: usize) -> usize
    requires { Indexed limits firsts.now n × Grouped (at owners.now) n × (n ≤ length owners.now) }
    ensures { result ≡ meeting_total same_location (at owners.now) (at firsts.now) n }
{
    let mut counts = [0u16; Stop::FULL];
    let mut total: usize = 0;
    let mut lo = 0;
    for w in 0..n {
        lo = settle(owners, firsts, n, &mut counts, lo, w);
        let f = usize::from(firsts[w]);
        total += usize::from(counts[f]);
    }
    total
}
