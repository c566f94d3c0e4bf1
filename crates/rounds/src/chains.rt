// The table of each stop's round, by a walk from the stops that are visited: the sum of the legs in the longest chain of unvisited stops that ends there. Each is found once, when
// the walk comes to its stop.
ghost use Rattle.std.specs.Prelude.{◌≡◌, ℕ, ◌+◌, ◌*◌, ◌≤◌, ◌<◌, length};
ghost use Rattle.below.specs.Below.{sum_below, at};
ghost use Rattle.tables.specs.Limits.{limits};
ghost use Rattle.precedence.specs.Graph.{cost};
ghost use Rattle.cycles.specs.Lent.{plan_held};
ghost use Rattle.rounds.specs.Remaining.{ReadyIn, flat_leg, rounds_in};

use cycles::lent::{FlatStops, FlatWaits};
use cycles::walk::walk;
use tables::entries::{Drone, Stop};

// Puts every drone at its last visited stop.
pub fn at_visited(
    starts: &[u16; Drone::FULL],
    visited: &[u16],
    drones: usize,
    cur: &mut [u16; Drone::FULL],
)
    requires { (drones ≤ limits.drones) × (drones ≤ length visited.now) × ((d : ℕ) → d < drones → at starts.now d + at visited.now d < limits.stops) × (length cur.old ≡ limits.drones) }
    ensures { (length cur.new ≡ limits.drones) × ((d : ℕ) → d < drones → at cur.new d ≡ at starts.now d + at visited.now d) }
{
    for d in 0..drones {
        cur[d] = starts[d] + visited[d];
    }
}

// Fills a table that is 0 at first with each stop's round.
pub fn stop_rounds(
    stops: &FlatStops<'_>,
    waits: &FlatWaits<'_>,
    legs: &[u8],
    visited: &[u16],
    table: &mut [u32; Stop::FULL],
)
    requires ready { ReadyIn limits stops.now waits.now legs.now visited.now }
    requires table_len { (length table.old ≡ limits.stops) × ((v : ℕ) → at table.old v ≡ 0) }
    ensures { table.new ≡ rounds_in limits stops.now waits.now (at legs.now) (at visited.now) }
{
    let mut cur = [0u16; Drone::FULL];
    at_visited(stops.starts, visited, stops.drones, &mut cur);
    walk(stops, waits, legs, &mut cur, table);
}

// A drone's remaining rounds: the entry at its last stop.
fn last_round(
    starts: &[u16; Drone::FULL],
    lasts: &[u16; Drone::FULL],
    table: &[u32; Stop::FULL],
    d: usize,
) -> usize
    requires { (d < limits.drones) × (at starts.now d + at lasts.now d < limits.stops) }
    ensures { result ≡ at table.now (at starts.now d + at lasts.now d) }
{
    table[usize::from(starts[d]) + usize::from(lasts[d])] as usize
}

// The sum of the entries at the drones' last stops.
pub fn last_rounds(
    starts: &[u16; Drone::FULL],
    lasts: &[u16; Drone::FULL],
    drones: usize,
    table: &[u32; Stop::FULL],
) -> usize
    requires { (drones ≤ limits.drones) × ((d : ℕ) → d < drones → at starts.now d + at lasts.now d < limits.stops) × ((d : ℕ) → d < drones → at table.now (at starts.now d + at lasts.now d) ≤ limits.leg * limits.stops) }
    ensures { result ≡ sum_below drones (λ d. at table.now (at starts.now d + at lasts.now d)) }
{
    let mut sum: usize = 0;
    for d in 0..drones {
        sum += last_round(starts, lasts, table, d);
    }
    sum
}

// The remaining cost, by chains.
pub fn remaining_cost(
    stops: &FlatStops<'_>,
    waits: &FlatWaits<'_>,
    legs: &[u8],
    visited: &[u16],
) -> usize
    requires { ReadyIn limits stops.now waits.now legs.now visited.now }
    ensures { result ≡ cost (plan_held stops.now waits.now) (flat_leg (at stops.now.starts.now) (at legs.now)) (at visited.now) }
{
    let mut table = [0u32; Stop::FULL];
    stop_rounds(stops, waits, legs, visited, &mut table);
    last_rounds(stops.starts, stops.lasts, stops.drones, &table)
}
