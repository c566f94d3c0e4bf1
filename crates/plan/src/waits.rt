// What a drone waits for: the lowest dependency that is not met yet into its next stop.
ghost use Rattle.std.specs.Prelude.{◌||◌, ◌≡◌, ◌+◌, ◌<◌, length};
ghost use Rattle.below.specs.Below.{at};
ghost use Rattle.tables.specs.Flags.{turned_bit};
ghost use Rattle.precedence.specs.Graph.{departure};
ghost use Rattle.plan.specs.Field.{wait_unless};
ghost use Rattle.plan.specs.Status.{unmet};
ghost use Rattle.plan.specs.Columns.{columns_held};
ghost use Rattle.plan.specs.Waits.{blocks_next, entry_blocks, withdrawn_in, plan_in, status_of};
ghost use Rattle.plan.specs.Room.{WaitsRoom};

use crate::check::StopAt;
use tables::flags::{is_turned, is_withdrawn};
use tables::lent::Sides;

// Whether the rule that the second drone may enter its stop only after the first has visited the stop after its own keeps drone d from its next stop. Where one of
// the two is withdrawn, it keeps nobody.
#[tactic(auto, unfolding(crate::specs::Waits::blocks_next))]
fn blocks_next(first: StopAt, second: StopAt, visited: &[u16], drone_flags: &[u8], d: usize) -> bool
    requires { (first.drone < length visited.now) × (d < length visited.now) × (first.drone < length drone_flags.now) × (second.drone < length drone_flags.now) }
    ensures { result ≡ blocks_next (wait_unless (withdrawn_in drone_flags.now first.drone || withdrawn_in drone_flags.now second.drone) (departure first.drone first.stop second.drone second.stop)) (at visited.now) d }
{
    second.drone == d
        && second.stop == usize::from(visited[d]) + 1
        && !is_withdrawn(drone_flags[first.drone])
        && !is_withdrawn(drone_flags[second.drone])
        && usize::from(visited[first.drone]) <= first.stop
}

// The same for dependency e, in the order now in force.
fn entry_blocks(
    visited: &[u16],
    drone_flags: &[u8],
    sides: &Sides<'_>,
    flags: &[u8],
    e: usize,
    d: usize,
) -> bool
    requires { WaitsRoom (e + 1) visited.now drone_flags.now (columns_held sides.now flags.now) d }
    ensures { result ≡ entry_blocks (turned_bit (at flags.now e)) (at sides.now.first_drones.now e) (at sides.now.first_stops.now e) (at sides.now.second_drones.now e) (at sides.now.second_stops.now e) (at visited.now) (withdrawn_in drone_flags.now) d }
{
    let first = StopAt {
        drone: usize::from(sides.first_drones[e]),
        stop: usize::from(sides.first_stops[e]),
    };
    let second = StopAt {
        drone: usize::from(sides.second_drones[e]),
        stop: usize::from(sides.second_stops[e]),
    };
    if is_turned(flags[e]) {
        blocks_next(second, first, visited, drone_flags, d)
    } else {
        blocks_next(first, second, visited, drone_flags, d)
    }
}

// The lowest dependency not met into drone d's next stop; the count if there is none.
pub fn first_unmet(
    count: usize,
    visited: &[u16],
    drone_flags: &[u8],
    sides: &Sides<'_>,
    flags: &[u8],
    d: usize,
) -> usize
    requires { WaitsRoom count visited.now drone_flags.now (columns_held sides.now flags.now) d }
    ensures { result ≡ unmet (plan_in count (columns_held sides.now flags.now)) (status_of visited.now drone_flags.now (columns_held sides.now flags.now)) d }
{
    for e in 0..count {
        if entry_blocks(visited, drone_flags, sides, flags, e, d) {
            return e;
        }
    }
    count
}
