// The remaining cost and the remaining rounds of tables that are of full size and sound, whose graph now in force is in local tables: by the longest chains, and by rounds played.
ghost use Rattle.std.specs.Prelude.{◌≡◌, ◌≤◌, length};
ghost use Rattle.tables.specs.Limits.{limits};
ghost use Rattle.call_log.specs.Calls.{costs, cost_reply, rounds, rounds_reply};
ghost use Rattle.flat.specs.Lent.{Lent, Whatever, UsableInForce, holding_places};
ghost use Rattle.flat.specs.Places.{Standing};

use crate::graph::{flat_stops, flat_waits};
use cycles::waits::pick16;
use rounds::chains::remaining_cost;
use rounds::playing::play_rounds;
use tables::entries::{Dependency, Drone, Stop};
use tables::flags::is_withdrawn;
use tables::lent::Plan;

// Where each drone counts as standing: a withdrawn one "counts as beyond all its stops".
pub fn fill_places(
    drones: usize,
    visited: &[u16],
    drone_flags: &[u8],
    lasts: &[u16; Drone::FULL],
    places: &mut [u16; Drone::FULL],
)
    requires { (drones ≤ length visited.now) × (drones ≤ length drone_flags.now) × (drones ≤ limits.drones) × (length places.old ≡ limits.drones) }
    ensures { Standing limits.drones drones visited.now drone_flags.now lasts.now places.new }
{
    for d in 0..drones {
        let withdrawn = is_withdrawn(drone_flags[d]);
        places[d] = pick16(withdrawn, lasts[d], visited[d]);
    }
}

// "Remaining cost is their sum": of the rounds until each drone finishes, from the drones' progress and with the order now in force.
pub fn cost_sound(
    plan: &Plan<'_>,
    visited: &[u16],
    drone_flags: &[u8],
    owners: &[u8; Stop::FULL],
    starts: &[u16; Drone::FULL],
    lasts: &[u16; Drone::FULL],
    from: &[u16; Dependency::FULL],
    into: &[u16; Dependency::FULL],
) -> usize
    requires { Lent (holding_places
        plan.now.drone_count.now plan.now.dependency_count.now plan.now.stop_counts.now plan.now.legs.now visited.now drone_flags.now)
        (UsableInForce limits owners.now starts.now lasts.now from.now into.now) }
    ensures { Whatever (holding_places
        plan.now.drone_count.now plan.now.dependency_count.now plan.now.stop_counts.now plan.now.legs.now visited.now drone_flags.now)
        (UsableInForce limits owners.now starts.now lasts.now from.now into.now) (λ t. costs result ≡ cost_reply limits t) }
{
    let stops = flat_stops(plan, owners, starts, lasts);
    let mut places = [0u16; Drone::FULL];
    fill_places(stops.drones, visited, drone_flags, lasts, &mut places);
    let waits = flat_waits(plan, from, into);
    remaining_cost(&stops, &waits, plan.legs, &places)
}

// The undelayed rounds until everybody has landed, from the drones' progress and with the order now in force.
pub fn rounds_sound(
    plan: &Plan<'_>,
    visited: &[u16],
    drone_flags: &[u8],
    owners: &[u8; Stop::FULL],
    starts: &[u16; Drone::FULL],
    lasts: &[u16; Drone::FULL],
    from: &[u16; Dependency::FULL],
    into: &[u16; Dependency::FULL],
) -> usize
    requires { Lent (holding_places
        plan.now.drone_count.now plan.now.dependency_count.now plan.now.stop_counts.now plan.now.legs.now visited.now drone_flags.now)
        (UsableInForce limits owners.now starts.now lasts.now from.now into.now) }
    ensures { Whatever (holding_places
        plan.now.drone_count.now plan.now.dependency_count.now plan.now.stop_counts.now plan.now.legs.now visited.now drone_flags.now)
        (UsableInForce limits owners.now starts.now lasts.now from.now into.now) (λ t. rounds result ≡ rounds_reply limits t) }
{
    let stops = flat_stops(plan, owners, starts, lasts);
    let mut places = [0u16; Drone::FULL];
    fill_places(stops.drones, visited, drone_flags, lasts, &mut places);
    let waits = flat_waits(plan, from, into);
    play_rounds(&stops, &waits, plan.legs, &places).rounds
}
