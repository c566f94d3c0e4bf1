// The graph in local tables as the walks take it: its stops and its waits, with how many there are.
ghost use Rattle.std.specs.Prelude.{◌≡◌, ◌≤◌, length};
ghost use Rattle.below.specs.Below.{at};
ghost use Rattle.plan.specs.Stops.{start};
ghost use Rattle.flat.specs.Graph.{HasCounts};

use cycles::lent::{FlatStops, FlatWaits};
use plan::stops::stop_total;
use tables::entries::{Dependency, Drone, Stop};
use tables::lent::Plan;

// The stops of a plan in local tables.
pub fn flat_stops<'a>(
    plan: &Plan<'_>,
    owners: &'a [u8; Stop::FULL],
    starts: &'a [u16; Drone::FULL],
    lasts: &'a [u16; Drone::FULL],
) -> FlatStops<'a>
    requires { HasCounts plan.now.drone_count.now plan.now.stop_counts.now }
    ensures owners { result.owners.now ≡ owners.now }
    ensures starts { result.starts.now ≡ starts.now }
    ensures lasts { result.lasts.now ≡ lasts.now }
    ensures drones { result.drones ≡ at plan.now.drone_count.now 0 }
    ensures count { result.count ≡ start plan.now.stop_counts.now (at plan.now.drone_count.now 0) }
{
    let drones = usize::from(plan.drone_count[0]);
    FlatStops {
        owners,
        starts,
        lasts,
        drones,
        count: stop_total(drones, plan.stop_counts),
    }
}

// The waits between them.
pub fn flat_waits<'a>(
    plan: &Plan<'_>,
    from: &'a [u16; Dependency::FULL],
    into: &'a [u16; Dependency::FULL],
) -> FlatWaits<'a>
    requires { 1 ≤ length plan.now.dependency_count.now }
    ensures from { result.from.now ≡ from.now }
    ensures into { result.into.now ≡ into.now }
    ensures count { result.count ≡ at plan.now.dependency_count.now 0 }
{
    FlatWaits {
        from,
        into,
        count: usize::from(plan.dependency_count[0]),
    }
}
