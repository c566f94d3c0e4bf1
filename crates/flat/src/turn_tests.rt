// What is asked of one dependency before it is turned: 30, 35, 31 and 32.
ghost use Rattle.std.specs.Prelude.{◌≡◌, cond, ◌<◌, length};
ghost use Rattle.below.specs.Below.{at};
ghost use Rattle.tables.specs.Limits.{limits};
ghost use Rattle.sound.specs.Parts.{entered_by};
ghost use Rattle.call_log.specs.Claims.{Usable};
ghost use Rattle.flat.specs.Lent.{Lent, Whatever, holding_dependencies};
ghost use Rattle.flat.specs.TurnTests.{test_of};

use crate::replies::TurnRefusal;
use cycles::waits::either_withdrawn;
use sound::entered::has_entered;
use tables::flags::{is_fixed, is_turned};
use tables::lent::{Plan, Sides};

// Whether one side of a dependency, a drone and its stop, is entered.
fn side_entered(
    visited: &[u16],
    drone_flags: &[u8],
    drones: &[u8],
    stops: &[u16],
    dependency: usize,
) -> bool
    requires { (dependency < length drones.now) × (dependency < length stops.now) × (at drones.now dependency < length visited.now) × (at drones.now dependency < length drone_flags.now) }
    ensures { result ≡ entered_by (at visited.now (at drones.now dependency)) (at drone_flags.now (at drones.now dependency)) (at stops.now dependency) }
{
    let drone = usize::from(drones[dependency]);
    has_entered(visited[drone], drone_flags[drone], stops[dependency])
}

// What holds of a side in the order now in force: of the other side when the dependency is turned.
fn in_force(turned: bool, planned: bool, other: bool) -> bool
    ensures { result ≡ cond turned other planned }
{
    if turned { other } else { planned }
}

// "30 no such dependency", "35, a drone of the dependency is withdrawn", "31 fixed; 32 the first drone has visited or is under way to its stop", with the order now in force: the first that holds.
pub fn turn_test(
    plan: &Plan<'_>,
    visited: &[u16],
    drone_flags: &[u8],
    sides: &Sides<'_>,
    flags: &[u8],
    dependency: usize,
) -> Result<(), TurnRefusal>
    requires { Lent (holding_dependencies
        plan.now.dependency_count.now visited.now drone_flags.now
        sides.now.first_drones.now sides.now.first_stops.now sides.now.second_drones.now sides.now.second_stops.now flags.now)
        (Usable limits) }
    ensures { Whatever (holding_dependencies
        plan.now.dependency_count.now visited.now drone_flags.now
        sides.now.first_drones.now sides.now.first_stops.now sides.now.second_drones.now sides.now.second_stops.now flags.now)
        (Usable limits) (λ t. result ≡ test_of t dependency) }
{
    let count = usize::from(plan.dependency_count[0]);
    if count <= dependency {
        return Err(TurnRefusal::NoDependency);
    }
    let first_drone = usize::from(sides.first_drones[dependency]);
    let second_drone = usize::from(sides.second_drones[dependency]);
    if either_withdrawn(drone_flags, first_drone, second_drone) {
        return Err(TurnRefusal::Withdrawn);
    }
    let flag = flags[dependency];
    if is_fixed(flag) {
        return Err(TurnRefusal::Fixed);
    }
    let first = side_entered(
        visited,
        drone_flags,
        sides.first_drones,
        sides.first_stops,
        dependency,
    );
    let second = side_entered(
        visited,
        drone_flags,
        sides.second_drones,
        sides.second_stops,
        dependency,
    );
    let turned = is_turned(flag);
    if in_force(turned, first, second) {
        return Err(TurnRefusal::FirstEntered);
    }
    Ok(())
}
