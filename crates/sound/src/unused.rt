// Unused entries are zero: those from the number in use on, up to the full size. The loop counts those that are not and has no early end, so that many entries are taken at a time.
ghost use Rattle.std.specs.Prelude.{◌&&◌, ◌≡◌, ◌*◌, ◌≤◌, length};
ghost use Rattle.tables.specs.Limits.{limits};
ghost use Rattle.sound.specs.Sound.{passes_from, zero_from};

use tables::entries::{Dependency, Drone, Stop};
use tables::lent::{Plan, Sides};

pub fn is_zero<T: Copy + PartialEq>(used: usize, full: usize, table: &[T], zero: T) -> bool
    requires { (full ≤ length table.now) × (full ≤ 65535) }
    ensures { result ≡ passes_from (λ x. T.eq x zero) zero used full table.now }
{
    let mut total: u16 = 0;
    for i in used..full {
        total += u16::from(table[i] != zero);
    }
    total == 0
}

#[tactic(auto, unfolding(crate::specs::Sound::zero_from))]
fn stops_unused(plan: &Plan<'_>, drones: usize, n: usize) -> bool
    requires { (limits.drones ≤ length plan.now.stop_counts.now) × (limits.stops ≤ length plan.now.locations.now) × (limits.stops ≤ length plan.now.times.now) × (limits.stops ≤ length plan.now.legs.now) }
    ensures { result ≡ zero_from drones limits.drones plan.now.stop_counts.now && (zero_from n limits.stops plan.now.locations.now && (zero_from n limits.stops plan.now.times.now && zero_from n limits.stops plan.now.legs.now)) }
{
    is_zero(drones, Drone::FULL, plan.stop_counts, 0)
        && is_zero(n, Stop::FULL, plan.locations, 0)
        && is_zero(n, Stop::FULL, plan.times, 0)
        && is_zero(n, Stop::FULL, plan.legs, 0)
}

#[tactic(auto, unfolding(crate::specs::Sound::zero_from))]
fn records_unused(sides: &Sides<'_>, m: usize) -> bool
    requires { (limits.dependencies ≤ length sides.now.first_drones.now) × (limits.dependencies ≤ length sides.now.first_stops.now) × (limits.dependencies ≤ length sides.now.second_drones.now) × (limits.dependencies ≤ length sides.now.second_stops.now) }
    ensures { result ≡ zero_from m limits.dependencies sides.now.first_drones.now && (zero_from m limits.dependencies sides.now.first_stops.now && (zero_from m limits.dependencies sides.now.second_drones.now && zero_from m limits.dependencies sides.now.second_stops.now)) }
{
    is_zero(m, Dependency::FULL, sides.first_drones, 0)
        && is_zero(m, Dependency::FULL, sides.first_stops, 0)
        && is_zero(m, Dependency::FULL, sides.second_drones, 0)
        && is_zero(m, Dependency::FULL, sides.second_stops, 0)
}

// Of the tables that no call writes.
#[tactic(auto, unfolding(crate::specs::Sound::zero_from))]
pub fn plan_unused(plan: &Plan<'_>, sides: &Sides<'_>, drones: usize, n: usize, m: usize) -> bool
    requires drones_le_drones { (drones ≤ limits.drones) × (limits.drones * limits.name ≤ length plan.now.names.now) }
    requires drones_in_bounds { (limits.drones ≤ length plan.now.stop_counts.now) × (limits.stops ≤ length plan.now.locations.now) × (limits.stops ≤ length plan.now.times.now) × (limits.stops ≤ length plan.now.legs.now) }
    requires dependencies_in_bounds { (limits.dependencies ≤ length sides.now.first_drones.now) × (limits.dependencies ≤ length sides.now.first_stops.now) × (limits.dependencies ≤ length sides.now.second_drones.now) × (limits.dependencies ≤ length sides.now.second_stops.now) }
    ensures { result ≡ zero_from (drones * limits.name) (limits.drones * limits.name) plan.now.names.now && ((zero_from drones limits.drones plan.now.stop_counts.now && (zero_from n limits.stops plan.now.locations.now && (zero_from n limits.stops plan.now.times.now && zero_from n limits.stops plan.now.legs.now))) && (zero_from m limits.dependencies sides.now.first_drones.now && (zero_from m limits.dependencies sides.now.first_stops.now && (zero_from m limits.dependencies sides.now.second_drones.now && zero_from m limits.dependencies sides.now.second_stops.now)))) }
{
    is_zero(drones * Drone::NAME, Drone::NAMES, plan.names, 0)
        && stops_unused(plan, drones, n)
        && records_unused(sides, m)
}

// Of the tables that calls write.
#[tactic(auto, unfolding(crate::specs::Sound::zero_from))]
pub fn progress_unused(
    drones: usize,
    m: usize,
    visited: &[u16],
    drone_flags: &[u8],
    flags: &[u8],
) -> bool
    requires { (limits.drones ≤ length visited.now) × (limits.drones ≤ length drone_flags.now) × (limits.dependencies ≤ length flags.now) }
    ensures { result ≡ zero_from drones limits.drones visited.now && (zero_from drones limits.drones drone_flags.now && zero_from m limits.dependencies flags.now) }
{
    is_zero(drones, Drone::FULL, visited, 0)
        && is_zero(drones, Drone::FULL, drone_flags, 0)
        && is_zero(m, Dependency::FULL, flags, 0)
}
