// The test of full sizes, refusal 41.
ghost use Rattle.std.specs.Prelude.{◌≡◌};
ghost use Rattle.tables.specs.Limits.{limits};
ghost use Rattle.tables.specs.Tables.{full_size};
ghost use Rattle.tables.specs.Lent.{lent_tables};

use crate::entries::{Dependency, Drone, FORM, NearPair, Stop};
use crate::lent::{Plan, Sides};

// No lent table is below full size.
pub fn full_size(
    plan: &Plan<'_>,
    visited: &[u16],
    drone_flags: &[u8],
    sides: &Sides<'_>,
    flags: &[u8],
) -> bool
    ensures { result ≡ full_size limits (lent_tables plan.now visited.now drone_flags.now sides.now flags.now) }
{
    if plan.drone_count.len() < Drone::COUNT || plan.dependency_count.len() < Dependency::COUNT {
        return false;
    }
    if plan.names.len() < Drone::NAMES || plan.stop_counts.len() < Drone::FULL {
        return false;
    }
    if plan.locations.len() < Stop::FULL || plan.times.len() < Stop::FULL {
        return false;
    }
    if plan.legs.len() < Stop::FULL || plan.form.len() < FORM {
        return false;
    }
    if sides.first_drones.len() < Dependency::FULL || sides.first_stops.len() < Dependency::FULL {
        return false;
    }
    if sides.second_drones.len() < Dependency::FULL || sides.second_stops.len() < Dependency::FULL {
        return false;
    }
    if visited.len() < Drone::FULL || drone_flags.len() < Drone::FULL {
        return false;
    }
    if flags.len() < Dependency::FULL {
        return false;
    }
    plan.pairs.len() >= NearPair::NUMBERS
}
