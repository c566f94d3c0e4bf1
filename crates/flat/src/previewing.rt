// The preview of a turn of a list of dependencies, on tables that are of full size and sound: as the turn, but the waits are turned in local tables alone.
ghost use Rattle.std.specs.Prelude.{◌≡◌, true, ◌^◌, ◌<◌};
ghost use Rattle.std.proofs.Math.IntN.{sub_ℕ};
ghost use Rattle.tables.specs.Lent.{lent_tables};
ghost use Rattle.tables.specs.Limits.{limits};
ghost use Rattle.call_log.specs.CallLog.{is_group};
ghost use Rattle.call_log.specs.Preview.{preview_all};
ghost use Rattle.flat.specs.Lent.{UsableInForce};
ghost use Rattle.flat.specs.TurnReplies.{preview_meant};

use crate::costing::fill_places;
use crate::graph::{flat_stops, flat_waits};
use crate::groups::{exchange_all, list_test};
use crate::replies::TurnRefusal;
use cycles::has_cycle;
use rounds::chains::remaining_cost;
use tables::entries::{Dependency, Drone, Stop};
use tables::lent::{Plan, Sides};

// A number less another, which may be the greater one.
fn difference(after: usize, before: usize) -> i32
    requires { (after < 2 ^ 31) × (before < 2 ^ 31) }
    ensures { result ≡ sub_ℕ after before }
{
    after as i32 - before as i32
}

// "the cost after it less the cost now", or why the turn would be refused, of a list that passes 36.
pub fn preview_sound(
    plan: &Plan<'_>,
    visited: &[u16],
    drone_flags: &[u8],
    sides: &Sides<'_>,
    flags: &[u8],
    list: &[u16],
    owners: &[u8; Stop::FULL],
    starts: &[u16; Drone::FULL],
    lasts: &[u16; Drone::FULL],
    from: &mut [u16; Dependency::FULL],
    into: &mut [u16; Dependency::FULL],
) -> Result<i32, TurnRefusal>
    requires group { is_group list.now ≡ true }
    requires tables { UsableInForce limits owners.now starts.now lasts.now from.old into.old
        (lent_tables plan.now visited.now drone_flags.now sides.now flags.now) }
    ensures { preview_meant result ≡ preview_all limits
        (lent_tables plan.now visited.now drone_flags.now sides.now flags.now)
        list.now }
{
    list_test(plan, visited, drone_flags, sides, flags, list)?;
    let stops = flat_stops(plan, owners, starts, lasts);
    let mut places = [0u16; Drone::FULL];
    fill_places(stops.drones, visited, drone_flags, lasts, &mut places);
    let waits = flat_waits(plan, from, into);
    let before = remaining_cost(&stops, &waits, plan.legs, &places);
    exchange_all(from, into, list);
    let turned = flat_waits(plan, from, into);
    if has_cycle(&stops, &turned) {
        return Err(TurnRefusal::Cycle);
    }
    let after = remaining_cost(&stops, &turned, plan.legs, &places);
    Ok(difference(after, before))
}
