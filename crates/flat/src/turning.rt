// Turn, of a list of dependencies at once, on tables that are of full size and sound. One dependency is a list of one.
ghost use Rattle.std.specs.Prelude.{◌≡◌, true};
ghost use Rattle.tables.specs.Lent.{lent_tables};
ghost use Rattle.tables.specs.Limits.{limits};
ghost use Rattle.call_log.specs.CallLog.{turn_all, is_group};
ghost use Rattle.call_log.specs.Calls.{step, Answered};
ghost use Rattle.flat.specs.Lent.{UsableInForce};
ghost use Rattle.flat.specs.TurnReplies.{turn_meant};

use crate::graph::{flat_stops, flat_waits};
use crate::groups::{exchange_all, flip_all, list_test};
use crate::replies::TurnRefusal;
use cycles::has_cycle;
use tables::entries::{Dependency, Drone, Stop};
use tables::lent::{Plan, Sides};

// "a turn of a list of dependencies, all at once", of a list that passes 36: it flips bit 0 of each, where the graph, which is in the last five tables, has no cycle with all of them turned.
pub fn turn_sound(
    plan: &Plan<'_>,
    visited: &[u16],
    drone_flags: &[u8],
    sides: &Sides<'_>,
    flags: &mut [u8],
    list: &[u16],
    owners: &[u8; Stop::FULL],
    starts: &[u16; Drone::FULL],
    lasts: &[u16; Drone::FULL],
    from: &mut [u16; Dependency::FULL],
    into: &mut [u16; Dependency::FULL],
) -> Result<(), TurnRefusal>
    requires group { is_group list.now ≡ true }
    requires tables { UsableInForce limits owners.now starts.now lasts.now from.old into.old
        (lent_tables plan.now visited.now drone_flags.now sides.now flags.old) }
    ensures { Answered (step limits)
        (lent_tables plan.now visited.now drone_flags.now sides.now flags.old)
        (turn_all list.now) (turn_meant result)
        (lent_tables plan.now visited.now drone_flags.now sides.now flags.new) }
{
    list_test(plan, visited, drone_flags, sides, flags, list)?;
    exchange_all(from, into, list);
    let stops = flat_stops(plan, owners, starts, lasts);
    let waits = flat_waits(plan, from, into);
    if has_cycle(&stops, &waits) {
        return Err(TurnRefusal::Cycle);
    }
    flip_all(flags, list);
    Ok(())
}
