// The public calls: 41 a lent table is below full size, then 40 not sound, then the call itself.
// Each call zeroes the local tables of the graph itself: as one value out of a function of their own they would be copied, and the stack is short.
ghost use Rattle.std.specs.Prelude.{◌≡◌, OnOk};
ghost use Rattle.tables.specs.Lent.{lent_tables};
ghost use Rattle.tables.specs.Limits.{limits};
ghost use Rattle.sound.specs.Asked.{WaitsInForce, Room};
ghost use Rattle.call_log.specs.CallLog.{grant as grant_of, arrive as arrive_of, withdraw as withdraw_of, turn as turn_of, turn_all as turn_all_of};
ghost use Rattle.call_log.specs.Calls.{step, Answered, cost_reply, rounds_reply};
ghost use Rattle.call_log.specs.Preview.{preview as preview_of, preview_all as preview_all_of};
ghost use Rattle.flat.specs.Replies.{grant_meant, arrive_meant, withdraw_meant};
ghost use Rattle.flat.specs.TurnReplies.{turn_meant, turn_all_meant, preview_meant, preview_all_meant, cost_meant, rounds_meant};
ghost use Rattle.flat.specs.Checking.{tables_check_of};
ghost use Rattle.flat.specs.Writing.{write_meant, PlanWritten};

use crate::cores::{arrive_sound, grant_sound, withdraw_sound, write_sound};
use crate::costing::{cost_sound, rounds_sound};
use crate::groups::is_group;
use crate::previewing::preview_sound;
use crate::replies::{
    ArriveRefusal, GrantRefusal, TablesFault, TurnAllRefusal, TurnRefusal, WithdrawRefusal,
    WriteRefusal,
};
use crate::turning::turn_sound;
use sound::check;
use tables::entries::{Dependency, Drone, Stop};
use tables::lent::{Plan, Sides};
use tables::sizes::full_size;

// "41 a lent table is below full size", then "40 not sound". Of tables that can be used it leaves the graph now in force in the last five tables.
pub fn check_graph(
    plan: &Plan<'_>,
    visited: &[u16],
    drone_flags: &[u8],
    sides: &Sides<'_>,
    flags: &[u8],
    owners: &mut [u8; Stop::FULL],
    starts: &mut [u16; Drone::FULL],
    lasts: &mut [u16; Drone::FULL],
    from: &mut [u16; Dependency::FULL],
    into: &mut [u16; Dependency::FULL],
) -> Result<(), TablesFault>
    requires { Room limits owners.old starts.old lasts.old from.old into.old }
    ensures checked { result ≡ tables_check_of limits (lent_tables plan.now visited.now drone_flags.now sides.now flags.now) }
    ensures in_force { OnOk result (WaitsInForce limits
        (lent_tables plan.now visited.now drone_flags.now sides.now flags.now)
        owners.new starts.new lasts.new from.new into.new) }
{
    if !full_size(plan, visited, drone_flags, sides, flags) {
        return Err(TablesFault::TooSmall);
    }
    if !check(
        plan,
        visited,
        drone_flags,
        sides,
        flags,
        owners,
        starts,
        lasts,
        from,
        into,
    ) {
        return Err(TablesFault::NotSound);
    }
    Ok(())
}

// "41 a lent table is below full size", then "40 not sound".
fn check_tables(
    plan: &Plan<'_>,
    visited: &[u16],
    drone_flags: &[u8],
    sides: &Sides<'_>,
    flags: &[u8],
) -> Result<(), TablesFault>
    ensures { result ≡ tables_check_of limits (lent_tables plan.now visited.now drone_flags.now sides.now flags.now) }
{
    let mut owners = [0u8; Stop::FULL];
    let mut starts = [0u16; Drone::FULL];
    let mut lasts = [0u16; Drone::FULL];
    let mut from = [0u16; Dependency::FULL];
    let mut into = [0u16; Dependency::FULL];
    check_graph(
        plan,
        visited,
        drone_flags,
        sides,
        flags,
        &mut owners,
        &mut starts,
        &mut lasts,
        &mut from,
        &mut into,
    )
}

// "Grant: the drone becomes under way when every dependency into its next stop has the awaited stop visited".
pub fn grant(
    plan: &Plan<'_>,
    visited: &[u16],
    drone_flags: &mut [u8],
    sides: &Sides<'_>,
    flags: &[u8],
    drone: usize,
) -> Result<(), GrantRefusal>
    ensures { Answered (step limits)
        (lent_tables plan.now visited.now drone_flags.old sides.now flags.now)
        (grant_of drone) (grant_meant result)
        (lent_tables plan.now visited.now drone_flags.new sides.now flags.now) }
{
    check_tables(plan, visited, drone_flags, sides, flags)?;
    grant_sound(plan, visited, drone_flags, sides, flags, drone)
}

// "Arrive: a drone under way has visited its next stop and is no longer under way".
pub fn arrive(
    plan: &Plan<'_>,
    visited: &mut [u16],
    drone_flags: &mut [u8],
    sides: &Sides<'_>,
    flags: &[u8],
    drone: usize,
) -> Result<(), ArriveRefusal>
    ensures { Answered (step limits)
        (lent_tables plan.now visited.old drone_flags.old sides.now flags.now)
        (arrive_of drone) (arrive_meant result)
        (lent_tables plan.now visited.new drone_flags.new sides.now flags.now) }
{
    check_tables(plan, visited, drone_flags, sides, flags)?;
    arrive_sound(plan, visited, drone_flags, sides, flags, drone)
}

// "Withdrawing changes only a mark in the drone's record, and nothing else sets it".
pub fn withdraw(
    plan: &Plan<'_>,
    visited: &[u16],
    drone_flags: &mut [u8],
    sides: &Sides<'_>,
    flags: &[u8],
    drone: usize,
) -> Result<(), WithdrawRefusal>
    ensures { Answered (step limits)
        (lent_tables plan.now visited.now drone_flags.old sides.now flags.now)
        (withdraw_of drone) (withdraw_meant result)
        (lent_tables plan.now visited.now drone_flags.new sides.now flags.now) }
{
    check_tables(plan, visited, drone_flags, sides, flags)?;
    withdraw_sound(plan, visited, drone_flags, sides, flags, drone)
}

// "Turn: flips bit 0 of one dependency". A number that does not fit sixteen bits names no dependency: no table has room for so many.
pub fn turn(
    plan: &Plan<'_>,
    visited: &[u16],
    drone_flags: &[u8],
    sides: &Sides<'_>,
    flags: &mut [u8],
    dependency: usize,
) -> Result<(), TurnRefusal>
    ensures { Answered (step limits)
        (lent_tables plan.now visited.now drone_flags.now sides.now flags.old)
        (turn_of dependency) (turn_meant result)
        (lent_tables plan.now visited.now drone_flags.now sides.now flags.new) }
{
    let mut owners = [0u8; Stop::FULL];
    let mut starts = [0u16; Drone::FULL];
    let mut lasts = [0u16; Drone::FULL];
    let mut from = [0u16; Dependency::FULL];
    let mut into = [0u16; Dependency::FULL];
    check_graph(
        plan,
        visited,
        drone_flags,
        sides,
        flags,
        &mut owners,
        &mut starts,
        &mut lasts,
        &mut from,
        &mut into,
    )?;
    let Ok(one) = u16::try_from(dependency) else {
        return Err(TurnRefusal::NoDependency);
    };
    turn_sound(
        plan,
        visited,
        drone_flags,
        sides,
        flags,
        &[one],
        &owners,
        &starts,
        &lasts,
        &mut from,
        &mut into,
    )
}

// "a turn of a list of dependencies, all at once".
pub fn turn_all(
    plan: &Plan<'_>,
    visited: &[u16],
    drone_flags: &[u8],
    sides: &Sides<'_>,
    flags: &mut [u8],
    list: &[u16],
) -> Result<(), TurnAllRefusal>
    ensures { Answered (step limits)
        (lent_tables plan.now visited.now drone_flags.now sides.now flags.old)
        (turn_all_of list.now) (turn_all_meant result)
        (lent_tables plan.now visited.now drone_flags.now sides.now flags.new) }
{
    let mut owners = [0u8; Stop::FULL];
    let mut starts = [0u16; Drone::FULL];
    let mut lasts = [0u16; Drone::FULL];
    let mut from = [0u16; Dependency::FULL];
    let mut into = [0u16; Dependency::FULL];
    check_graph(
        plan,
        visited,
        drone_flags,
        sides,
        flags,
        &mut owners,
        &mut starts,
        &mut lasts,
        &mut from,
        &mut into,
    )?;
    if !is_group(list) {
        return Err(TurnAllRefusal::NotRising);
    }
    turn_sound(
        plan,
        visited,
        drone_flags,
        sides,
        flags,
        list,
        &owners,
        &starts,
        &lasts,
        &mut from,
        &mut into,
    )
    .map_err(TurnAllRefusal::Turn)
}

// "The preview replies with what the turn would reply. When it would be done, it also gives the cost after it less the cost now".
pub fn preview(
    plan: &Plan<'_>,
    visited: &[u16],
    drone_flags: &[u8],
    sides: &Sides<'_>,
    flags: &[u8],
    dependency: usize,
) -> Result<i32, TurnRefusal>
    ensures { preview_meant result ≡ preview_of limits
        (lent_tables plan.now visited.now drone_flags.now sides.now flags.now)
        dependency }
{
    let mut owners = [0u8; Stop::FULL];
    let mut starts = [0u16; Drone::FULL];
    let mut lasts = [0u16; Drone::FULL];
    let mut from = [0u16; Dependency::FULL];
    let mut into = [0u16; Dependency::FULL];
    check_graph(
        plan,
        visited,
        drone_flags,
        sides,
        flags,
        &mut owners,
        &mut starts,
        &mut lasts,
        &mut from,
        &mut into,
    )?;
    let Ok(one) = u16::try_from(dependency) else {
        return Err(TurnRefusal::NoDependency);
    };
    preview_sound(
        plan,
        visited,
        drone_flags,
        sides,
        flags,
        &[one],
        &owners,
        &starts,
        &lasts,
        &mut from,
        &mut into,
    )
}

// "The preview takes a list too".
pub fn preview_all(
    plan: &Plan<'_>,
    visited: &[u16],
    drone_flags: &[u8],
    sides: &Sides<'_>,
    flags: &[u8],
    list: &[u16],
) -> Result<i32, TurnAllRefusal>
    ensures { preview_all_meant result ≡ preview_all_of limits
        (lent_tables plan.now visited.now drone_flags.now sides.now flags.now)
        list.now }
{
    let mut owners = [0u8; Stop::FULL];
    let mut starts = [0u16; Drone::FULL];
    let mut lasts = [0u16; Drone::FULL];
    let mut from = [0u16; Dependency::FULL];
    let mut into = [0u16; Dependency::FULL];
    check_graph(
        plan,
        visited,
        drone_flags,
        sides,
        flags,
        &mut owners,
        &mut starts,
        &mut lasts,
        &mut from,
        &mut into,
    )?;
    if !is_group(list) {
        return Err(TurnAllRefusal::NotRising);
    }
    preview_sound(
        plan,
        visited,
        drone_flags,
        sides,
        flags,
        list,
        &owners,
        &starts,
        &lasts,
        &mut from,
        &mut into,
    )
    .map_err(TurnAllRefusal::Turn)
}

// Writes the text of the plan that the tables hold: "42 buffer shorter than the text".
pub fn write_plan(
    plan: &Plan<'_>,
    visited: &[u16],
    drone_flags: &[u8],
    sides: &Sides<'_>,
    flags: &[u8],
    buf: &mut [u8],
) -> Result<usize, WriteRefusal>
    ensures { PlanWritten limits
        (lent_tables plan.now visited.now drone_flags.now sides.now flags.now)
        buf.old buf.new (write_meant result) }
{
    check_tables(plan, visited, drone_flags, sides, flags)?;
    write_sound(plan, visited, drone_flags, sides, flags, buf)
}

// "Remaining cost is their sum": of the drones' remaining rounds, with the order now in force. It changes nothing.
pub fn cost(
    plan: &Plan<'_>,
    visited: &[u16],
    drone_flags: &[u8],
    sides: &Sides<'_>,
    flags: &[u8],
) -> Result<usize, TablesFault>
    ensures { cost_meant result ≡ cost_reply limits (lent_tables plan.now visited.now drone_flags.now sides.now flags.now) }
{
    let mut owners = [0u8; Stop::FULL];
    let mut starts = [0u16; Drone::FULL];
    let mut lasts = [0u16; Drone::FULL];
    let mut from = [0u16; Dependency::FULL];
    let mut into = [0u16; Dependency::FULL];
    check_graph(
        plan,
        visited,
        drone_flags,
        sides,
        flags,
        &mut owners,
        &mut starts,
        &mut lasts,
        &mut from,
        &mut into,
    )?;
    Ok(cost_sound(
        plan,
        visited,
        drone_flags,
        &owners,
        &starts,
        &lasts,
        &from,
        &into,
    ))
}

// The undelayed rounds until everybody has landed, with the order now in force. It changes nothing.
pub fn rounds(
    plan: &Plan<'_>,
    visited: &[u16],
    drone_flags: &[u8],
    sides: &Sides<'_>,
    flags: &[u8],
) -> Result<usize, TablesFault>
    ensures { rounds_meant result ≡ rounds_reply limits (lent_tables plan.now visited.now drone_flags.now sides.now flags.now) }
{
    let mut owners = [0u8; Stop::FULL];
    let mut starts = [0u16; Drone::FULL];
    let mut lasts = [0u16; Drone::FULL];
    let mut from = [0u16; Dependency::FULL];
    let mut into = [0u16; Dependency::FULL];
    check_graph(
        plan,
        visited,
        drone_flags,
        sides,
        flags,
        &mut owners,
        &mut starts,
        &mut lasts,
        &mut from,
        &mut into,
    )?;
    Ok(rounds_sound(
        plan,
        visited,
        drone_flags,
        &owners,
        &starts,
        &lasts,
        &from,
        &into,
    ))
}
