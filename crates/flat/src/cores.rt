// The calls on tables that are of full size and sound.
ghost use Rattle.tables.specs.Lent.{lent_tables};
ghost use Rattle.tables.specs.Limits.{limits};
ghost use Rattle.call_log.specs.CallLog.{grant, arrive, withdraw};
ghost use Rattle.call_log.specs.Calls.{step, Answered};
ghost use Rattle.call_log.specs.Claims.{Usable};
ghost use Rattle.flat.specs.Replies.{grant_meant, arrive_meant, withdraw_meant};
ghost use Rattle.flat.specs.Writing.{write_meant, PlanWritten};

use crate::replies::{ArriveRefusal, GrantRefusal, WithdrawRefusal, WriteRefusal};
use plan::waits::first_unmet;
use tables::flags::{
    is_under_way, is_withdrawn, with_under_way, with_withdrawn, without_under_way,
};
use tables::lent::{Plan, Sides};
use text::writer::write_text;

// "the drone becomes under way when every dependency into its next stop has the awaited stop visited".
pub fn grant_sound(
    plan: &Plan<'_>,
    visited: &[u16],
    drone_flags: &mut [u8],
    sides: &Sides<'_>,
    flags: &[u8],
    drone: usize,
) -> Result<(), GrantRefusal>
    requires { Usable limits (lent_tables plan.now visited.now drone_flags.old sides.now flags.now) }
    ensures { Answered (step limits)
        (lent_tables plan.now visited.now drone_flags.old sides.now flags.now)
        (grant drone) (grant_meant result)
        (lent_tables plan.now visited.now drone_flags.new sides.now flags.now) }
{
    let drones = usize::from(plan.drone_count[0]);
    if drones <= drone {
        return Err(GrantRefusal::NoDrone);
    }
    let flag = drone_flags[drone];
    if is_withdrawn(flag) {
        return Err(GrantRefusal::Withdrawn);
    }
    let last = plan.stop_counts[drone] - 1;
    if last <= visited[drone] {
        return Err(GrantRefusal::Finished);
    }
    if is_under_way(flag) {
        return Err(GrantRefusal::UnderWay);
    }
    let count = usize::from(plan.dependency_count[0]);
    let unmet = first_unmet(count, visited, drone_flags, sides, flags, drone);
    if unmet < count {
        return Err(GrantRefusal::MustWait(unmet));
    }
    drone_flags[drone] = with_under_way(flag);
    Ok(())
}

// "a drone under way has visited its next stop and is no longer under way".
pub fn arrive_sound(
    plan: &Plan<'_>,
    visited: &mut [u16],
    drone_flags: &mut [u8],
    sides: &Sides<'_>,
    flags: &[u8],
    drone: usize,
) -> Result<(), ArriveRefusal>
    requires { Usable limits (lent_tables plan.now visited.old drone_flags.old sides.now flags.now) }
    ensures { Answered (step limits)
        (lent_tables plan.now visited.old drone_flags.old sides.now flags.now)
        (arrive drone) (arrive_meant result)
        (lent_tables plan.now visited.new drone_flags.new sides.now flags.now) }
{
    let drones = usize::from(plan.drone_count[0]);
    if drones <= drone {
        return Err(ArriveRefusal::NoDrone);
    }
    let flag = drone_flags[drone];
    if is_withdrawn(flag) {
        return Err(ArriveRefusal::Withdrawn);
    }
    if !is_under_way(flag) {
        return Err(ArriveRefusal::NotUnderWay);
    }
    visited[drone] += 1;
    drone_flags[drone] = without_under_way(flag);
    Ok(())
}

// "Withdrawing changes only a mark in the drone's record".
pub fn withdraw_sound(
    plan: &Plan<'_>,
    visited: &[u16],
    drone_flags: &mut [u8],
    sides: &Sides<'_>,
    flags: &[u8],
    drone: usize,
) -> Result<(), WithdrawRefusal>
    requires { Usable limits (lent_tables plan.now visited.now drone_flags.old sides.now flags.now) }
    ensures { Answered (step limits)
        (lent_tables plan.now visited.now drone_flags.old sides.now flags.now)
        (withdraw drone) (withdraw_meant result)
        (lent_tables plan.now visited.now drone_flags.new sides.now flags.now) }
{
    let drones = usize::from(plan.drone_count[0]);
    if drones <= drone {
        return Err(WithdrawRefusal::NoDrone);
    }
    let flag = drone_flags[drone];
    if is_withdrawn(flag) {
        return Err(WithdrawRefusal::Withdrawn);
    }
    drone_flags[drone] = with_withdrawn(flag);
    Ok(())
}

// Writes the text of the plan that the tables hold, if the buffer is long enough.
pub fn write_sound(
    plan: &Plan<'_>,
    visited: &[u16],
    drone_flags: &[u8],
    sides: &Sides<'_>,
    flags: &[u8],
    buf: &mut [u8],
) -> Result<usize, WriteRefusal>
    requires { Usable limits (lent_tables plan.now visited.now drone_flags.now sides.now flags.now) }
    ensures { PlanWritten limits
        (lent_tables plan.now visited.now drone_flags.now sides.now flags.now)
        buf.old buf.new (write_meant result) }
{
    write_text(buf, usize::from(plan.drone_count[0]), plan.form[0], plan).ok_or(
        WriteRefusal::BufferTooShort,
    )
}
