// A press over the lent tables, by the conductor's published calls alone. The dependencies are records.
ghost use Rattle.std.specs.Prelude.{◌≡◌, true, false, Err, MatchResult};
ghost use Rattle.tables.specs.Limits.{limits};
ghost use Rattle.call_log.specs.CallLog.{is_accepted, reply_number};
ghost use Rattle.flat.specs.Replies.{arrive_meant};
ghost use Rattle.records.specs.Records.{records_in};
ghost use Rattle.handset.specs.Press.{PressedAs, grant_all_step, press_step, press_meant, press_refused};

use crate::replies::PressRefusal;
use conductor::calls;
use flat::replies::{ArriveRefusal, GrantRefusal};
use tables::entries::{Dependency, Drone};
use tables::lent::Plan;

// Grants every drone that may go, asked from drone 0 on. A reply that every later drone would get as well ends the asking.
pub fn grant_all(
    plan: &Plan<'_>,
    visited: &[u16],
    drone_flags: &mut [u8],
    dependencies: &[Dependency],
) -> Result<u64, PressRefusal>
    ensures { PressedAs (grant_all_step limits (records_in limits plan.now visited.now drone_flags.old dependencies.now))
        (press_meant result) (records_in limits plan.now visited.now drone_flags.new dependencies.now) }
{
    let mut bits: u64 = 0;
    for drone in 0..Drone::FULL {
        match calls::grant(plan, visited, drone_flags, dependencies, drone) {
            Ok(()) => bits += 1u64 << drone,
            Err(GrantRefusal::Tables(fault)) => return Err(PressRefusal::Tables(fault)),
            // the drones are numbered without a gap
            Err(GrantRefusal::NoDrone) => return Ok(bits),
            // this drone may not go now
            Err(GrantRefusal::Withdrawn) => {}
            Err(GrantRefusal::Finished) => {}
            Err(GrantRefusal::UnderWay) => {}
            Err(GrantRefusal::MustWait(_)) => {}
        }
    }
    Ok(bits)
}

// What the answer to the reported arrival means for the press: "An arrival that is refused grants nothing", and its own number is the press's.
fn arrived(answer: Result<(), ArriveRefusal>) -> Result<(), PressRefusal>
    ensures { MatchResult result
        (λ done. is_accepted (arrive_meant answer) ≡ true)
        (λ press. (is_accepted (arrive_meant answer) ≡ false) × (press_meant (Err press) ≡ press_refused (reply_number (arrive_meant answer)))) }
{
    match answer {
        Ok(()) => Ok(()),
        Err(refusal) => Err(PressRefusal::from(refusal)),
    }
}

// "A press takes one arrival, if one was reported, then grants every drone that may go"; "An arrival that is refused grants nothing".
pub fn press(
    plan: &Plan<'_>,
    visited: &mut [u16],
    drone_flags: &mut [u8],
    dependencies: &[Dependency],
    report: Option<usize>,
) -> Result<u64, PressRefusal>
    ensures { PressedAs (press_step limits (records_in limits plan.now visited.old drone_flags.old dependencies.now) report)
        (press_meant result) (records_in limits plan.now visited.new drone_flags.new dependencies.now) }
{
    let Some(drone) = report else {
        return grant_all(plan, visited, drone_flags, dependencies);
    };
    arrived(calls::arrive(plan, visited, drone_flags, dependencies, drone))?;
    grant_all(plan, visited, drone_flags, dependencies)
}
