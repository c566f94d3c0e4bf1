// The replies of the calls as the output's table holds them: a number, and what goes with it; and the number of a reading.
ghost use Rattle.std.specs.Prelude.{◌≡◌, ◌<◌, ◌^◌};
ghost use Rattle.call_log.specs.CallLog.{awaited};
ghost use Rattle.transcript.specs.Run.{cost_number, cost_detail};
ghost use Rattle.reading.specs.Replies.{reading_number, reading_meant};
ghost use Rattle.flat.specs.Replies.{grant_meant, arrive_meant};
ghost use Rattle.flat.specs.TurnReplies.{turn_meant, cost_meant};
ghost use Rattle.dispatch.specs.Making.{Tells};

use flat::replies::{ArriveRefusal, GrantRefusal, TablesFault, TurnRefusal};
use reading::replies::Refusal;
use transcript::replies::Answer;

// A reply with which nothing goes: 0, or the number of a refusal.
fn alone(number: u8) -> Answer
    ensures { (result.number ≡ number) × (result.detail ≡ 0) }
{
    Answer {
        number: u16::from(number),
        detail: 0,
    }
}

pub fn of_grant(reply: Result<(), GrantRefusal>) -> Answer
    requires { awaited (grant_meant reply) < 2 ^ 32 }
    ensures { Tells (grant_meant reply) result.number result.detail }
{
    match reply {
        Ok(()) => alone(0),
        Err(refusal) => Answer {
            number: u16::from(refusal.number()),
            detail: refusal.awaited() as u32,
        },
    }
}

pub fn of_arrive(reply: Result<(), ArriveRefusal>) -> Answer
    ensures { Tells (arrive_meant reply) result.number result.detail }
{
    match reply {
        Ok(()) => alone(0),
        Err(refusal) => alone(refusal.number()),
    }
}

pub fn of_turn(reply: Result<(), TurnRefusal>) -> Answer
    ensures { Tells (turn_meant reply) result.number result.detail }
{
    match reply {
        Ok(()) => alone(0),
        Err(refusal) => alone(refusal.number()),
    }
}

pub fn of_cost(reply: Result<usize, TablesFault>) -> Answer
    requires { cost_detail (cost_meant reply) < 2 ^ 32 }
    ensures { (result.number ≡ cost_number (cost_meant reply)) × (result.detail ≡ cost_detail (cost_meant reply)) }
{
    match reply {
        Ok(cost) => Answer {
            number: 0,
            detail: cost as u32,
        },
        Err(fault) => alone(fault.number()),
    }
}

// The number of a reading: 0 for a plan that is taken.
pub fn reading_number(reading: Result<(), Refusal>) -> usize
    ensures { result ≡ reading_number (reading_meant reading) }
{
    match reading {
        Ok(()) => 0,
        Err(refusal) => usize::from(refusal.number()),
    }
}
