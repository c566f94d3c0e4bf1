// The replies as C gets them: document 01's number, and what goes with it.
ghost use Rattle.std.specs.Prelude.{◌≡◌};
ghost use Rattle.flat.specs.Replies.{grant_meant, arrive_meant, withdraw_meant};
ghost use Rattle.flat.specs.TurnReplies.{turn_meant, turn_all_meant, preview_meant, preview_all_meant, cost_meant, rounds_meant};
ghost use Rattle.flat.specs.Writing.{write_meant};
ghost use Rattle.best_order.specs.Replies.{best_meant};
ghost use Rattle.reading.specs.Replies.{refusal_meant, reading_meant};
ghost use Rattle.joining.specs.Replies.{join_meant};
ghost use Rattle.handset.specs.Press.{press_meant};
ghost use Rattle.small_plans.specs.Asked.{plan_meant};
ghost use Rattle.board.specs.Told.{Says, SaysOfChange, SaysOfOrder, SaysOfRead, answer_with, at_offset, at_stops, call_answer_of, change_answer_of, cost_answer_of, order_answer_of, order_with, plan_answer_of, press_answer_of, read_answer_of, report_told, rounds_answer_of, writing_answer_of};

use best_order::replies::{BestOrder, BestRefusal};
use flat::replies::{
    ArriveRefusal, GrantRefusal, TablesFault, TurnAllRefusal, TurnRefusal, WithdrawRefusal,
    WriteRefusal,
};
use handset::replies::PressRefusal;
use joining::replies::JoinRefusal;
use plan::check::StopAt;
use reading::replies::Refusal;
use small_plans::PlanRefusal;

// The detail: the dependency of a 23, the cost, the rounds, the length of the text, the granted drones of a press; 0 with every other reply.
#[repr(C)]
#[derive(Clone, Copy, Debug, PartialEq, Eq)]
pub struct CallAnswer {
    pub number: usize,
    pub detail: usize,
}

// The change of the cost at number 0; 0 with every other reply.
#[repr(C)]
#[derive(Clone, Copy, Debug, PartialEq, Eq)]
pub struct ChangeAnswer {
    pub number: usize,
    pub change: i64,
}

// The least cost, the length of the list and the count at number 0; the count with 37, which is the budget; the rest is 0.
#[repr(C)]
#[derive(Clone, Copy, Debug, PartialEq, Eq)]
pub struct OrderAnswer {
    pub number: usize,
    pub cost: usize,
    pub length: usize,
    pub count: usize,
}

// The offset with 1 to 6, a drone and its stop with 7 to 9 and 12, two of each with 10; the rest is 0.
#[repr(C)]
#[derive(Clone, Copy, Debug, PartialEq, Eq)]
pub struct ReadAnswer {
    pub number: usize,
    pub offset: usize,
    pub drone: usize,
    pub stop: usize,
    pub other_drone: usize,
    pub other_stop: usize,
}

impl CallAnswer {
    fn accepted(detail: usize) -> CallAnswer
        ensures { result ≡ answer_with 0 detail }
    {
        CallAnswer { number: 0, detail }
    }

    fn refused(number: u8) -> CallAnswer
        ensures { result ≡ answer_with number 0 }
    {
        CallAnswer {
            number: usize::from(number),
            detail: 0,
        }
    }
}

impl OrderAnswer {
    fn refused(number: u8, count: usize) -> OrderAnswer
        ensures { result ≡ order_with number 0 0 count }
    {
        OrderAnswer {
            number: usize::from(number),
            cost: 0,
            length: 0,
            count,
        }
    }
}

impl ReadAnswer {
    fn at_offset(number: u8, offset: usize) -> ReadAnswer
        ensures { result ≡ at_offset number offset }
    {
        ReadAnswer {
            number: usize::from(number),
            offset,
            drone: 0,
            stop: 0,
            other_drone: 0,
            other_stop: 0,
        }
    }

    fn at_stops(number: u8, at: StopAt, other: StopAt) -> ReadAnswer
        ensures { result ≡ at_stops number at.drone at.stop other.drone other.stop }
    {
        ReadAnswer {
            number: usize::from(number),
            offset: 0,
            drone: at.drone,
            stop: at.stop,
            other_drone: other.drone,
            other_stop: other.stop,
        }
    }
}

impl From<Result<(), GrantRefusal>> for CallAnswer {
    ghost from_gives = { λ reply answer. Says answer (call_answer_of (grant_meant reply)) };

    fn from(reply: Result<(), GrantRefusal>) -> CallAnswer {
        match reply {
            Ok(()) => CallAnswer::accepted(0),
            Err(refusal) => CallAnswer {
                number: usize::from(refusal.number()),
                detail: refusal.awaited(),
            },
        }
    }
}

impl From<Result<(), ArriveRefusal>> for CallAnswer {
    ghost from_gives = { λ reply answer. Says answer (call_answer_of (arrive_meant reply)) };

    fn from(reply: Result<(), ArriveRefusal>) -> CallAnswer {
        match reply {
            Ok(()) => CallAnswer::accepted(0),
            Err(refusal) => CallAnswer::refused(refusal.number()),
        }
    }
}

impl From<Result<(), WithdrawRefusal>> for CallAnswer {
    ghost from_gives = { λ reply answer. Says answer (call_answer_of (withdraw_meant reply)) };

    fn from(reply: Result<(), WithdrawRefusal>) -> CallAnswer {
        match reply {
            Ok(()) => CallAnswer::accepted(0),
            Err(refusal) => CallAnswer::refused(refusal.number()),
        }
    }
}

impl From<Result<(), TurnRefusal>> for CallAnswer {
    ghost from_gives = { λ reply answer. Says answer (call_answer_of (turn_meant reply)) };

    fn from(reply: Result<(), TurnRefusal>) -> CallAnswer {
        match reply {
            Ok(()) => CallAnswer::accepted(0),
            Err(refusal) => CallAnswer::refused(refusal.number()),
        }
    }
}

impl From<Result<(), TurnAllRefusal>> for CallAnswer {
    ghost from_gives = { λ reply answer. Says answer (call_answer_of (turn_all_meant reply)) };

    fn from(reply: Result<(), TurnAllRefusal>) -> CallAnswer {
        match reply {
            Ok(()) => CallAnswer::accepted(0),
            Err(refusal) => CallAnswer::refused(refusal.number()),
        }
    }
}

impl From<Result<i32, TurnRefusal>> for ChangeAnswer {
    ghost from_gives = { λ reply answer. SaysOfChange answer (change_answer_of (preview_meant reply)) };

    fn from(reply: Result<i32, TurnRefusal>) -> ChangeAnswer {
        match reply {
            Ok(change) => ChangeAnswer {
                number: 0,
                change: i64::from(change),
            },
            Err(refusal) => ChangeAnswer {
                number: usize::from(refusal.number()),
                change: 0,
            },
        }
    }
}

impl From<Result<i32, TurnAllRefusal>> for ChangeAnswer {
    ghost from_gives = { λ reply answer. SaysOfChange answer (change_answer_of (preview_all_meant reply)) };

    fn from(reply: Result<i32, TurnAllRefusal>) -> ChangeAnswer {
        match reply {
            Ok(change) => ChangeAnswer {
                number: 0,
                change: i64::from(change),
            },
            Err(refusal) => ChangeAnswer {
                number: usize::from(refusal.number()),
                change: 0,
            },
        }
    }
}

// The cost, or the rounds.
impl From<Result<usize, TablesFault>> for CallAnswer {
    ghost from_gives = { λ reply answer. Says answer (cost_answer_of (cost_meant reply)) × Says answer (rounds_answer_of (rounds_meant reply)) };

    fn from(reply: Result<usize, TablesFault>) -> CallAnswer {
        match reply {
            Ok(figure) => CallAnswer::accepted(figure),
            Err(fault) => CallAnswer::refused(fault.number()),
        }
    }
}

impl From<Result<usize, WriteRefusal>> for CallAnswer {
    ghost from_gives = { λ reply answer. Says answer (writing_answer_of (write_meant reply)) };

    fn from(reply: Result<usize, WriteRefusal>) -> CallAnswer {
        match reply {
            Ok(length) => CallAnswer::accepted(length),
            Err(refusal) => CallAnswer::refused(refusal.number()),
        }
    }
}

impl From<Result<usize, PlanRefusal>> for CallAnswer {
    ghost from_gives = { λ reply answer. Says answer (plan_answer_of (plan_meant reply)) };

    fn from(reply: Result<usize, PlanRefusal>) -> CallAnswer {
        match reply {
            Ok(length) => CallAnswer::accepted(length),
            Err(refusal) => CallAnswer::refused(refusal.number()),
        }
    }
}

impl From<Result<u64, PressRefusal>> for CallAnswer {
    ghost from_gives = { λ reply answer. Says answer (press_answer_of (press_meant reply)) };

    fn from(reply: Result<u64, PressRefusal>) -> CallAnswer {
        match reply {
            Ok(bits) => CallAnswer::accepted(bits as usize),
            Err(refusal) => CallAnswer::refused(refusal.number()),
        }
    }
}

impl From<Result<BestOrder, BestRefusal>> for OrderAnswer {
    ghost from_gives = { λ reply answer. SaysOfOrder answer (order_answer_of (best_meant reply)) };

    fn from(reply: Result<BestOrder, BestRefusal>) -> OrderAnswer {
        match reply {
            Ok(best) => OrderAnswer {
                number: 0,
                cost: best.cost,
                length: best.length,
                count: best.count,
            },
            Err(BestRefusal::Tables(fault)) => OrderAnswer::refused(fault.number(), 0),
            Err(BestRefusal::BadBudget) => OrderAnswer::refused(38, 0),
            Err(BestRefusal::TooMany(count)) => OrderAnswer::refused(37, count),
        }
    }
}

impl From<Refusal> for ReadAnswer {
    ghost from_gives = { λ refusal answer. SaysOfRead answer (read_answer_of (refusal_meant refusal)) };

    fn from(refusal: Refusal) -> ReadAnswer {
        let number = refusal.number();
        let nowhere = StopAt { drone: 0, stop: 0 };
        match refusal {
            Refusal::TablesTooSmall | Refusal::TooManyDependencies => {
                ReadAnswer::at_offset(number, 0)
            }
            Refusal::SiteForm(offset)
            | Refusal::SiteRange(offset)
            | Refusal::TooLong(offset)
            | Refusal::Form(offset)
            | Refusal::Name(offset)
            | Refusal::Range(offset)
            | Refusal::SameName(offset)
            | Refusal::TooManyStops(offset) => ReadAnswer::at_offset(number, offset),
            Refusal::StartsLate(at)
            | Refusal::NotRising(at)
            | Refusal::LegTooLong(at)
            | Refusal::SameLocation(at) => ReadAnswer::at_stops(number, at, nowhere),
            Refusal::Collision(at, other) => ReadAnswer::at_stops(number, at, other),
        }
    }
}

impl From<Result<(), Refusal>> for ReadAnswer {
    ghost from_gives = { λ reply answer. SaysOfRead answer (read_answer_of (reading_meant reply)) };

    fn from(reply: Result<(), Refusal>) -> ReadAnswer {
        match reply {
            Ok(()) => ReadAnswer::at_offset(0, 0),
            Err(refusal) => ReadAnswer::from(refusal),
        }
    }
}

impl From<Result<(), JoinRefusal>> for ReadAnswer {
    ghost from_gives = { λ reply answer. SaysOfRead answer (read_answer_of (join_meant reply)) };

    fn from(reply: Result<(), JoinRefusal>) -> ReadAnswer {
        match reply {
            Ok(()) => ReadAnswer::at_offset(0, 0),
            Err(JoinRefusal::Refused(refusal)) => ReadAnswer::from(refusal),
            Err(JoinRefusal::NotSound) => ReadAnswer::at_offset(40, 0),
            Err(JoinRefusal::Started) => ReadAnswer::at_offset(16, 0),
        }
    }
}

// What was reported to the handset: the drone that arrived, or nothing at 0.
pub fn report_of(reported: usize, drone: usize) -> Option<usize>
    ensures { result ≡ report_told reported drone }
{
    if reported == 0 {
        return None;
    }
    Some(drone)
}
