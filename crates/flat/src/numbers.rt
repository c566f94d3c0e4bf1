// The number of each refusal.
ghost use Rattle.std.specs.Prelude.{◌≡◌, Err};
ghost use Rattle.call_log.specs.CallLog.{refused, reply_number, awaited};
ghost use Rattle.flat.specs.Replies.{fault_number, grant_meant, arrive_meant, withdraw_meant};
ghost use Rattle.flat.specs.TurnReplies.{turn_number, turn_all_number};
ghost use Rattle.flat.specs.Writing.{write_meant, write_refused};

use crate::replies::{
    ArriveRefusal, GrantRefusal, TablesFault, TurnAllRefusal, TurnRefusal, WithdrawRefusal,
    WriteRefusal,
};

impl TablesFault {
    pub fn number(self) -> u8
        ensures { result ≡ fault_number self }
    {
        match self {
            TablesFault::TooSmall => 41,
            TablesFault::NotSound => 40,
        }
    }
}

impl GrantRefusal {
    pub fn number(self) -> u8
        ensures { result ≡ reply_number (grant_meant (Err self)) }
    {
        match self {
            GrantRefusal::Tables(fault) => fault.number(),
            GrantRefusal::NoDrone => 20,
            GrantRefusal::Withdrawn => 25,
            GrantRefusal::Finished => 21,
            GrantRefusal::UnderWay => 22,
            GrantRefusal::MustWait(_) => 23,
        }
    }

    // The dependency that the drone must wait for; 0 with every other refusal.
    pub fn awaited(self) -> usize
        ensures { result ≡ awaited (grant_meant (Err self)) }
    {
        match self {
            GrantRefusal::MustWait(dependency) => dependency,
            GrantRefusal::Tables(_) => 0,
            GrantRefusal::NoDrone => 0,
            GrantRefusal::Withdrawn => 0,
            GrantRefusal::Finished => 0,
            GrantRefusal::UnderWay => 0,
        }
    }
}

impl ArriveRefusal {
    pub fn number(self) -> u8
        ensures { arrive_meant (Err self) ≡ refused result }
    {
        match self {
            ArriveRefusal::Tables(fault) => fault.number(),
            ArriveRefusal::NoDrone => 20,
            ArriveRefusal::Withdrawn => 25,
            ArriveRefusal::NotUnderWay => 24,
        }
    }
}

impl WithdrawRefusal {
    pub fn number(self) -> u8
        ensures { withdraw_meant (Err self) ≡ refused result }
    {
        match self {
            WithdrawRefusal::Tables(fault) => fault.number(),
            WithdrawRefusal::NoDrone => 20,
            WithdrawRefusal::Withdrawn => 25,
        }
    }
}

impl WriteRefusal {
    pub fn number(self) -> u8
        ensures { write_meant (Err self) ≡ write_refused result }
    {
        match self {
            WriteRefusal::Tables(fault) => fault.number(),
            WriteRefusal::BufferTooShort => 42,
        }
    }
}

impl TurnRefusal {
    pub fn number(self) -> u8
        ensures { result ≡ turn_number self }
    {
        match self {
            TurnRefusal::Tables(fault) => fault.number(),
            TurnRefusal::NoDependency => 30,
            TurnRefusal::Withdrawn => 35,
            TurnRefusal::Fixed => 31,
            TurnRefusal::FirstEntered => 32,
            TurnRefusal::Cycle => 34,
        }
    }
}

impl TurnAllRefusal {
    pub fn number(self) -> u8
        ensures { result ≡ turn_all_number self }
    {
        match self {
            TurnAllRefusal::NotRising => 36,
            TurnAllRefusal::Turn(refusal) => refusal.number(),
        }
    }
}
