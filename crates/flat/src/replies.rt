// Why the calls are refused; definitions of specs/ give document 01's reply for each case.
ghost use Rattle.std.specs.Prelude.{◌≡◌};
ghost use Rattle.flat.specs.declared.replies.GrantRefusal.TheVariants.{Tables as GrantTables};
ghost use Rattle.flat.specs.declared.replies.ArriveRefusal.TheVariants.{Tables as ArriveTables};
ghost use Rattle.flat.specs.declared.replies.WithdrawRefusal.TheVariants.{Tables as WithdrawTables};
ghost use Rattle.flat.specs.declared.replies.WriteRefusal.TheVariants.{Tables as WriteTables};
ghost use Rattle.flat.specs.declared.replies.TurnRefusal.TheVariants.{Tables as TurnTables};
ghost use Rattle.flat.specs.declared.replies.TurnAllRefusal.TheVariants.{Turn};

// Why the lent tables cannot be used: "41 a lent table is below full size", then "40 not sound".
#[derive(Clone, Copy, Debug, PartialEq, Eq)]
pub enum TablesFault {
    TooSmall,
    NotSound,
}

// Why a drone is not granted its next stop.
#[derive(Clone, Copy, Debug, PartialEq, Eq)]
pub enum GrantRefusal {
    Tables(TablesFault),
    NoDrone,
    Withdrawn,
    Finished,
    UnderWay,
    MustWait(usize),
}

// Why a drone does not arrive.
#[derive(Clone, Copy, Debug, PartialEq, Eq)]
pub enum ArriveRefusal {
    Tables(TablesFault),
    NoDrone,
    Withdrawn,
    NotUnderWay,
}

// Why a drone is not withdrawn.
#[derive(Clone, Copy, Debug, PartialEq, Eq)]
pub enum WithdrawRefusal {
    Tables(TablesFault),
    NoDrone,
    Withdrawn,
}

// Why the plan is not written out.
#[derive(Clone, Copy, Debug, PartialEq, Eq)]
pub enum WriteRefusal {
    Tables(TablesFault),
    BufferTooShort,
}

// Why a dependency is not turned, or would not be.
#[derive(Clone, Copy, Debug, PartialEq, Eq)]
pub enum TurnRefusal {
    Tables(TablesFault),
    NoDependency,
    Withdrawn,
    Fixed,
    FirstEntered,
    Cycle,
}

// Why the dependencies of a list are not turned at once, or would not be.
#[derive(Clone, Copy, Debug, PartialEq, Eq)]
pub enum TurnAllRefusal {
    NotRising,
    Turn(TurnRefusal),
}

impl From<TablesFault> for GrantRefusal {
    ghost from_gives = { λ fault refusal. refusal ≡ GrantTables fault };

    fn from(fault: TablesFault) -> GrantRefusal {
        GrantRefusal::Tables(fault)
    }
}

impl From<TablesFault> for ArriveRefusal {
    ghost from_gives = { λ fault refusal. refusal ≡ ArriveTables fault };

    fn from(fault: TablesFault) -> ArriveRefusal {
        ArriveRefusal::Tables(fault)
    }
}

impl From<TablesFault> for WithdrawRefusal {
    ghost from_gives = { λ fault refusal. refusal ≡ WithdrawTables fault };

    fn from(fault: TablesFault) -> WithdrawRefusal {
        WithdrawRefusal::Tables(fault)
    }
}

impl From<TablesFault> for WriteRefusal {
    ghost from_gives = { λ fault refusal. refusal ≡ WriteTables fault };

    fn from(fault: TablesFault) -> WriteRefusal {
        WriteRefusal::Tables(fault)
    }
}

impl From<TablesFault> for TurnRefusal {
    ghost from_gives = { λ fault refusal. refusal ≡ TurnTables fault };

    fn from(fault: TablesFault) -> TurnRefusal {
        TurnRefusal::Tables(fault)
    }
}

impl From<TablesFault> for TurnAllRefusal {
    ghost from_gives = { λ fault refusal. refusal ≡ Turn (TurnTables fault) };

    fn from(fault: TablesFault) -> TurnAllRefusal {
        TurnAllRefusal::Turn(TurnRefusal::Tables(fault))
    }
}

impl From<TurnRefusal> for TurnAllRefusal {
    ghost from_gives = { λ one refusal. refusal ≡ Turn one };

    fn from(refusal: TurnRefusal) -> TurnAllRefusal {
        TurnAllRefusal::Turn(refusal)
    }
}
