// Why a press grants nothing.
ghost use Rattle.std.specs.Prelude.{◌≡◌, Err};
ghost use Rattle.call_log.specs.CallLog.{reply_number};
ghost use Rattle.flat.specs.Replies.{arrive_meant};
ghost use Rattle.handset.specs.Press.{press_meant, press_refused};

use flat::replies::{ArriveRefusal, TablesFault};

#[derive(Clone, Copy, Debug, PartialEq, Eq)]
pub enum PressRefusal {
    Tables(TablesFault),
    // of the arrival that was reported
    NoDrone,
    Withdrawn,
    NotUnderWay,
}

impl PressRefusal {
    pub fn number(self) -> u8
        ensures { press_meant (Err self) ≡ press_refused result }
    {
        match self {
            PressRefusal::Tables(fault) => fault.number(),
            PressRefusal::NoDrone => 20,
            PressRefusal::Withdrawn => 25,
            PressRefusal::NotUnderWay => 24,
        }
    }
}

// The arrival's own refusal.
impl From<ArriveRefusal> for PressRefusal {
    ghost from_gives = { λ arrival press. press_meant (Err press) ≡ press_refused (reply_number (arrive_meant (Err arrival))) };

    fn from(refusal: ArriveRefusal) -> PressRefusal {
        match refusal {
            ArriveRefusal::Tables(fault) => PressRefusal::Tables(fault),
            ArriveRefusal::NoDrone => PressRefusal::NoDrone,
            ArriveRefusal::Withdrawn => PressRefusal::Withdrawn,
            ArriveRefusal::NotUnderWay => PressRefusal::NotUnderWay,
        }
    }
}
