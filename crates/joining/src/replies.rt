// Why a joining refuses.
ghost use Rattle.std.specs.Prelude.{◌≡◌, Err};
ghost use Rattle.reading.specs.Replies.{refusal_meant};
ghost use Rattle.joining.specs.Replies.{fault_meant, join_meant};

use crate::tests::StandingFault;
use reading::replies::Refusal;

#[derive(Clone, Copy, Debug, PartialEq, Eq)]
pub enum JoinRefusal {
    // a table is below full size, or as reading the joined text refuses it
    Refused(Refusal),
    // either plan's tables are not sound
    NotSound,
    // either plan has been started, or their site pairs differ
    Started,
}

// A refusal of the reading as one of the joining.
impl From<Refusal> for JoinRefusal {
    ghost from_gives = { λ e r. join_meant (Err r) ≡ refusal_meant e };

    fn from(refusal: Refusal) -> JoinRefusal {
        JoinRefusal::Refused(refusal)
    }
}

// The test that a plan fails as a refusal of the joining.
impl From<StandingFault> for JoinRefusal {
    ghost from_gives = { λ e r. join_meant (Err r) ≡ fault_meant e };

    fn from(fault: StandingFault) -> JoinRefusal {
        match fault {
            StandingFault::Small => JoinRefusal::Refused(Refusal::TablesTooSmall),
            StandingFault::Unsound => JoinRefusal::NotSound,
            StandingFault::Started => JoinRefusal::Started,
        }
    }
}
