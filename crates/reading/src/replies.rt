// Why a reading refuses, with what the refusal carries.
ghost use Rattle.std.specs.Prelude.{◌≡◌, Err};
ghost use Rattle.reading.specs.Replies.{reading_number, refusal_meant, line_meant, site_meant, check_meant};

use lines::refusal::Refusal as LineRefusal;
use plan::check::{PlanFault, StopAt};
use site::SiteRefusal;

#[derive(Clone, Copy, Debug, PartialEq, Eq)]
pub enum Refusal {
    // a lent table is below full size
    TablesTooSmall,
    // of the site text, with the offset of the line at fault
    SiteForm(usize),
    SiteRange(usize),
    // of the text, with the offset of the line at fault
    TooLong(usize),
    Form(usize),
    Range(usize),
    Name(usize),
    SameName(usize),
    TooManyStops(usize),
    // of the plan check, with the stop at fault
    StartsLate(StopAt),
    NotRising(StopAt),
    LegTooLong(StopAt),
    SameLocation(StopAt),
    // with the stops of both drones
    Collision(StopAt, StopAt),
    TooManyDependencies,
}

impl Refusal {
    // The number that is printed of it.
    pub fn number(self) -> u8
        ensures { result ≡ reading_number (refusal_meant self) }
    {
        match self {
            Refusal::TooLong(_) => 1,
            Refusal::Form(_) => 2,
            Refusal::Name(_) => 3,
            Refusal::Range(_) => 4,
            Refusal::SameName(_) => 5,
            Refusal::TooManyStops(_) => 6,
            Refusal::StartsLate(_) => 7,
            Refusal::NotRising(_) => 8,
            Refusal::SameLocation(_) => 9,
            Refusal::Collision(_, _) => 10,
            Refusal::TooManyDependencies => 11,
            Refusal::LegTooLong(_) => 12,
            Refusal::SiteForm(_) => 13,
            Refusal::SiteRange(_) => 14,
            Refusal::TablesTooSmall => 41,
        }
    }
}

// A refusal of a line as one of the reading.
impl From<LineRefusal> for Refusal {
    ghost from_gives = { λ e r. refusal_meant r ≡ line_meant e };

    fn from(refusal: LineRefusal) -> Refusal {
        match refusal {
            LineRefusal::Form(offset) => Refusal::Form(offset),
            LineRefusal::Range(offset) => Refusal::Range(offset),
            LineRefusal::Name(offset) => Refusal::Name(offset),
            LineRefusal::SameName(offset) => Refusal::SameName(offset),
            LineRefusal::TooManyStops(offset) => Refusal::TooManyStops(offset),
        }
    }
}

// A refusal of a site line as one of the reading.
impl From<SiteRefusal> for Refusal {
    ghost from_gives = { λ e r. refusal_meant r ≡ site_meant e };

    fn from(refusal: SiteRefusal) -> Refusal {
        match refusal {
            SiteRefusal::Form(offset) => Refusal::SiteForm(offset),
            SiteRefusal::Range(offset) => Refusal::SiteRange(offset),
        }
    }
}

// A refusal of the plan check as one of the reading.
impl From<PlanFault> for Refusal {
    ghost from_gives = { λ e r. refusal_meant r ≡ check_meant (Err e) };

    fn from(fault: PlanFault) -> Refusal {
        match fault {
            PlanFault::StartsLate(stop) => Refusal::StartsLate(stop),
            PlanFault::NotRising(stop) => Refusal::NotRising(stop),
            PlanFault::LegTooLong(stop) => Refusal::LegTooLong(stop),
            PlanFault::SameLocation(stop) => Refusal::SameLocation(stop),
            PlanFault::Collision(stop, other) => Refusal::Collision(stop, other),
        }
    }
}
