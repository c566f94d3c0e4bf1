// The leg into a stop, in rounds: 0 at a drone's stop 0, elsewhere from 1 to the longest of the plan's form.
#![tactic(auto, using(std::proofs::lemmas::Bool::Decides::nat_tests), unfolding(crate::specs::Legs::plain_leg, crate::specs::Legs::longest_leg, crate::specs::Legs::leg_right))]

ghost use Rattle.std.specs.Prelude.{◌≡◌};
ghost use Rattle.tables.specs.Limits.{limits};
ghost use Rattle.tables.specs.Legs.{plain_leg, longest_leg, leg_right};

use crate::entries::{PLAIN_FORM, Stop};

// The leg that a `plan=1` text gives to a drone's stop.
pub fn plain_leg(number: usize) -> usize
    ensures { result ≡ plain_leg number }
{
    if number == 0 { 0 } else { 1 }
}

pub fn longest_leg(form: u8) -> usize
    ensures { result ≡ longest_leg limits form }
{
    if form == PLAIN_FORM { 1 } else { Stop::MAX_LEG }
}

// Whether the leg into a drone's stop is one that the plan's form allows.
pub fn leg_right(form: u8, number: usize, leg: usize) -> bool
    ensures { result ≡ leg_right limits form number leg }
{
    if number == 0 {
        return leg == 0;
    }
    1 <= leg && leg <= longest_leg(form)
}
