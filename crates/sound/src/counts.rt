// The counts and the form: drones, dependencies and each drone's stops are in their ranges, and the form is known.
ghost use Rattle.std.specs.Prelude.{◌≡◌, ◌≤◌, leb, length};
ghost use Rattle.below.specs.Below.{at, all_below};
ghost use Rattle.tables.specs.Limits.{limits};
ghost use Rattle.sound.specs.Parts.{counts_sound};

use tables::entries::{Dependency, Drone, LEGS_FORM, PLAIN_FORM, Stop};

// Whether each drone has a stop.
fn have_stops(drones: usize, stop_counts: &[u16]) -> bool
    requires { drones ≤ length stop_counts.now }
    ensures { result ≡ all_below drones (λ d. leb 1 (at stop_counts.now d)) }
{
    stop_counts[..drones].iter().all(|&count| 1 <= count)
}

#[tactic(auto, unfolding(crate::specs::Parts::counts_sound))]
pub fn counts_sound(drones: usize, form: u8, stop_counts: &[u16], m: usize) -> bool
    requires { limits.drones ≤ length stop_counts.now }
    ensures { result ≡ counts_sound limits drones form stop_counts.now m }
{
    1 <= drones
        && drones <= Drone::FULL
        && PLAIN_FORM <= form
        && form <= LEGS_FORM
        && m <= Dependency::FULL
        && have_stops(drones, stop_counts)
        && plan::stops::stop_total(drones, stop_counts) <= Stop::FULL
}
