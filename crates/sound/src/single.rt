// The stops one by one: location, time and leg in their ranges, and the plan check finds nothing at any of them.
ghost use Rattle.std.specs.Prelude.{◌≡◌, Bool, List, ℕ, ◌≤◌, ◌<◌, length};
ghost use Rattle.below.specs.Below.{at, all_below};
ghost use Rattle.tables.specs.Limits.{limits};
ghost use Rattle.plan.specs.Visits.{visits_of};
ghost use Rattle.sound.specs.Parts.{stop_sound};

use plan::check::fault_at;
use tables::entries::Stop;
use tables::legs::leg_right;
use tables::lent::Plan;

// Whether the location, the time and the leg of stop v are in their ranges and the plan check finds nothing at it.
#[tactic(auto, using(crate::proofs::Asking::fault_none), unfolding(crate::specs::Parts::stop_sound))]
fn stop_sound(form: u8, plan: &Plan<'_>, numbers: &[u16], v: usize) -> bool
    requires { (v < length numbers.now) × (v < length plan.now.locations.now) × (v < length plan.now.times.now) × (v < length plan.now.legs.now) }
    ensures { (meets : ℕ → ℕ → Bool) (owners : List ℕ) (n : ℕ) → result ≡ stop_sound limits form (visits_of meets owners numbers.now plan.now.locations.now plan.now.times.now n) (at plan.now.legs.now) v }
{
    usize::from(plan.locations[v]) <= Stop::MAX_LOCATION
        && plan.times[v] as usize <= Stop::MAX_TIME
        && leg_right(form, usize::from(numbers[v]), usize::from(plan.legs[v]))
        && fault_at(numbers, plan.locations, plan.times, plan.legs, v).is_none()
}

pub fn stops_sound(form: u8, plan: &Plan<'_>, numbers: &[u16], n: usize) -> bool
    requires { (n ≤ length numbers.now) × (n ≤ length plan.now.locations.now) × (n ≤ length plan.now.times.now) × (n ≤ length plan.now.legs.now) }
    ensures { (meets : ℕ → ℕ → Bool) (owners : List ℕ) → result ≡ all_below n (stop_sound limits form (visits_of meets owners numbers.now plan.now.locations.now plan.now.times.now n) (at plan.now.legs.now)) }
{
    (0..n).all(|v| stop_sound(form, plan, numbers, v))
}
