// The drones' progress: within their stops, and every wait of a stop that is visited or under way is over.
ghost use Rattle.std.specs.Prelude.{◌≡◌, ℕ, ◌+◌, ◌-◌, ◌≤◌, ◌<◌, length};
ghost use Rattle.below.specs.Below.{at, all_below};
ghost use Rattle.tables.specs.Limits.{limits};
ghost use Rattle.sound.specs.Asked.{SidesRoom};
ghost use Rattle.sound.specs.Parts.{drone_sound, wait_kept, order_kept, kept_at};

use crate::entered::has_entered;
use cycles::waits::either_withdrawn;
use tables::lent::Sides;

// A drone with M stops is not past nor under way beyond its last one.
#[tactic(auto, unfolding(crate::specs::Parts::drone_sound))]
fn drone_sound(stops: u16, place: u16, flag: u8) -> bool
    requires { 1 ≤ stops }
    ensures { result ≡ drone_sound (stops - 1) place flag }
{
    let last = stops - 1;
    tables::flags::has_only_two_bits(flag)
        && place <= last
        && !(tables::flags::is_under_way(flag) && last <= place)
}

pub fn drones_sound(drones: usize, stop_counts: &[u16], visited: &[u16], drone_flags: &[u8]) -> bool
    requires { (drones ≤ length stop_counts.now) × (drones ≤ length visited.now) × (drones ≤ length drone_flags.now) × ((d : ℕ) → d < drones → 1 ≤ at stop_counts.now d) }
    ensures { result ≡ all_below drones (λ d. drone_sound (at stop_counts.now d - 1) (at visited.now d) (at drone_flags.now d)) }
{
    (0..drones).all(|d| drone_sound(stop_counts[d], visited[d], drone_flags[d]))
}

// Whether the waiter has not entered its stop, or the awaited drone has left the stop s.
#[tactic(auto, unfolding(crate::specs::Parts::wait_kept))]
fn wait_kept(
    visited: &[u16],
    drone_flags: &[u8],
    waiter: usize,
    stop: u16,
    awaited: usize,
    s: u16,
) -> bool
    requires { (waiter < length visited.now) × (waiter < length drone_flags.now) × (awaited < length visited.now) }
    ensures { result ≡ wait_kept visited.now drone_flags.now waiter stop awaited s }
{
    !has_entered(visited[waiter], drone_flags[waiter], stop) || s < visited[awaited]
}

// Whether dependency k is kept in the order now in force.
#[tactic(auto, unfolding(crate::specs::Parts::order_kept))]
fn order_kept(
    visited: &[u16],
    drone_flags: &[u8],
    sides: &Sides<'_>,
    flags: &[u8],
    k: usize,
) -> bool
    requires k_in_bounds { SidesRoom (k + 1) sides.now flags.now }
    requires drones_of_k_in_bounds { (at sides.now.first_drones.now k < length visited.now) × (at sides.now.second_drones.now k < length visited.now) × (at sides.now.first_drones.now k < length drone_flags.now) × (at sides.now.second_drones.now k < length drone_flags.now) }
    ensures { result ≡ order_kept visited.now drone_flags.now sides.now.first_drones.now sides.now.first_stops.now sides.now.second_drones.now sides.now.second_stops.now flags.now k }
{
    let first = usize::from(sides.first_drones[k]);
    let second = usize::from(sides.second_drones[k]);
    if tables::flags::is_turned(flags[k]) {
        return wait_kept(
            visited,
            drone_flags,
            first,
            sides.first_stops[k],
            second,
            sides.second_stops[k],
        );
    }
    wait_kept(
        visited,
        drone_flags,
        second,
        sides.second_stops[k],
        first,
        sides.first_stops[k],
    )
}

// Whether dependency k is kept in the order now in force, or a drone of it is withdrawn. The marks are asked last: mostly nobody is withdrawn, and every order is kept.
#[tactic(auto, unfolding(crate::specs::Parts::kept_at))]
fn is_kept(visited: &[u16], drone_flags: &[u8], sides: &Sides<'_>, flags: &[u8], k: usize) -> bool
    requires k_in_bounds { SidesRoom (k + 1) sides.now flags.now }
    requires drones_of_k_in_bounds { (at sides.now.first_drones.now k < length visited.now) × (at sides.now.second_drones.now k < length visited.now) × (at sides.now.first_drones.now k < length drone_flags.now) × (at sides.now.second_drones.now k < length drone_flags.now) }
    ensures { result ≡ kept_at visited.now drone_flags.now sides.now.first_drones.now sides.now.first_stops.now sides.now.second_drones.now sides.now.second_stops.now flags.now k }
{
    order_kept(visited, drone_flags, sides, flags, k)
        || either_withdrawn(
            drone_flags,
            usize::from(sides.first_drones[k]),
            usize::from(sides.second_drones[k]),
        )
}

pub fn waits_kept(
    visited: &[u16],
    drone_flags: &[u8],
    sides: &Sides<'_>,
    flags: &[u8],
    m: usize,
) -> bool
    requires m_in_bounds { SidesRoom m sides.now flags.now }
    requires drones_in_bounds { (limits.drones ≤ length visited.now) × (limits.drones ≤ length drone_flags.now) × ((k : ℕ) → k < m → at sides.now.first_drones.now k < limits.drones) × ((k : ℕ) → k < m → at sides.now.second_drones.now k < limits.drones) }
    ensures { result ≡ all_below m (kept_at visited.now drone_flags.now sides.now.first_drones.now sides.now.first_stops.now sides.now.second_drones.now sides.now.second_stops.now flags.now) }
{
    (0..m).all(|k| is_kept(visited, drone_flags, sides, flags, k))
}
