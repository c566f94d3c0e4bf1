// The records of the dependencies: they name stops, their flag bytes are right, and each side of them as a column of stops that are numbered through.
ghost use Rattle.std.specs.Prelude.{◌&&◌, ◌≡◌, ℕ, ◌+◌, ◌≤◌, ◌<◌, length};
ghost use Rattle.below.specs.Below.{at, all_below};
ghost use Rattle.tables.specs.Limits.{limits};
ghost use Rattle.sound.specs.Parts.{stop_in_lem, flag_right, fixed_at, record_right};
ghost use Rattle.sound.specs.Asked.{SidesRoom, Through};

use tables::entries::{Dependency, Drone};
use tables::lent::Sides;

// Whether entry k names a stop.
#[tactic(auto, unfolding(crate::specs::Parts::stop_in_lem))]
fn is_stop(drones: usize, stop_counts: &[u16], of: &[u8], stops: &[u16], k: usize) -> bool
    requires { (drones ≤ length stop_counts.now) × (k < length of.now) × (k < length stops.now) }
    ensures { result ≡ stop_in_lem drones stop_counts.now (at of.now) (at stops.now) k }
{
    let d = usize::from(of[k]);
    d < drones && stops[k] < stop_counts[d]
}

// The stops of a column, numbered through.
pub fn number_through(
    starts: &[u16; Drone::FULL],
    of: &[u8],
    stops: &[u16],
    m: usize,
    flat: &mut [u16; Dependency::FULL],
)
    requires m_in_bounds { (m ≤ length of.now) × (m ≤ length stops.now) × (m ≤ limits.dependencies) × (length flat.old ≡ limits.dependencies) }
    requires by_index { ((k : ℕ) → k < m → at of.now k < limits.drones) × ((k : ℕ) → k < m → at starts.now (at of.now k) + at stops.now k < limits.stops) }
    ensures { Through limits starts.now of.now stops.now m flat.new }
{
    for k in 0..m {
        flat[k] = starts[usize::from(of[k])] + stops[k];
    }
}

fn flag_right(fixed: bool, flag: u8) -> bool
    ensures { result ≡ flag_right fixed flag }
{
    if !tables::flags::has_only_two_bits(flag) {
        return false;
    }
    if fixed {
        return tables::flags::is_fixed(flag) && !tables::flags::is_turned(flag);
    }
    !tables::flags::is_fixed(flag)
}

// Whether dependency k is fixed.
fn is_fixed(lasts: &[u16; Drone::FULL], sides: &Sides<'_>, k: usize) -> bool
    requires { (k < length sides.now.first_stops.now) × (k < length sides.now.second_drones.now) × (k < length sides.now.second_stops.now) × (at sides.now.second_drones.now k < limits.drones) }
    ensures { result ≡ fixed_at (at lasts.now) (at sides.now.first_stops.now) (at sides.now.second_drones.now) (at sides.now.second_stops.now) k }
{
    let first = sides.first_stops[k];
    let d = usize::from(sides.second_drones[k]);
    let second = sides.second_stops[k];
    let last = lasts[d];
    (first == 0) | (second == last)
}

// Whether record k names two stops and its flag byte is right.
#[tactic(auto, using(crate::proofs::Asking::stop_drone), unfolding(crate::specs::Parts::record_right))]
fn is_right(
    drones: usize,
    stop_counts: &[u16],
    lasts: &[u16; Drone::FULL],
    sides: &Sides<'_>,
    flags: &[u8],
    k: usize,
) -> bool
    requires { (drones ≤ limits.drones) × (limits.drones ≤ length stop_counts.now) × SidesRoom (k + 1) sides.now flags.now }
    ensures { result ≡ record_right drones stop_counts.now lasts.now sides.now.first_drones.now sides.now.first_stops.now sides.now.second_drones.now sides.now.second_stops.now flags.now k }
{
    is_stop(
        drones,
        stop_counts,
        sides.first_drones,
        sides.first_stops,
        k,
    ) && is_stop(
        drones,
        stop_counts,
        sides.second_drones,
        sides.second_stops,
        k,
    ) && flag_right(is_fixed(lasts, sides, k), flags[k])
}

fn are_right(
    drones: usize,
    m: usize,
    stop_counts: &[u16],
    lasts: &[u16; Drone::FULL],
    sides: &Sides<'_>,
    flags: &[u8],
) -> bool
    requires { (drones ≤ limits.drones) × (limits.drones ≤ length stop_counts.now) × SidesRoom m sides.now flags.now }
    ensures { result ≡ all_below m (record_right drones stop_counts.now lasts.now sides.now.first_drones.now sides.now.first_stops.now sides.now.second_drones.now sides.now.second_stops.now flags.now) }
{
    (0..m).all(|k| is_right(drones, stop_counts, lasts, sides, flags, k))
}

// Whether the records name stops and their flag bytes are right.
pub fn records_sound(
    drones: usize,
    m: usize,
    stop_counts: &[u16],
    lasts: &[u16; Drone::FULL],
    sides: &Sides<'_>,
    flags: &[u8],
) -> bool
    requires { (drones ≤ limits.drones) × (limits.drones ≤ length stop_counts.now) × SidesRoom m sides.now flags.now }
    ensures { result ≡ all_below m (stop_in_lem drones stop_counts.now (at sides.now.first_drones.now) (at sides.now.first_stops.now)) && (all_below m (stop_in_lem drones stop_counts.now (at sides.now.second_drones.now) (at sides.now.second_stops.now)) && all_below m (λ k. flag_right (fixed_at (at lasts.now) (at sides.now.first_stops.now) (at sides.now.second_drones.now) (at sides.now.second_stops.now) k) (at flags.now k))) }
{
    are_right(drones, m, stop_counts, lasts, sides, flags)
}
