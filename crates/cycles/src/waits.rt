// The waits of a dependency table in the direction now in force.
ghost use Rattle.std.specs.Prelude.{◌||◌, ◌≡◌, ℕ, ◌≤◌, ◌<◌, length};
ghost use Rattle.below.specs.Below.{at, pick, count_below};
ghost use Rattle.tables.specs.Limits.{limits};
ghost use Rattle.cycles.specs.Waits.{turned_in, Edges, LeftOut, AsideRoom};
ghost use Rattle.plan.specs.Waits.{withdrawn_in};

use crate::lent::FlatStops;
use tables::entries::{Dependency, Drone};
use tables::flags::is_withdrawn;

fn turned_at(flags: &[u8], k: usize) -> bool
    requires { k < length flags.now }
    ensures { result ≡ turned_in flags.now k }
{
    tables::flags::is_turned(flags[k])
}

pub fn pick16(b: bool, x: u16, y: u16) -> u16
    ensures { result ≡ pick b x y }
{
    if b { x } else { y }
}

// How many of the first m dependencies are turned. The loop has no early end, so that many bytes are taken at a time.
pub fn turned_total(flags: &[u8], m: usize) -> u16
    requires { (m ≤ length flags.now) × (m ≤ limits.dependencies) }
    ensures { result ≡ count_below m (turned_in flags.now) }
{
    let mut total: u16 = 0;
    for k in 0..m {
        total += pick16(turned_at(flags, k), 1, 0);
    }
    total
}

// Makes the waits of the first m dependencies, in the direction now in force, of their first and second stops: those are in `from` and `into` at first.
pub fn make_waits(
    flags: &[u8],
    m: usize,
    from: &mut [u16; Dependency::FULL],
    into: &mut [u16; Dependency::FULL],
)
    requires m_in_bounds { (m ≤ length flags.now) × (m ≤ limits.dependencies) × ((k : ℕ) → k < m → at from.old k < limits.stops) × ((k : ℕ) → k < m → at into.old k < limits.stops) }
    requires from_len { (length from.old ≡ limits.dependencies) × (length into.old ≡ limits.dependencies) }
    ensures { Edges limits from.old into.old flags.now m from.new into.new }
{
    for k in 0..m {
        let t = turned_at(flags, k);
        let v = from[k];
        let w = into[k];
        from[k] = pick16(t, w + 1, v + 1);
        into[k] = pick16(t, v, w);
    }
}

// Whether one of two drones is withdrawn.
pub fn either_withdrawn(drone_flags: &[u8], a: usize, b: usize) -> bool
    requires { (a < length drone_flags.now) × (b < length drone_flags.now) }
    ensures { result ≡ (withdrawn_in drone_flags.now a || withdrawn_in drone_flags.now b) }
{
    if is_withdrawn(drone_flags[a]) {
        return true;
    }
    is_withdrawn(drone_flags[b])
}

// The stop that a wait of stop w for stop v is for: the stop 0 of its drone, which is visited, where one of the two drones is withdrawn.
fn kept_from(stops: &FlatStops<'_>, drone_flags: &[u8], v: u16, w: u16) -> u16
    requires { (v < length stops.now.owners.now) × (w < length stops.now.owners.now) × (at stops.now.owners.now v < limits.drones) × (at stops.now.owners.now w < limits.drones) × (limits.drones ≤ length drone_flags.now) }
    ensures { result ≡ pick (withdrawn_in drone_flags.now (at stops.now.owners.now v) || withdrawn_in drone_flags.now (at stops.now.owners.now w)) (at stops.now.starts.now (at stops.now.owners.now v)) v }
{
    let awaited = usize::from(stops.owners[usize::from(v)]);
    let waiter = usize::from(stops.owners[usize::from(w)]);
    if either_withdrawn(drone_flags, awaited, waiter) {
        return stops.starts[awaited];
    }
    v
}

// How many drones' flag bytes have the mark. The loop has no early end, so that many bytes are taken at a time.
fn withdrawn_total(drone_flags: &[u8]) -> u16
    requires { limits.drones ≤ length drone_flags.now }
    ensures { result ≡ count_below limits.drones (withdrawn_in drone_flags.now) }
{
    let mut total: u16 = 0;
    for d in 0..Drone::FULL {
        total += pick16(is_withdrawn(drone_flags[d]), 1, 0);
    }
    total
}

// Leaves the waits of withdrawn drones out, on either side. Mostly nobody is withdrawn: the bytes of the drones, of which there are few, are looked at before the waits.
pub fn leave_out(
    stops: &FlatStops<'_>,
    drone_flags: &[u8],
    m: usize,
    from: &mut [u16; Dependency::FULL],
    into: &[u16; Dependency::FULL],
)
    requires { AsideRoom limits stops.now.owners.now drone_flags.now from.old into.now m }
    ensures { LeftOut limits stops.now.owners.now stops.now.starts.now drone_flags.now from.old into.now m from.new }
{
    if withdrawn_total(drone_flags) == 0 {
        return;
    }
    for k in 0..m {
        from[k] = kept_from(stops, drone_flags, from[k], into[k]);
    }
}
