// The stops, the records and the graph of the tables, over stops that are numbered through.
ghost use Rattle.std.specs.Prelude.{true, ◌≡◌, ℕ, ◌-◌, ◌≤◌, ◌<◌, length};
ghost use Rattle.below.specs.Below.{at, fill_below};
ghost use Rattle.tables.specs.Limits.{limits};
ghost use Rattle.near.specs.Near.{SoundPairs};
ghost use Rattle.plan.specs.Field.{graph};
ghost use Rattle.sound.specs.Parts.{field_of, graph_part, turns_in};
ghost use Rattle.sound.specs.Asked.{Counted, SidesRoom, Numbers, GraphTables, Room, Scratch};

use crate::{records, single};
use cycles::lent::FlatStops;
use tables::entries::{Dependency, Drone, Stop};
use tables::lent::{Plan, Sides};

// Each drone's last stop.
fn fill_lasts(drones: usize, stop_counts: &[u16], lasts: &mut [u16])
    requires { (drones ≤ length stop_counts.now) × (drones ≤ length lasts.old) × ((d : ℕ) → d < drones → 1 ≤ at stop_counts.now d) }
    ensures { lasts.new ≡ fill_below drones (λ d. at stop_counts.now d - 1) lasts.old }
{
    for d in 0..drones {
        lasts[d] = stop_counts[d] - 1;
    }
}

// The local tables of the numbering.
pub fn fill_tables(
    drones: usize,
    n: usize,
    m: usize,
    stop_counts: &[u16],
    owners: &mut [u8],
    numbers: &mut [u16],
    starts: &mut [u16],
    lasts: &mut [u16],
)
    requires { Counted limits drones n m stop_counts.now × Scratch limits owners.old numbers.old starts.old lasts.old }
    ensures { Numbers limits drones n stop_counts.now owners.new numbers.new starts.new lasts.new }
{
    plan::stops::fill_stops(drones, stop_counts, n, owners, numbers);
    plan::stops::fill_starts(drones, stop_counts, starts);
    fill_lasts(drones, stop_counts, lasts);
}

// Whether the stops are sound, the records are the plan's dependencies with right flag bytes, nothing collides, and the graph now in force has no cycle. If so, it leaves that graph in
// the last five tables.
pub fn graph_sound(
    plan: &Plan<'_>,
    drone_flags: &[u8],
    sides: &Sides<'_>,
    flags: &[u8],
    drones: usize,
    n: usize,
    m: usize,
    form: u8,
    owners: &mut [u8; Stop::FULL],
    starts: &mut [u16; Drone::FULL],
    lasts: &mut [u16; Drone::FULL],
    from: &mut [u16; Dependency::FULL],
    into: &mut [u16; Dependency::FULL],
) -> bool
    requires { Counted limits drones n m plan.now.stop_counts.now × (n ≤ length plan.now.locations.now) × (n ≤ length plan.now.times.now) × (n ≤ length plan.now.legs.now) × SidesRoom m sides.now flags.now × Room limits owners.old starts.old lasts.old from.old into.old × (limits.drones ≤ length drone_flags.now) × SoundPairs limits plan.now.pairs.now }
    ensures { (result ≡ graph_part drones n m plan.now.stop_counts.now plan.now.locations.now plan.now.times.now plan.now.legs.now sides.now.first_drones.now sides.now.first_stops.now sides.now.second_drones.now sides.now.second_stops.now plan.now.pairs.now limits form drone_flags.now flags.now) × (result ≡ true → GraphTables limits plan.now.stop_counts.now (graph (field_of drones n m plan.now.stop_counts.now plan.now.locations.now plan.now.times.now plan.now.legs.now sides.now.first_drones.now sides.now.first_stops.now sides.now.second_drones.now sides.now.second_stops.now plan.now.pairs.now) (turns_in drone_flags.now flags.now)) owners.new starts.new lasts.new from.new into.new) }
{
    let mut numbers = [0u16; Stop::FULL];
    fill_tables(
        drones,
        n,
        m,
        plan.stop_counts,
        owners,
        &mut numbers,
        starts,
        lasts,
    );
    if !single::stops_sound(form, plan, &numbers, n) {
        return false;
    }
    if !records::records_sound(drones, m, plan.stop_counts, lasts, sides, flags) {
        return false;
    }
    records::number_through(starts, sides.first_drones, sides.first_stops, m, from);
    records::number_through(starts, sides.second_drones, sides.second_stops, m, into);
    let stops = FlatStops {
        owners: owners.as_slice(),
        starts,
        lasts,
        drones,
        count: n,
    };
    cycles::graph_sound(plan, &stops, drone_flags, flags, m, from, into)
}
