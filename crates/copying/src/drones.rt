// The drones of one plan copied behind those that the tables hold, as reading their lines would store them. The tables that are filled are parameters one by one, as in
// `joining`, which calls this.
ghost use Rattle.std.specs.Prelude.{◌+◌, ◌*◌, ◌<◌, ◌≤◌, ◌^◌, length, take, drop};
ghost use Rattle.tables.specs.Limits.{limits};
ghost use Rattle.lines.specs.Names.{among};
ghost use Rattle.text.specs.LinesRead.{StopsStored, LinesStored};
ghost use Rattle.text.specs.TextWritten.{rows_in, Writable};
ghost use Rattle.copying.specs.Reckoned.{route_in, routes_in, stops_reckoned, route_reckoned, routes_reckoned};

use crate::{copies, ends};
use lines::refusal::Refusal;
use lines::{bytes, keys, names as rows};
use tables::entries::{Drone, Stop};
use tables::lent::Plan;
use text::reader::DroneLines;
use text::writer;

// The stops of one drone, whose line `stops=` would begin at a position.
fn copy_stops(
    at: usize,
    form: u8,
    drone: usize,
    total: usize,
    count: usize,
    from: usize,
    locations: &[u16],
    times: &[u32],
    legs: &[u8],
    into_counts: &mut [u16],
    into_locations: &mut [u16],
    into_times: &mut [u32],
    into_legs: &mut [u8],
) -> Result<DroneLines, Refusal>
    requires at_bound { (at < 2 ^ 29) × (drone < limits.drones) × (total ≤ limits.stops) × (count ≤ limits.stops) × (from + count ≤ length locations.now) × (from + count ≤ length times.now) × (from + count ≤ length legs.now) }
    requires drones_in_bounds { (limits.drones ≤ length into_counts.old) × (limits.stops ≤ length into_locations.old) × (limits.stops ≤ length into_times.old) × (limits.stops ≤ length into_legs.old) }
    ensures { StopsStored
        (stops_reckoned limits form at total (take count (drop from locations.now)) (take count (drop from times.now)) (take count (drop from legs.now))) drone total
        into_counts.old into_locations.old into_times.old into_legs.old
        into_counts.new into_locations.new into_times.new into_legs.new result }
{
    if Stop::FULL - total < count {
        return Err(Refusal::TooManyStops(at));
    }
    into_counts[drone] = count as u16;
    copies::copy(
        &locations[from..from + count],
        &mut into_locations[total..total + count],
    );
    copies::copy(
        &times[from..from + count],
        &mut into_times[total..total + count],
    );
    copies::copy(
        &legs[from..from + count],
        &mut into_legs[total..total + count],
    );
    Ok(DroneLines {
        next: ends::stops_end(at, form, count, from, locations, times, legs),
        total: total + count,
    })
}

// One drone, whose line `name=` would begin at a position.
fn copy_drone(
    at: usize,
    form: u8,
    drone: usize,
    total: usize,
    plan: &Plan<'_>,
    row: usize,
    count: usize,
    from: usize,
    into_names: &mut [u8],
    into_counts: &mut [u16],
    into_locations: &mut [u16],
    into_times: &mut [u32],
    into_legs: &mut [u8],
) -> Result<DroneLines, Refusal>
    requires at_bound { (at < 2 ^ 28) × (drone < limits.drones) × (total ≤ limits.stops) × (row + limits.name ≤ length plan.now.names.now) × (count ≤ limits.stops) × (from + count ≤ length plan.now.locations.now) × (from + count ≤ length plan.now.times.now) × (from + count ≤ length plan.now.legs.now) }
    requires name_in_bounds { (limits.drones * limits.name ≤ length into_names.old) × (limits.drones ≤ length into_counts.old) × (limits.stops ≤ length into_locations.old) × (limits.stops ≤ length into_times.old) × (limits.stops ≤ length into_legs.old) }
    ensures { LinesStored limits (route_reckoned limits form at total (among limits drone into_names.old 0)
        (route_in limits row plan.now.names.now count from plan.now.locations.now plan.now.times.now plan.now.legs.now)) drone total
        into_names.old into_counts.old into_locations.old into_times.old into_legs.old
        into_names.new into_counts.new into_locations.new into_times.new into_legs.new result }
{
    let len = writer::name_len(plan.names, row);
    let end = row + len;
    let mut name = [0u8; Drone::NAME];
    bytes::put_bytes(&mut name, 0, &plan.names[row..end]);
    if rows::row_among(into_names, drone, &name) {
        return Err(Refusal::SameName(at));
    }
    bytes::put_bytes(into_names, drone * Drone::NAME, &name);
    let next = at + keys::NAME.len() + len + 1;
    copy_stops(
        next,
        form,
        drone,
        total,
        count,
        from,
        plan.locations,
        plan.times,
        plan.legs,
        into_counts,
        into_locations,
        into_times,
        into_legs,
    )
}

// The first `drones` drones of a plan, behind `drone` drones that have `total` stops.
pub fn copy_drones(
    at: usize,
    form: u8,
    drone: usize,
    total: usize,
    drones: usize,
    plan: &Plan<'_>,
    into_names: &mut [u8],
    into_counts: &mut [u16],
    into_locations: &mut [u16],
    into_times: &mut [u32],
    into_legs: &mut [u8],
) -> Result<DroneLines, Refusal>
    requires at_bound { (at < 2 ^ 27) × (drone + drones ≤ limits.drones) × (total ≤ limits.stops) × Writable limits form drones plan.now.names.now plan.now.stop_counts.now plan.now.locations.now plan.now.times.now plan.now.legs.now }
    requires name_in_bounds { (limits.drones * limits.name ≤ length into_names.old) × (limits.drones ≤ length into_counts.old) × (limits.stops ≤ length into_locations.old) × (limits.stops ≤ length into_times.old) × (limits.stops ≤ length into_legs.old) }
    ensures { LinesStored limits (routes_reckoned limits form at (rows_in limits drone into_names.old) total
        (routes_in limits drones plan.now.names.now plan.now.stop_counts.now plan.now.locations.now plan.now.times.now plan.now.legs.now)) drone total
        into_names.old into_counts.old into_locations.old into_times.old into_legs.old
        into_names.new into_counts.new into_locations.new into_times.new into_legs.new result }
{
    let mut from = 0;
    let mut copied = DroneLines { next: at, total };
    for i in 0..drones {
        let count = usize::from(plan.stop_counts[i]);
        copied = copy_drone(
            copied.next,
            form,
            drone + i,
            copied.total,
            plan,
            i * Drone::NAME,
            count,
            from,
            into_names,
            into_counts,
            into_locations,
            into_times,
            into_legs,
        )?;
        from += count;
    }
    Ok(copied)
}
