// The plan text, read into lent tables.
ghost use Rattle.std.specs.Prelude.{◌≡◌, ◌*◌, ◌<◌, ◌≤◌, ◌≢◌, length, []};
ghost use Rattle.tables.specs.Limits.{limits};
ghost use Rattle.tables.specs.Filled.{SameRoutes};
ghost use Rattle.lines.specs.Names.{among};
ghost use Rattle.text.specs.LinesRead.{stops_read, StopsStored, drone_at, drones_at, LinesStored, lines_of_form};
ghost use Rattle.text.specs.TextRead.{TextRead};

use lines::refusal::Refusal;
use lines::{bytes, forms, keys, names, stops};
use tables::entries::{Drone, Stop};
use tables::filled::Routes;

// What the lines of drones gave: the position after them, and the stops so far.
#[derive(Clone, Copy, Debug, PartialEq, Eq)]
pub struct DroneLines {
    pub next: usize,
    pub total: usize,
}

// The lines `stops=` and `go=` of a drone.
fn read_stops(
    text: &[u8],
    at: usize,
    form: u8,
    drone: usize,
    total: usize,
    routes: &mut Routes<'_>,
) -> Result<DroneLines, Refusal>
    requires { (drone < limits.drones) × (total ≤ limits.stops) × (limits.drones ≤ length routes.old.stop_counts.now) × (limits.stops ≤ length routes.old.locations.now) × (limits.stops ≤ length routes.old.times.now) × (limits.stops ≤ length routes.old.legs.now) }
    ensures same { SameRoutes routes.old routes.new }
    ensures stored { StopsStored (stops_read limits form text.now at total) drone total
        routes.old.stop_counts.now routes.old.locations.now routes.old.times.now routes.old.legs.now
        routes.new.stop_counts.now routes.new.locations.now routes.new.times.now routes.new.legs.now result }
    ensures names_kept { routes.new.names.now ≡ routes.old.names.now }
{
    let count = stops::count_line(text, at, &keys::STOPS, Stop::FULL)?;
    if Stop::FULL - total < count.value {
        return Err(Refusal::TooManyStops(at));
    }
    routes.stop_counts[drone] = count.value as u16;
    let next = stops::go_lines(
        text,
        count.next,
        form,
        count.value,
        total,
        routes.locations,
        routes.times,
        routes.legs,
    )?;
    Ok(DroneLines {
        next,
        total: total + count.value,
    })
}

// The lines of one drone: its name, and its stops.
fn read_drone(
    text: &[u8],
    at: usize,
    form: u8,
    drone: usize,
    total: usize,
    routes: &mut Routes<'_>,
) -> Result<DroneLines, Refusal>
    requires { (drone < limits.drones) × (total ≤ limits.stops) × (limits.drones * limits.name ≤ length routes.old.names.now) × (limits.drones ≤ length routes.old.stop_counts.now) × (limits.stops ≤ length routes.old.locations.now) × (limits.stops ≤ length routes.old.times.now) × (limits.stops ≤ length routes.old.legs.now) }
    ensures same { SameRoutes routes.old routes.new }
    ensures stored { LinesStored limits (drone_at limits form text.now at total (among limits drone routes.old.names.now 0)) drone total
        routes.old.names.now routes.old.stop_counts.now routes.old.locations.now routes.old.times.now routes.old.legs.now
        routes.new.names.now routes.new.stop_counts.now routes.new.locations.now routes.new.times.now routes.new.legs.now result }
{
    let name = names::name_line(text, at)?;
    let mut row = [0u8; Drone::NAME];
    names::put_small(&mut row, 0, &text[name.start..name.end]);
    let rows = &mut *routes.names;
    if names::row_among(rows, drone, &row) {
        return Err(Refusal::SameName(at));
    }
    bytes::put_bytes(rows, drone * Drone::NAME, &row);
    read_stops(text, name.end + 1, form, drone, total, routes)
}

// The lines of all drones.
fn read_drones(
    text: &[u8],
    at: usize,
    form: u8,
    drones: usize,
    routes: &mut Routes<'_>,
) -> Result<DroneLines, Refusal>
    requires { (drones ≤ limits.drones) × (limits.drones * limits.name ≤ length routes.old.names.now) × (limits.drones ≤ length routes.old.stop_counts.now) × (limits.stops ≤ length routes.old.locations.now) × (limits.stops ≤ length routes.old.times.now) × (limits.stops ≤ length routes.old.legs.now) }
    ensures same { SameRoutes routes.old routes.new }
    ensures stored { LinesStored limits (drones_at limits form drones text.now at [] 0) 0 0
        routes.old.names.now routes.old.stop_counts.now routes.old.locations.now routes.old.times.now routes.old.legs.now
        routes.new.names.now routes.new.stop_counts.now routes.new.locations.now routes.new.times.now routes.new.legs.now result }
{
    let mut read = DroneLines { next: at, total: 0 };
    for drone in 0..drones {
        read = read_drone(text, read.next, form, drone, read.total, routes)?;
    }
    Ok(read)
}

// The lines after the first, which names the form, stored into the tables. Gives the number of drones.
fn read_lines(text: &[u8], form: u8, routes: &mut Routes<'_>) -> Result<usize, Refusal>
    requires { (form ≢ 0) × (limits.drones * limits.name ≤ length routes.old.names.now) × (limits.drones ≤ length routes.old.stop_counts.now) × (limits.stops ≤ length routes.old.locations.now) × (limits.stops ≤ length routes.old.times.now) × (limits.stops ≤ length routes.old.legs.now) }
    ensures same { SameRoutes routes.old routes.new }
    ensures stored { LinesStored limits (lines_of_form limits form text.now) 0 0
        routes.old.names.now routes.old.stop_counts.now routes.old.locations.now routes.old.times.now routes.old.legs.now
        routes.new.names.now routes.new.stop_counts.now routes.new.locations.now routes.new.times.now routes.new.legs.now result }
{
    let drones = stops::count_line(text, keys::PLAN_LINE.len(), &keys::AGENTS, Drone::FULL)?;
    let read = read_drones(text, drones.next, form, drones.value, routes)?;
    if !bytes::starts(text, read.next, &keys::END_LINE) {
        return Err(Refusal::Form(read.next));
    }
    let end = read.next + keys::END_LINE.len();
    if end != text.len() {
        return Err(Refusal::Form(end));
    }
    Ok(drones.value)
}

// Reads a plan text into the tables: the number of drones, which is the answer too, the plan's form, names, counts of stops, locations, times and legs of stops. A refusal leaves what the lines before the
// fault wrote.
pub fn read_text(
    text: &[u8],
    count: &mut [u16],
    form: &mut [u8],
    routes: &mut Routes<'_>,
) -> Result<usize, Refusal>
    requires { (1 ≤ length count.old) × (1 ≤ length form.old) × (limits.drones * limits.name ≤ length routes.old.names.now) × (limits.drones ≤ length routes.old.stop_counts.now) × (limits.stops ≤ length routes.old.locations.now) × (limits.stops ≤ length routes.old.times.now) × (limits.stops ≤ length routes.old.legs.now) }
    ensures same { SameRoutes routes.old routes.new }
    ensures read { TextRead limits text.now
        count.old form.old routes.old.names.now routes.old.stop_counts.now routes.old.locations.now routes.old.times.now routes.old.legs.now
        count.new form.new routes.new.names.now routes.new.stop_counts.now routes.new.locations.now routes.new.times.now routes.new.legs.now result }
{
    let named = forms::read_form(text).ok_or(Refusal::Form(0))?;
    let drones = read_lines(text, named, routes)?;
    count[0] = drones as u16;
    form[0] = named;
    Ok(drones)
}
