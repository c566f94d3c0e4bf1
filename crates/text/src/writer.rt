// The plan text, written from lent tables. A byte past the buffer's end is dropped, so that the text's length is found by writing into no buffer.
ghost use Rattle.std.specs.Prelude.{◌≡◌, ◌++◌, ◌+◌, ◌*◌, ◌<◌, ◌≤◌, ◌^◌, length, take, drop};
ghost use Rattle.tables.specs.Limits.{limits};
ghost use Rattle.lines.specs.Keys.{stops_key};
ghost use Rattle.lines.specs.Bytes.{Put};
ghost use Rattle.lines.specs.Stops.{count_line, stop_lines};
ghost use Rattle.lines.specs.Names.{name_line, name_of};
ghost use Rattle.text.specs.Written.{drone_lines};
ghost use Rattle.text.specs.TextWritten.{drone_text, rows_in, tables_text, Writable, TextWritten};

use lines::{bytes, forms, keys, numbers, stops};
use tables::entries::Drone;
use tables::lent::Plan;

// How many bytes of a row stand before its first zero.
pub fn name_len(names: &[u8], row: usize) -> usize
    requires { row + limits.name ≤ length names.now }
    ensures { result ≡ length (name_of (take limits.name (drop row names.now))) }
{
    names[row..row + Drone::NAME]
        .iter()
        .position(|byte| *byte == 0)
        .unwrap_or(Drone::NAME)
}

// Writes the line `name=TEXT` of the name that stands in a row of the table.
fn put_name(buf: &mut [u8], at: usize, names: &[u8], row: usize) -> usize
    requires { (at < 2 ^ 31) × (row + limits.name ≤ length names.now) }
    ensures { Put buf.old at (name_line (name_of (take limits.name (drop row names.now)))) buf.new result }
{
    let end = row + name_len(names, row);
    let name = bytes::put_bytes(buf, at, &keys::NAME);
    let feed = bytes::put_bytes(buf, name, &names[row..end]);
    bytes::put_byte(buf, feed, keys::LINE_FEED)
}

// Writes a line of a key and a number: `agents=N`, `stops=M`.
pub fn put_count(buf: &mut [u8], at: usize, key: &[u8], value: usize) -> usize
    requires { at + length key.now < 2 ^ 31 }
    ensures { Put buf.old at (count_line key.now value) buf.new result }
{
    let number = bytes::put_bytes(buf, at, key);
    let feed = numbers::put_number(buf, number, value);
    bytes::put_byte(buf, feed, keys::LINE_FEED)
}

// Writes the line `stops=M` and the lines of the stops, which stand in the tables from entry `from` on.
pub fn put_stop_lines(
    buf: &mut [u8],
    at: usize,
    form: u8,
    count: usize,
    from: usize,
    locations: &[u16],
    times: &[u32],
    legs: &[u8],
) -> usize
    requires { (at < 2 ^ 29) × (count ≤ limits.stops) × (from + count ≤ length locations.now) × (from + count ≤ length times.now) × (from + count ≤ length legs.now) }
    ensures { Put buf.old at
        (count_line stops_key count ++ stop_lines form (take count (drop from locations.now)) (take count (drop from times.now)) (take count (drop from legs.now)))
        buf.new result }
{
    let first = put_count(buf, at, &keys::STOPS, count);
    stops::put_stops(buf, first, form, count, from, locations, times, legs)
}

// Writes the lines of one drone, whose name stands in a row of the table of names.
fn put_drone(
    buf: &mut [u8],
    at: usize,
    form: u8,
    plan: &Plan<'_>,
    row: usize,
    count: usize,
    from: usize,
) -> usize
    requires { (at < 2 ^ 28) × (row + limits.name ≤ length plan.now.names.now) × (count ≤ limits.stops) × (from + count ≤ length plan.now.locations.now) × (from + count ≤ length plan.now.times.now) × (from + count ≤ length plan.now.legs.now) }
    ensures { Put buf.old at
        (drone_text form (take limits.name (drop row plan.now.names.now)) count (drop from plan.now.locations.now) (drop from plan.now.times.now) (drop from plan.now.legs.now))
        buf.new result }
{
    let next = put_name(buf, at, plan.names, row);
    put_stop_lines(
        buf,
        next,
        form,
        count,
        from,
        plan.locations,
        plan.times,
        plan.legs,
    )
}

// Writes the lines of the first `drones` drones.
pub fn put_drones(buf: &mut [u8], at: usize, drones: usize, form: u8, plan: &Plan<'_>) -> usize
    requires { (at < 2 ^ 27) × Writable limits form drones plan.now.names.now plan.now.stop_counts.now plan.now.locations.now plan.now.times.now plan.now.legs.now }
    ensures { Put buf.old at
        (drone_lines form (rows_in limits drones plan.now.names.now) (take drones plan.now.stop_counts.now) plan.now.locations.now plan.now.times.now plan.now.legs.now)
        buf.new result }
{
    let mut from = 0;
    let mut next = at;
    for drone in 0..drones {
        let count = usize::from(plan.stop_counts[drone]);
        next = put_drone(buf, next, form, plan, drone * Drone::NAME, count, from);
        from += count;
    }
    next
}

// Writes the text of the plan that the tables hold, as far as the buffer reaches, and gives the text's length.
fn put_text(buf: &mut [u8], drones: usize, form: u8, plan: &Plan<'_>) -> usize
    requires { Writable limits form drones plan.now.names.now plan.now.stop_counts.now plan.now.locations.now plan.now.times.now plan.now.legs.now }
    ensures { Put buf.old 0
        (tables_text limits form drones plan.now.names.now plan.now.stop_counts.now plan.now.locations.now plan.now.times.now plan.now.legs.now)
        buf.new result }
{
    let agents = forms::put_form(buf, 0, form);
    let first = put_count(buf, agents, &keys::AGENTS, drones);
    let last = put_drones(buf, first, drones, form, plan);
    bytes::put_bytes(buf, last, &keys::END_LINE)
}

// Writes the text of the plan that the tables hold and gives its length, None where the buffer is shorter than the text. The first call writes nothing and gives the length.
pub fn write_text(buf: &mut [u8], drones: usize, form: u8, plan: &Plan<'_>) -> Option<usize>
    requires { Writable limits form drones plan.now.names.now plan.now.stop_counts.now plan.now.locations.now plan.now.times.now plan.now.legs.now }
    ensures { TextWritten
        (tables_text limits form drones plan.now.names.now plan.now.stop_counts.now plan.now.locations.now plan.now.times.now plan.now.legs.now)
        buf.old buf.new result }
{
    let length = put_text(&mut buf[0..0], drones, form, plan);
    if buf.len() < length {
        return None;
    }
    put_text(buf, drones, form, plan);
    Some(length)
}
