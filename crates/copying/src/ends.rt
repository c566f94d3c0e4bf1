// Where written lines end: the writer runs on a buffer of one byte, and says how far it came.
ghost use Rattle.std.specs.Prelude.{◌≡◌, ◌++◌, ◌+◌, ◌<◌, ◌≤◌, ◌^◌, length, take, drop};
ghost use Rattle.tables.specs.Limits.{limits};
ghost use Rattle.lines.specs.Keys.{stops_key};
ghost use Rattle.lines.specs.Stops.{count_line, stop_lines};
ghost use Rattle.text.specs.TextWritten.{rows_in, Writable};
ghost use Rattle.text.specs.Written.{drone_lines};
ghost use Rattle.copying.specs.Reckoned.{lines_from};

use lines::keys;
use tables::lent::Plan;
use text::writer;

// Where the lines of the drones begin, in the text of so many. The first line is as long in either form.
pub fn lines_start(form: u8, drones: usize) -> usize
    ensures { result ≡ lines_from form drones }
{
    let mut none = [0u8; 1];
    writer::put_count(&mut none, keys::PLAN_LINE.len(), &keys::AGENTS, drones)
}

// Where the lines `stops=` and `go=` of a drone end that begin at a position.
pub fn stops_end(
    at: usize,
    form: u8,
    count: usize,
    from: usize,
    locations: &[u16],
    times: &[u32],
    legs: &[u8],
) -> usize
    requires { (at < 2 ^ 29) × (count ≤ limits.stops) × (from + count ≤ length locations.now) × (from + count ≤ length times.now) × (from + count ≤ length legs.now) }
    ensures { result ≡ at + length (count_line stops_key count
        ++ stop_lines form (take count (drop from locations.now)) (take count (drop from times.now)) (take count (drop from legs.now))) }
{
    let mut none = [0u8; 1];
    writer::put_stop_lines(&mut none, at, form, count, from, locations, times, legs)
}

// Where the lines of the first `drones` drones end that begin at a position.
pub fn lines_end(at: usize, drones: usize, form: u8, plan: &Plan<'_>) -> usize
    requires { (at < 2 ^ 27) × Writable limits form drones plan.now.names.now plan.now.stop_counts.now plan.now.locations.now plan.now.times.now plan.now.legs.now }
    ensures { result ≡ at + length (drone_lines form (rows_in limits drones plan.now.names.now) (take drones plan.now.stop_counts.now) plan.now.locations.now plan.now.times.now plan.now.legs.now) }
{
    let mut none = [0u8; 1];
    writer::put_drones(&mut none, at, drones, form, plan)
}
