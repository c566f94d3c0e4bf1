// Two plans in their tables as one text of a form: its length, and its lines copied into other tables as reading it would store them.
ghost use Rattle.std.specs.Prelude.{◌≡◌, ◌++◌, ◌*◌, ◌≤◌, length};
ghost use Rattle.tables.specs.Limits.{limits};
ghost use Rattle.text.specs.TextRead.{TextRead};
ghost use Rattle.text.specs.Written.{routes_text};
ghost use Rattle.copying.specs.Reckoned.{routes_in, Copyable};

use crate::{drones as one, ends};
use lines::keys;
use lines::refusal::Refusal;
use tables::entries::Drone;
use tables::lent::Plan;

// How long the text of both plans is, the drones of the first before those of the second.
pub fn text_length(
    form: u8,
    drones_1: usize,
    first: &Plan<'_>,
    drones_2: usize,
    second: &Plan<'_>,
) -> usize
    requires { Copyable limits form drones_1 first.now.names.now first.now.stop_counts.now first.now.locations.now first.now.times.now first.now.legs.now
        × Copyable limits form drones_2 second.now.names.now second.now.stop_counts.now second.now.locations.now second.now.times.now second.now.legs.now }
    ensures { result ≡ length (routes_text form
        (routes_in limits drones_1 first.now.names.now first.now.stop_counts.now first.now.locations.now first.now.times.now first.now.legs.now
        ++ routes_in limits drones_2 second.now.names.now second.now.stop_counts.now second.now.locations.now second.now.times.now second.now.legs.now)) }
{
    let start = ends::lines_start(form, drones_1 + drones_2);
    let next = ends::lines_end(start, drones_1, form, first);
    let last = ends::lines_end(next, drones_2, form, second);
    last + keys::END_LINE.len()
}

// Copies both plans into the tables as reading that text would store them. A refusal leaves what the lines before the fault would have written.
pub fn copy_lines(
    form: u8,
    drones_1: usize,
    first: &Plan<'_>,
    drones_2: usize,
    second: &Plan<'_>,
    drone_count: &mut [u16],
    forms: &mut [u8],
    names: &mut [u8],
    counts: &mut [u16],
    locations: &mut [u16],
    times: &mut [u32],
    legs: &mut [u8],
) -> Result<usize, Refusal>
    requires copyable { Copyable limits form drones_1 first.now.names.now first.now.stop_counts.now first.now.locations.now first.now.times.now first.now.legs.now
        × Copyable limits form drones_2 second.now.names.now second.now.stop_counts.now second.now.locations.now second.now.times.now second.now.legs.now }
    requires in_bounds { (1 ≤ length drone_count.old) × (1 ≤ length forms.old) × (limits.drones * limits.name ≤ length names.old) × (limits.drones ≤ length counts.old) × (limits.stops ≤ length locations.old) × (limits.stops ≤ length times.old) × (limits.stops ≤ length legs.old) }
    ensures { TextRead limits (routes_text form
        (routes_in limits drones_1 first.now.names.now first.now.stop_counts.now first.now.locations.now first.now.times.now first.now.legs.now
        ++ routes_in limits drones_2 second.now.names.now second.now.stop_counts.now second.now.locations.now second.now.times.now second.now.legs.now))
        drone_count.old forms.old names.old counts.old locations.old times.old legs.old
        drone_count.new forms.new names.new counts.new locations.new times.new legs.new result }
{
    let drones = drones_1 + drones_2;
    if Drone::FULL < drones {
        return Err(Refusal::Range(keys::PLAN_LINE.len()));
    }
    let start = ends::lines_start(form, drones);
    let copied = one::copy_drones(
        start, form, 0, 0, drones_1, first, names, counts, locations, times, legs,
    )?;
    one::copy_drones(
        copied.next,
        form,
        drones_1,
        copied.total,
        drones_2,
        second,
        names,
        counts,
        locations,
        times,
        legs,
    )?;
    drone_count[0] = drones as u16;
    forms[0] = form;
    Ok(drones)
}
