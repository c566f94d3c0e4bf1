// The entries: a plan text read into the lent tables, with a site text or without. The tables that are written are parameters one by one, but for those that the text's lines
// fill. Tried: one value of all sixteen. Its steps proved, but whoever made the value learned nothing of what it left in the tables, since it held another such value.
ghost use Rattle.std.specs.Prelude.{◌≡◌, List, ℕ, ◌*◌, ◌≤◌, length, Ok};
ghost use Rattle.tables.specs.Limits.{limits, most_pairs};
ghost use Rattle.tables.specs.Tables.{tables_of};
ghost use Rattle.tables.specs.Zero.{zeroed, zeroed_tables};
ghost use Rattle.text.specs.TextRead.{TextRead};
ghost use Rattle.plan.specs.Columns.{columns_with};
ghost use Rattle.reading.specs.Reading.{without, given, site_of, site_read, AnsweredAs, read_lines, after_site, read_plan};
ghost use Rattle.reading.specs.Replies.{reading_meant};
ghost use Rattle.reading.specs.Asked.{LinesAsked, PlanAsked, ZeroedButPairs};

use crate::replies::Refusal;
use crate::{long_text, pairs as site_pairs, storing};
use lines::refusal::Refusal as LineRefusal;
use tables::entries::{Drone, FORM, MAX_TEXT, NearPair, Stop};
use tables::filled::Routes;
use tables::lent::{Plan, Sides};
use tables::{sizes, zeroing};
use text::reader;

// After the lines of a text were read into tables that are zeroed but for the pairs: their refusal, or plan check and dependencies. After any refusal the tables that the lines wrote are zeroed, and
// the pairs. The lines may come from elsewhere than a text that is read, as from two plans that are joined. The drones' progress is not touched, whatever it is.
pub fn after_lines(
    answer: Result<usize, LineRefusal>,
    drone_count: &mut [u16],
    dependency_count: &mut [u16],
    form: &mut [u8],
    names: &mut [u8],
    stop_counts: &mut [u16],
    locations: &mut [u16],
    times: &mut [u32],
    legs: &mut [u8],
    first_drones: &mut [u8],
    first_stops: &mut [u16],
    second_drones: &mut [u8],
    second_stops: &mut [u16],
    flags: &mut [u8],
    pairs: &mut [u16],
) -> Result<(), Refusal>
    requires { (n : ℕ) → answer ≡ Ok n → PlanAsked limits drone_count.old dependency_count.old stop_counts.old locations.old times.old legs.old (columns_with first_drones.old first_stops.old second_drones.old second_stops.old flags.old) pairs.old }
    ensures { (text dc fm ns cs ls ts gs visited drone_flags : List ℕ)
        → TextRead limits text dc fm ns cs ls ts gs drone_count.old form.old names.old stop_counts.old
        locations.old times.old legs.old answer
        → ZeroedButPairs limits (tables_of
        dc dependency_count.old fm ns cs ls ts gs visited drone_flags
        first_drones.old first_stops.old second_drones.old second_stops.old
        flags.old pairs.old)
        → AnsweredAs (read_lines limits text (tables_of
        dc dependency_count.old fm ns cs ls ts gs visited drone_flags
        first_drones.old first_stops.old second_drones.old second_stops.old
        flags.old pairs.old)) (reading_meant result) (tables_of
        drone_count.new dependency_count.new form.new names.new stop_counts.new
        locations.new times.new legs.new visited drone_flags
        first_drones.new first_stops.new second_drones.new second_stops.new
        flags.new pairs.new) }
{
    let stored = storing::store_lines(
        answer,
        drone_count,
        dependency_count,
        stop_counts,
        locations,
        times,
        legs,
        first_drones,
        first_stops,
        second_drones,
        second_stops,
        flags,
        pairs,
    );
    if let Err(refusal) = stored {
        zeroing::zero(drone_count, Drone::COUNT, 0);
        zeroing::zero(form, FORM, 0);
        zeroing::zero(names, Drone::NAMES, 0);
        zeroing::zero(stop_counts, Drone::FULL, 0);
        zeroing::zero(locations, Stop::FULL, 0);
        zeroing::zero(times, Stop::FULL, 0);
        zeroing::zero(legs, Stop::FULL, 0);
        zeroing::zero(pairs, NearPair::NUMBERS, 0);
        return Err(refusal);
    }
    Ok(())
}

// The lines of a text, read into tables that are parameters one by one.
fn read_text(
    text: &[u8],
    drone_count: &mut [u16],
    form: &mut [u8],
    names: &mut [u8],
    stop_counts: &mut [u16],
    locations: &mut [u16],
    times: &mut [u32],
    legs: &mut [u8],
) -> Result<usize, LineRefusal>
    requires { (1 ≤ length drone_count.old) × (1 ≤ length form.old) × (limits.drones * limits.name ≤ length names.old) × (limits.drones ≤ length stop_counts.old) × (limits.stops ≤ length locations.old) × (limits.stops ≤ length times.old) × (limits.stops ≤ length legs.old) }
    ensures { TextRead limits text.now
        drone_count.old form.old names.old stop_counts.old locations.old times.old legs.old
        drone_count.new form.new names.new stop_counts.new locations.new times.new legs.new result }
{
    let mut routes = Routes {
        names,
        stop_counts,
        locations,
        times,
        legs,
    };
    reader::read_text(text, drone_count, form, &mut routes)
}

// Reads a text that is not too long into tables that are zeroed but for the pairs. After any refusal the tables that its lines wrote are zeroed, and the pairs.
fn read_lines(
    text: &[u8],
    drone_count: &mut [u16],
    dependency_count: &mut [u16],
    form: &mut [u8],
    names: &mut [u8],
    stop_counts: &mut [u16],
    locations: &mut [u16],
    times: &mut [u32],
    legs: &mut [u8],
    first_drones: &mut [u8],
    first_stops: &mut [u16],
    second_drones: &mut [u8],
    second_stops: &mut [u16],
    flags: &mut [u8],
    pairs: &mut [u16],
) -> Result<(), Refusal>
    requires { LinesAsked limits drone_count.old dependency_count.old form.old names.old stop_counts.old locations.old times.old legs.old (columns_with first_drones.old first_stops.old second_drones.old second_stops.old flags.old) pairs.old }
    ensures { (visited drone_flags : List ℕ)
        → ZeroedButPairs limits (tables_of
        drone_count.old dependency_count.old form.old names.old stop_counts.old
        locations.old times.old legs.old visited drone_flags
        first_drones.old first_stops.old second_drones.old second_stops.old
        flags.old pairs.old)
        → AnsweredAs (read_lines limits text.now (tables_of
        drone_count.old dependency_count.old form.old names.old stop_counts.old
        locations.old times.old legs.old visited drone_flags
        first_drones.old first_stops.old second_drones.old second_stops.old
        flags.old pairs.old)) (reading_meant result) (tables_of
        drone_count.new dependency_count.new form.new names.new stop_counts.new
        locations.new times.new legs.new visited drone_flags
        first_drones.new first_stops.new second_drones.new second_stops.new
        flags.new pairs.new) }
{
    let answer = read_text(
        text,
        drone_count,
        form,
        names,
        stop_counts,
        locations,
        times,
        legs,
    );
    after_lines(
        answer,
        drone_count,
        dependency_count,
        form,
        names,
        stop_counts,
        locations,
        times,
        legs,
        first_drones,
        first_stops,
        second_drones,
        second_stops,
        flags,
        pairs,
    )
}

// Reads a site text, if there is one, and a text that is not too long into zeroed tables. After any refusal the tables are zeroed again.
fn read_sited(
    site: Option<&[u8]>,
    text: &[u8],
    drone_count: &mut [u16],
    dependency_count: &mut [u16],
    form: &mut [u8],
    names: &mut [u8],
    stop_counts: &mut [u16],
    locations: &mut [u16],
    times: &mut [u32],
    legs: &mut [u8],
    first_drones: &mut [u8],
    first_stops: &mut [u16],
    second_drones: &mut [u8],
    second_stops: &mut [u16],
    flags: &mut [u8],
    pairs: &mut [u16],
) -> Result<(), Refusal>
    requires lines_asked { LinesAsked limits drone_count.old dependency_count.old form.old names.old stop_counts.old locations.old times.old legs.old (columns_with first_drones.old first_stops.old second_drones.old second_stops.old flags.old) pairs.old }
    requires pairs_value { zeroed (2 * most_pairs) pairs.old ≡ pairs.old }
    ensures { (visited drone_flags : List ℕ)
        → length text.now ≤ limits.text
        → zeroed_tables limits (tables_of
        drone_count.old dependency_count.old form.old names.old stop_counts.old
        locations.old times.old legs.old visited drone_flags
        first_drones.old first_stops.old second_drones.old second_stops.old
        flags.old pairs.old) ≡ tables_of
        drone_count.old dependency_count.old form.old names.old stop_counts.old
        locations.old times.old legs.old visited drone_flags
        first_drones.old first_stops.old second_drones.old second_stops.old
        flags.old pairs.old
        → AnsweredAs (after_site limits (site_read limits (site_of site.entry)).numbers text.now (tables_of
        drone_count.old dependency_count.old form.old names.old stop_counts.old
        locations.old times.old legs.old visited drone_flags
        first_drones.old first_stops.old second_drones.old second_stops.old
        flags.old pairs.old) (site_read limits (site_of site.entry)).answer) (reading_meant result) (tables_of
        drone_count.new dependency_count.new form.new names.new stop_counts.new
        locations.new times.new legs.new visited drone_flags
        first_drones.new first_stops.new second_drones.new second_stops.new
        flags.new pairs.new) }
{
    if let Err(refusal) = site_pairs::read_pairs(site, pairs) {
        zeroing::zero(pairs, NearPair::NUMBERS, 0);
        return Err(Refusal::from(refusal));
    }
    read_lines(
        text,
        drone_count,
        dependency_count,
        form,
        names,
        stop_counts,
        locations,
        times,
        legs,
        first_drones,
        first_stops,
        second_drones,
        second_stops,
        flags,
        pairs,
    )
}

// Reads a site text, if there is one, and then a plan text into the tables. Tables below full size change nothing, and neither does a text that is too long after a site text that is taken; after any
// other refusal the tables are zeroed.
pub fn read_given(
    site: Option<&[u8]>,
    text: &[u8],
    drone_count: &mut [u16],
    dependency_count: &mut [u16],
    form: &mut [u8],
    names: &mut [u8],
    stop_counts: &mut [u16],
    locations: &mut [u16],
    times: &mut [u32],
    legs: &mut [u8],
    visited: &mut [u16],
    drone_flags: &mut [u8],
    first_drones: &mut [u8],
    first_stops: &mut [u16],
    second_drones: &mut [u8],
    second_stops: &mut [u16],
    flags: &mut [u8],
    pairs: &mut [u16],
) -> Result<(), Refusal>
    ensures { AnsweredAs (read_plan limits (site_of site.entry) text.now (tables_of
        drone_count.old dependency_count.old form.old names.old stop_counts.old
        locations.old times.old legs.old visited.old drone_flags.old
        first_drones.old first_stops.old second_drones.old second_stops.old
        flags.old pairs.old)) (reading_meant result) (tables_of
        drone_count.new dependency_count.new form.new names.new stop_counts.new
        locations.new times.new legs.new visited.new drone_flags.new
        first_drones.new first_stops.new second_drones.new second_stops.new
        flags.new pairs.new) }
{
    let plan = Plan {
        drone_count,
        dependency_count,
        form,
        names,
        stop_counts,
        locations,
        times,
        legs,
        pairs,
    };
    let sides = Sides {
        first_drones,
        first_stops,
        second_drones,
        second_stops,
    };
    if !sizes::full_size(&plan, visited, drone_flags, &sides, flags) {
        return Err(Refusal::TablesTooSmall);
    }
    if MAX_TEXT < text.len() {
        return long_text::too_long(
            site,
            drone_count,
            dependency_count,
            form,
            names,
            stop_counts,
            locations,
            times,
            legs,
            visited,
            drone_flags,
            first_drones,
            first_stops,
            second_drones,
            second_stops,
            flags,
            pairs,
        );
    }
    zeroing::zero_all(
        drone_count,
        dependency_count,
        form,
        names,
        stop_counts,
        locations,
        times,
        legs,
        visited,
        drone_flags,
        first_drones,
        first_stops,
        second_drones,
        second_stops,
        flags,
        pairs,
    );
    read_sited(
        site,
        text,
        drone_count,
        dependency_count,
        form,
        names,
        stop_counts,
        locations,
        times,
        legs,
        first_drones,
        first_stops,
        second_drones,
        second_stops,
        flags,
        pairs,
    )
}

// Reads a plan text into the tables, without a site text. Tables below full size and a text that is too long change nothing, and after any other refusal the tables are zeroed.
pub fn read_plan(
    text: &[u8],
    drone_count: &mut [u16],
    dependency_count: &mut [u16],
    form: &mut [u8],
    names: &mut [u8],
    stop_counts: &mut [u16],
    locations: &mut [u16],
    times: &mut [u32],
    legs: &mut [u8],
    visited: &mut [u16],
    drone_flags: &mut [u8],
    first_drones: &mut [u8],
    first_stops: &mut [u16],
    second_drones: &mut [u8],
    second_stops: &mut [u16],
    flags: &mut [u8],
    pairs: &mut [u16],
) -> Result<(), Refusal>
    ensures { AnsweredAs (read_plan limits without text.now (tables_of
        drone_count.old dependency_count.old form.old names.old stop_counts.old
        locations.old times.old legs.old visited.old drone_flags.old
        first_drones.old first_stops.old second_drones.old second_stops.old
        flags.old pairs.old)) (reading_meant result) (tables_of
        drone_count.new dependency_count.new form.new names.new stop_counts.new
        locations.new times.new legs.new visited.new drone_flags.new
        first_drones.new first_stops.new second_drones.new second_stops.new
        flags.new pairs.new) }
{
    read_given(
        None,
        text,
        drone_count,
        dependency_count,
        form,
        names,
        stop_counts,
        locations,
        times,
        legs,
        visited,
        drone_flags,
        first_drones,
        first_stops,
        second_drones,
        second_stops,
        flags,
        pairs,
    )
}

// Reads a site text and then a plan text into the tables. Tables below full size change nothing, and neither does a text that is too long after a site text that is taken; after any other refusal the
// tables are zeroed.
pub fn read_plan_at(
    site: &[u8],
    text: &[u8],
    drone_count: &mut [u16],
    dependency_count: &mut [u16],
    form: &mut [u8],
    names: &mut [u8],
    stop_counts: &mut [u16],
    locations: &mut [u16],
    times: &mut [u32],
    legs: &mut [u8],
    visited: &mut [u16],
    drone_flags: &mut [u8],
    first_drones: &mut [u8],
    first_stops: &mut [u16],
    second_drones: &mut [u8],
    second_stops: &mut [u16],
    flags: &mut [u8],
    pairs: &mut [u16],
) -> Result<(), Refusal>
    ensures { AnsweredAs (read_plan limits (given site.now) text.now (tables_of
        drone_count.old dependency_count.old form.old names.old stop_counts.old
        locations.old times.old legs.old visited.old drone_flags.old
        first_drones.old first_stops.old second_drones.old second_stops.old
        flags.old pairs.old)) (reading_meant result) (tables_of
        drone_count.new dependency_count.new form.new names.new stop_counts.new
        locations.new times.new legs.new visited.new drone_flags.new
        first_drones.new first_stops.new second_drones.new second_stops.new
        flags.new pairs.new) }
{
    read_given(
        Some(site),
        text,
        drone_count,
        dependency_count,
        form,
        names,
        stop_counts,
        locations,
        times,
        legs,
        visited,
        drone_flags,
        first_drones,
        first_stops,
        second_drones,
        second_stops,
        flags,
        pairs,
    )
}
