// What follows the lines of a text: the plan check and the building of the dependencies, on tables that hold the text's values.
ghost use Rattle.std.specs.Prelude.{◌≡◌, List, ℕ, Ok};
ghost use Rattle.tables.specs.Limits.{limits};
ghost use Rattle.tables.specs.Tables.{tables_of};
ghost use Rattle.text.specs.TextRead.{TextRead};
ghost use Rattle.plan.specs.Columns.{columns_with};
ghost use Rattle.reading.specs.Reading.{AnsweredAs, stored};
ghost use Rattle.reading.specs.Replies.{reading_meant};
ghost use Rattle.reading.specs.Asked.{PlanAsked, TextStored};

use crate::replies::Refusal;
use lines::refusal::Refusal as LineRefusal;
use plan::lent::{Links, Stops};
use plan::{check, dependencies, groups, stops};
use tables::entries::Stop;

// Checks the plan and writes its dependencies with their count. A refusal leaves the tables as they were, and the other tables are not touched, whatever they hold.
pub fn store_plan(
    drone_count: &[u16],
    dependency_count: &mut [u16],
    stop_counts: &[u16],
    locations: &[u16],
    times: &[u32],
    legs: &[u8],
    first_drones: &mut [u8],
    first_stops: &mut [u16],
    second_drones: &mut [u8],
    second_stops: &mut [u16],
    flags: &mut [u8],
    pairs: &[u16],
) -> Result<(), Refusal>
    requires { PlanAsked limits drone_count.now dependency_count.old stop_counts.now locations.now times.now legs.now (columns_with first_drones.old first_stops.old second_drones.old second_stops.old flags.old) pairs.now }
    ensures { (form names visited drone_flags : List ℕ) → AnsweredAs (stored limits (tables_of
        drone_count.now dependency_count.old form names stop_counts.now
        locations.now times.now legs.now visited drone_flags
        first_drones.old first_stops.old second_drones.old second_stops.old
        flags.old pairs.now)) (reading_meant result) (tables_of
        drone_count.now dependency_count.new form names stop_counts.now
        locations.now times.now legs.now visited drone_flags
        first_drones.new first_stops.new second_drones.new second_stops.new
        flags.new pairs.now) }
{
    let drones = usize::from(drone_count[0]);
    let count = stops::stop_total(drones, stop_counts);
    let mut owners = [0u8; Stop::FULL];
    let mut numbers = [0u16; Stop::FULL];
    stops::fill_stops(drones, stop_counts, count, &mut owners, &mut numbers);
    let mut first = [0u16; Stop::FULL];
    let mut next = [0u16; Stop::FULL];
    let mut skip = [0u16; Stop::FULL];
    groups::gather(&owners, locations, count, &mut first, &mut next, &mut skip);
    let stops = Stops {
        owners: &owners,
        locations,
        times,
        count,
    };
    let links = Links {
        first: &first,
        next: &next,
        skip: &skip,
    };
    check::check_plan(pairs, &stops, &numbers, legs, &links)?;
    let built = dependencies::build(
        pairs,
        &stops,
        &numbers,
        &links,
        first_drones,
        first_stops,
        second_drones,
        second_stops,
        flags,
    )
    .ok_or(Refusal::TooManyDependencies)?;
    dependency_count[0] = built as u16;
    Ok(())
}

// After the lines of a text were read: their refusal, or plan check and dependencies of what they wrote. A refusal leaves what the lines wrote.
pub fn store_lines(
    answer: Result<usize, LineRefusal>,
    drone_count: &[u16],
    dependency_count: &mut [u16],
    stop_counts: &[u16],
    locations: &[u16],
    times: &[u32],
    legs: &[u8],
    first_drones: &mut [u8],
    first_stops: &mut [u16],
    second_drones: &mut [u8],
    second_stops: &mut [u16],
    flags: &mut [u8],
    pairs: &[u16],
) -> Result<(), Refusal>
    requires { (n : ℕ) → answer ≡ Ok n → PlanAsked limits drone_count.now dependency_count.old stop_counts.now locations.now times.now legs.now (columns_with first_drones.old first_stops.old second_drones.old second_stops.old flags.old) pairs.now }
    ensures { (text dc fm ns cs ls ts gs form names visited drone_flags : List ℕ)
        → TextRead limits text dc fm ns cs ls ts gs drone_count.now form names stop_counts.now
        locations.now times.now legs.now answer
        → TextStored limits text (tables_of
        dc dependency_count.old fm ns cs ls ts gs visited drone_flags
        first_drones.old first_stops.old second_drones.old second_stops.old
        flags.old pairs.now) (reading_meant result) (tables_of
        drone_count.now dependency_count.new form names stop_counts.now
        locations.now times.now legs.now visited drone_flags
        first_drones.new first_stops.new second_drones.new second_stops.new
        flags.new pairs.now) }
{
    answer?;
    store_plan(
        drone_count,
        dependency_count,
        stop_counts,
        locations,
        times,
        legs,
        first_drones,
        first_stops,
        second_drones,
        second_stops,
        flags,
        pairs,
    )
}
