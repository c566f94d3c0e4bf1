// The entry: two plans joined into a third set of tables. The tables that are written are parameters one by one, as reading takes them (reading/src/entry.rt says what was
// tried).
ghost use Rattle.std.specs.Prelude.{true, ◌≡◌, List, ◌++◌, ℕ, ◌*◌, length, take, Ok};
ghost use Rattle.tables.specs.Limits.{limits};
ghost use Rattle.tables.specs.Tables.{Tables, tables_of, full_size};
ghost use Rattle.near.specs.Near.{pair_count, SoundPairs};
ghost use Rattle.text.specs.Written.{routes_text};
ghost use Rattle.plan.specs.Columns.{columns_with};
ghost use Rattle.reading.specs.Asked.{LinesAsked, ZeroedButPairs};
ghost use Rattle.reading.specs.Reading.{AnsweredAs, given, read_lines, read_plan};
ghost use Rattle.reading.specs.Replies.{reading_meant};
ghost use Rattle.site.specs.Written.{site_text};
ghost use Rattle.joining.specs.Joining.{join_plans};
ghost use Rattle.joining.specs.Standing.{standing_of, earlier, HoldsPlan, ReadyPlan, CopyablePlan, routes_held};
ghost use Rattle.joining.specs.Replies.{join_meant};

use crate::replies::JoinRefusal;
use crate::tests;
use crate::tests::StandingFault;
use copying::{copies, pair};
use reading::entry;
use reading::replies::Refusal;
use tables::entries::MAX_TEXT;
use tables::lent::{Plan, Sides};
use tables::{sizes, zeroing};

// Both plans into tables that are zeroed but for the pairs, as reading the text of both would leave them, if it is not too long. The drones' progress is not touched, whatever it is.
fn join_lines(
    joined: u8,
    first: &Plan<'_>,
    second: &Plan<'_>,
    drone_count: &mut [u16],
    dependency_count: &mut [u16],
    form: &mut [u8],
    names: &mut [u8],
    stop_counts: &mut [u16],
    locations: &mut [u16],
    times: &mut [u32],
    legs: &mut [u8],
    first_drones: &mut [u8],
    first_stops: &mut [u16],
    second_drones: &mut [u8],
    second_stops: &mut [u16],
    flags: &mut [u8],
    pairs: &mut [u16],
) -> Result<(), Refusal>
    requires copyable { CopyablePlan limits joined first.now × CopyablePlan limits joined second.now }
    requires lines_asked { LinesAsked limits drone_count.old dependency_count.old form.old names.old stop_counts.old locations.old times.old legs.old (columns_with first_drones.old first_stops.old second_drones.old second_stops.old flags.old) pairs.old }
    ensures { (visited drone_flags : List ℕ)
        → ZeroedButPairs limits (tables_of
        drone_count.old dependency_count.old form.old names.old stop_counts.old
        locations.old times.old legs.old visited drone_flags
        first_drones.old first_stops.old second_drones.old second_stops.old
        flags.old pairs.old)
        → AnsweredAs (read_lines limits (routes_text joined (routes_held limits first.now ++ routes_held limits second.now)) (tables_of
        drone_count.old dependency_count.old form.old names.old stop_counts.old
        locations.old times.old legs.old visited drone_flags
        first_drones.old first_stops.old second_drones.old second_stops.old
        flags.old pairs.old)) (reading_meant result) (tables_of
        drone_count.new dependency_count.new form.new names.new stop_counts.new
        locations.new times.new legs.new visited drone_flags
        first_drones.new first_stops.new second_drones.new second_stops.new
        flags.new pairs.new) }
{
    let answer = pair::copy_lines(
        joined,
        usize::from(first.drone_count[0]),
        first,
        usize::from(second.drone_count[0]),
        second,
        drone_count,
        form,
        names,
        stop_counts,
        locations,
        times,
        legs,
    );
    entry::after_lines(
        answer,
        drone_count,
        dependency_count,
        form,
        names,
        stop_counts,
        locations,
        times,
        legs,
        first_drones,
        first_stops,
        second_drones,
        second_stops,
        flags,
        pairs,
    )
}

// How long the text of both plans is.
fn text_length(joined: u8, first: &Plan<'_>, second: &Plan<'_>) -> usize
    requires { CopyablePlan limits joined first.now × CopyablePlan limits joined second.now }
    ensures { result ≡ length (routes_text joined (routes_held limits first.now ++ routes_held limits second.now)) }
{
    pair::text_length(
        joined,
        usize::from(first.drone_count[0]),
        first,
        usize::from(second.drone_count[0]),
        second,
    )
}

// Both plans with the first one's pairs, as reading the text of both would leave them.
fn join_text(
    joined: u8,
    first: &Plan<'_>,
    second: &Plan<'_>,
    drone_count: &mut [u16],
    dependency_count: &mut [u16],
    form: &mut [u8],
    names: &mut [u8],
    stop_counts: &mut [u16],
    locations: &mut [u16],
    times: &mut [u32],
    legs: &mut [u8],
    visited: &mut [u16],
    drone_flags: &mut [u8],
    first_drones: &mut [u8],
    first_stops: &mut [u16],
    second_drones: &mut [u8],
    second_stops: &mut [u16],
    flags: &mut [u8],
    pairs: &mut [u16],
) -> Result<(), Refusal>
    requires copyable { CopyablePlan limits joined first.now × CopyablePlan limits joined second.now × SoundPairs limits first.now.pairs.now }
    requires at_full_size { full_size limits (tables_of
        drone_count.old dependency_count.old form.old names.old stop_counts.old
        locations.old times.old legs.old visited.old drone_flags.old
        first_drones.old first_stops.old second_drones.old second_stops.old
        flags.old pairs.old) ≡ true }
    ensures { AnsweredAs (read_plan limits (given (site_text (pair_count first.now.pairs.now) (take (2 * pair_count first.now.pairs.now) first.now.pairs.now))) (routes_text joined (routes_held limits first.now ++ routes_held limits second.now)) (tables_of
        drone_count.old dependency_count.old form.old names.old stop_counts.old
        locations.old times.old legs.old visited.old drone_flags.old
        first_drones.old first_stops.old second_drones.old second_stops.old
        flags.old pairs.old)) (reading_meant result) (tables_of
        drone_count.new dependency_count.new form.new names.new stop_counts.new
        locations.new times.new legs.new visited.new drone_flags.new
        first_drones.new first_stops.new second_drones.new second_stops.new
        flags.new pairs.new) }
{
    if MAX_TEXT < text_length(joined, first, second) {
        return Err(Refusal::TooLong(MAX_TEXT));
    }
    zeroing::zero_all(
        drone_count,
        dependency_count,
        form,
        names,
        stop_counts,
        locations,
        times,
        legs,
        visited,
        drone_flags,
        first_drones,
        first_stops,
        second_drones,
        second_stops,
        flags,
        pairs,
    );
    let numbers = 2 * near::pair_count(first.pairs);
    copies::copy(&first.pairs[..numbers], &mut pairs[..numbers]);
    join_lines(
        joined,
        first,
        second,
        drone_count,
        dependency_count,
        form,
        names,
        stop_counts,
        locations,
        times,
        legs,
        first_drones,
        first_stops,
        second_drones,
        second_stops,
        flags,
        pairs,
    )
}

// Plans that passed their tests: 16 where their pairs differ, and else as reading the text of both leaves the third tables.
fn join_ready(
    first: &Plan<'_>,
    second: &Plan<'_>,
    drone_count: &mut [u16],
    dependency_count: &mut [u16],
    form: &mut [u8],
    names: &mut [u8],
    stop_counts: &mut [u16],
    locations: &mut [u16],
    times: &mut [u32],
    legs: &mut [u8],
    visited: &mut [u16],
    drone_flags: &mut [u8],
    first_drones: &mut [u8],
    first_stops: &mut [u16],
    second_drones: &mut [u8],
    second_stops: &mut [u16],
    flags: &mut [u8],
    pairs: &mut [u16],
) -> Result<(), JoinRefusal>
    requires plan_ready { ReadyPlan limits first.now × ReadyPlan limits second.now }
    requires at_full_size { full_size limits (tables_of
        drone_count.old dependency_count.old form.old names.old stop_counts.old
        locations.old times.old legs.old visited.old drone_flags.old
        first_drones.old first_stops.old second_drones.old second_stops.old
        flags.old pairs.old) ≡ true }
    ensures { (a b : Tables)
        → HoldsPlan a first.now
        → HoldsPlan b second.now
        → Ok tt ≡ earlier (standing_of limits a) (standing_of limits b)
        → AnsweredAs (join_plans limits a b (tables_of
        drone_count.old dependency_count.old form.old names.old stop_counts.old
        locations.old times.old legs.old visited.old drone_flags.old
        first_drones.old first_stops.old second_drones.old second_stops.old
        flags.old pairs.old)) (join_meant result) (tables_of
        drone_count.new dependency_count.new form.new names.new stop_counts.new
        locations.new times.new legs.new visited.new drone_flags.new
        first_drones.new first_stops.new second_drones.new second_stops.new
        flags.new pairs.new) }
{
    if !tests::same_pairs(first.pairs, second.pairs) {
        return Err(JoinRefusal::Started);
    }
    join_text(
        tests::later_form(first.form, second.form),
        first,
        second,
        drone_count,
        dependency_count,
        form,
        names,
        stop_counts,
        locations,
        times,
        legs,
        visited,
        drone_flags,
        first_drones,
        first_stops,
        second_drones,
        second_stops,
        flags,
        pairs,
    )?;
    Ok(())
}

// Joins two plans, of which the tests were made before, the first one's drones first, into the third tables. Tables below full size, plans that are not sound, have been started or have different pairs,
// and a text that is too long change nothing; after any other refusal the third tables are zeroed.
pub fn join(
    standing: Result<(), StandingFault>,
    first: &Plan<'_>,
    second: &Plan<'_>,
    drone_count: &mut [u16],
    dependency_count: &mut [u16],
    form: &mut [u8],
    names: &mut [u8],
    stop_counts: &mut [u16],
    locations: &mut [u16],
    times: &mut [u32],
    legs: &mut [u8],
    visited: &mut [u16],
    drone_flags: &mut [u8],
    first_drones: &mut [u8],
    first_stops: &mut [u16],
    second_drones: &mut [u8],
    second_stops: &mut [u16],
    flags: &mut [u8],
    pairs: &mut [u16],
) -> Result<(), JoinRefusal>
    requires { standing ≡ Ok tt → ReadyPlan limits first.now × ReadyPlan limits second.now }
    ensures { (a b : Tables)
        → HoldsPlan a first.now
        → HoldsPlan b second.now
        → standing ≡ earlier (standing_of limits a) (standing_of limits b)
        → AnsweredAs (join_plans limits a b (tables_of
        drone_count.old dependency_count.old form.old names.old stop_counts.old
        locations.old times.old legs.old visited.old drone_flags.old
        first_drones.old first_stops.old second_drones.old second_stops.old
        flags.old pairs.old)) (join_meant result) (tables_of
        drone_count.new dependency_count.new form.new names.new stop_counts.new
        locations.new times.new legs.new visited.new drone_flags.new
        first_drones.new first_stops.new second_drones.new second_stops.new
        flags.new pairs.new) }
{
    let plan = Plan {
        drone_count,
        dependency_count,
        form,
        names,
        stop_counts,
        locations,
        times,
        legs,
        pairs,
    };
    let sides = Sides {
        first_drones,
        first_stops,
        second_drones,
        second_stops,
    };
    if !sizes::full_size(&plan, visited, drone_flags, &sides, flags) {
        return Err(JoinRefusal::Refused(Refusal::TablesTooSmall));
    }
    standing?;
    join_ready(
        first,
        second,
        drone_count,
        dependency_count,
        form,
        names,
        stop_counts,
        locations,
        times,
        legs,
        visited,
        drone_flags,
        first_drones,
        first_stops,
        second_drones,
        second_stops,
        flags,
        pairs,
    )
}
