// The public calls over the lent slice of dependency records: the used records are spread into columns, the call is made over these, and an accepted turn, a reading or a joining
// changes the records where they lie.
// Each call zeroes its own columns: as one value out of a function of their own they would be copied, and the stack is short.
ghost use Rattle.std.specs.Prelude.{◌≡◌, ◌≤◌, ◌<◌, MatchResult, length, drop};
ghost use Rattle.tables.specs.Limits.{limits};
ghost use Rattle.call_log.specs.CallLog.{grant as grant_of, arrive as arrive_of, withdraw as withdraw_of, turn as turn_of, turn_all as turn_all_of, is_accepted};
ghost use Rattle.call_log.specs.Calls.{step, Answered, cost_reply, rounds_reply};
ghost use Rattle.call_log.specs.Preview.{preview as preview_of, preview_all as preview_all_of};
ghost use Rattle.reading.specs.Replies.{reading_number, reading_meant};
ghost use Rattle.reading.specs.Reading.{AnsweredAs, without, given, site_of, read_plan};
ghost use Rattle.flat.specs.declared.replies.TablesFault.TheVariants.{TooSmall};
ghost use Rattle.flat.specs.Replies.{grant_meant, arrive_meant, withdraw_meant};
ghost use Rattle.flat.specs.TurnReplies.{turn_meant, turn_all_meant, preview_meant, preview_all_meant, cost_meant, rounds_meant};
ghost use Rattle.flat.specs.Writing.{write_meant, PlanWritten};
ghost use Rattle.best_order.specs.Replies.{BestAnswered};
ghost use Rattle.records.specs.Records.{flip_if, flip_all_if, tables_of_records, records_in};
ghost use Rattle.joining.specs.Joining.{join_plans};
ghost use Rattle.joining.specs.Standing.{standing_of};
ghost use Rattle.joining.specs.Replies.{join_meant};
ghost use Rattle.conductor.specs.Changes.{ReservedAfter, ReservedJoined};

use crate::changes::{is_joined, is_written};
use best_order::replies::{BestOrder, BestRefusal};
use flat::calls;
use flat::replies::{
    ArriveRefusal, GrantRefusal, TablesFault, TurnAllRefusal, TurnRefusal, WithdrawRefusal,
    WriteRefusal,
};
use joining::replies::JoinRefusal;
use joining::tests::StandingFault;
use joining::{entry as joiner, tests};
use reading::entry;
use reading::replies::Refusal;
use records::columns::sides_in;
use records::lent::{flip_all, flip_at, spread, store_if};
use records::record::below_full;
use tables::entries::Dependency;
use tables::lent::Plan;

// "41 a lent table is below full size", of the dependency records.
fn enough(dependencies: &[Dependency]) -> Result<(), TablesFault>
    ensures { MatchResult result
        (λ _. limits.dependencies ≤ length dependencies.now)
        (λ fault. (fault ≡ TooSmall) × (length dependencies.now < limits.dependencies)) }
{
    if below_full(dependencies.len()) {
        return Err(TablesFault::TooSmall);
    }
    Ok(())
}

// "Grant: the drone becomes under way when every dependency into its next stop has the awaited stop visited".
pub fn grant(
    plan: &Plan<'_>,
    visited: &[u16],
    drone_flags: &mut [u8],
    dependencies: &[Dependency],
    drone: usize,
) -> Result<(), GrantRefusal>
    ensures { Answered (step limits)
        (records_in limits plan.now visited.now drone_flags.old dependencies.now)
        (grant_of drone) (grant_meant result)
        (records_in limits plan.now visited.now drone_flags.new dependencies.now) }
{
    enough(dependencies)?;
    let mut stops = [[0u16; Dependency::FULL]; 2];
    let mut drones = [[0u8; Dependency::FULL]; 2];
    let mut flags = [0u8; Dependency::FULL];
    spread(
        plan.dependency_count,
        dependencies,
        &mut stops,
        &mut drones,
        &mut flags,
    );
    calls::grant(
        plan,
        visited,
        drone_flags,
        &sides_in(&stops, &drones),
        &flags,
        drone,
    )
}

// "Arrive: a drone under way has visited its next stop and is no longer under way".
pub fn arrive(
    plan: &Plan<'_>,
    visited: &mut [u16],
    drone_flags: &mut [u8],
    dependencies: &[Dependency],
    drone: usize,
) -> Result<(), ArriveRefusal>
    ensures { Answered (step limits)
        (records_in limits plan.now visited.old drone_flags.old dependencies.now)
        (arrive_of drone) (arrive_meant result)
        (records_in limits plan.now visited.new drone_flags.new dependencies.now) }
{
    enough(dependencies)?;
    let mut stops = [[0u16; Dependency::FULL]; 2];
    let mut drones = [[0u8; Dependency::FULL]; 2];
    let mut flags = [0u8; Dependency::FULL];
    spread(
        plan.dependency_count,
        dependencies,
        &mut stops,
        &mut drones,
        &mut flags,
    );
    calls::arrive(
        plan,
        visited,
        drone_flags,
        &sides_in(&stops, &drones),
        &flags,
        drone,
    )
}

// "Withdrawing changes only a mark in the drone's record, and nothing else sets it".
pub fn withdraw(
    plan: &Plan<'_>,
    visited: &[u16],
    drone_flags: &mut [u8],
    dependencies: &[Dependency],
    drone: usize,
) -> Result<(), WithdrawRefusal>
    ensures { Answered (step limits)
        (records_in limits plan.now visited.now drone_flags.old dependencies.now)
        (withdraw_of drone) (withdraw_meant result)
        (records_in limits plan.now visited.now drone_flags.new dependencies.now) }
{
    enough(dependencies)?;
    let mut stops = [[0u16; Dependency::FULL]; 2];
    let mut drones = [[0u8; Dependency::FULL]; 2];
    let mut flags = [0u8; Dependency::FULL];
    spread(
        plan.dependency_count,
        dependencies,
        &mut stops,
        &mut drones,
        &mut flags,
    );
    calls::withdraw(
        plan,
        visited,
        drone_flags,
        &sides_in(&stops, &drones),
        &flags,
        drone,
    )
}

// "Turn: flips bit 0 of one dependency".
pub fn turn(
    plan: &Plan<'_>,
    visited: &[u16],
    drone_flags: &[u8],
    dependencies: &mut [Dependency],
    dependency: usize,
) -> Result<(), TurnRefusal>
    ensures answered { Answered (step limits)
        (records_in limits plan.now visited.now drone_flags.now dependencies.old)
        (turn_of dependency) (turn_meant result)
        (records_in limits plan.now visited.now drone_flags.now dependencies.new) }
    ensures dependencies_after { dependencies.new ≡ flip_if (is_accepted (turn_meant result)) dependency dependencies.old }
    ensures past_full_kept { drop limits.dependencies dependencies.new ≡ drop limits.dependencies dependencies.old }
{
    enough(dependencies)?;
    let mut stops = [[0u16; Dependency::FULL]; 2];
    let mut drones = [[0u8; Dependency::FULL]; 2];
    let mut flags = [0u8; Dependency::FULL];
    spread(
        plan.dependency_count,
        dependencies,
        &mut stops,
        &mut drones,
        &mut flags,
    );
    calls::turn(
        plan,
        visited,
        drone_flags,
        &sides_in(&stops, &drones),
        &mut flags,
        dependency,
    )?;
    flip_at(dependencies, dependency);
    Ok(())
}

// "Give us a turn of a list of dependencies, all at once".
pub fn turn_all(
    plan: &Plan<'_>,
    visited: &[u16],
    drone_flags: &[u8],
    dependencies: &mut [Dependency],
    list: &[u16],
) -> Result<(), TurnAllRefusal>
    ensures answered { Answered (step limits)
        (records_in limits plan.now visited.now drone_flags.now dependencies.old)
        (turn_all_of list.now) (turn_all_meant result)
        (records_in limits plan.now visited.now drone_flags.now dependencies.new) }
    ensures dependencies_after { dependencies.new ≡ flip_all_if (is_accepted (turn_all_meant result)) list.now dependencies.old }
    ensures past_full_kept { drop limits.dependencies dependencies.new ≡ drop limits.dependencies dependencies.old }
{
    enough(dependencies)?;
    let mut stops = [[0u16; Dependency::FULL]; 2];
    let mut drones = [[0u8; Dependency::FULL]; 2];
    let mut flags = [0u8; Dependency::FULL];
    spread(
        plan.dependency_count,
        dependencies,
        &mut stops,
        &mut drones,
        &mut flags,
    );
    calls::turn_all(
        plan,
        visited,
        drone_flags,
        &sides_in(&stops, &drones),
        &mut flags,
        list,
    )?;
    flip_all(dependencies, list);
    Ok(())
}

// "The preview replies with what the turn would reply. When it would be done, it also gives the cost after it less the cost now". It changes nothing.
pub fn preview(
    plan: &Plan<'_>,
    visited: &[u16],
    drone_flags: &[u8],
    dependencies: &[Dependency],
    dependency: usize,
) -> Result<i32, TurnRefusal>
    ensures { preview_meant result ≡ preview_of limits (records_in limits plan.now visited.now drone_flags.now dependencies.now) dependency }
{
    enough(dependencies)?;
    let mut stops = [[0u16; Dependency::FULL]; 2];
    let mut drones = [[0u8; Dependency::FULL]; 2];
    let mut flags = [0u8; Dependency::FULL];
    spread(
        plan.dependency_count,
        dependencies,
        &mut stops,
        &mut drones,
        &mut flags,
    );
    calls::preview(
        plan,
        visited,
        drone_flags,
        &sides_in(&stops, &drones),
        &flags,
        dependency,
    )
}

// "The preview takes a list too".
pub fn preview_all(
    plan: &Plan<'_>,
    visited: &[u16],
    drone_flags: &[u8],
    dependencies: &[Dependency],
    list: &[u16],
) -> Result<i32, TurnAllRefusal>
    ensures { preview_all_meant result ≡ preview_all_of limits (records_in limits plan.now visited.now drone_flags.now dependencies.now) list.now }
{
    enough(dependencies)?;
    let mut stops = [[0u16; Dependency::FULL]; 2];
    let mut drones = [[0u8; Dependency::FULL]; 2];
    let mut flags = [0u8; Dependency::FULL];
    spread(
        plan.dependency_count,
        dependencies,
        &mut stops,
        &mut drones,
        &mut flags,
    );
    calls::preview_all(
        plan,
        visited,
        drone_flags,
        &sides_in(&stops, &drones),
        &flags,
        list,
    )
}

// "Remaining cost is their sum": of the drones' remaining rounds, with the order now in force. It changes nothing.
pub fn cost(
    plan: &Plan<'_>,
    visited: &[u16],
    drone_flags: &[u8],
    dependencies: &[Dependency],
) -> Result<usize, TablesFault>
    ensures { cost_meant result ≡ cost_reply limits (records_in limits plan.now visited.now drone_flags.now dependencies.now) }
{
    enough(dependencies)?;
    let mut stops = [[0u16; Dependency::FULL]; 2];
    let mut drones = [[0u8; Dependency::FULL]; 2];
    let mut flags = [0u8; Dependency::FULL];
    spread(
        plan.dependency_count,
        dependencies,
        &mut stops,
        &mut drones,
        &mut flags,
    );
    calls::cost(
        plan,
        visited,
        drone_flags,
        &sides_in(&stops, &drones),
        &flags,
    )
}

// The undelayed rounds until everybody has landed, with the order now in force. It changes nothing.
pub fn rounds(
    plan: &Plan<'_>,
    visited: &[u16],
    drone_flags: &[u8],
    dependencies: &[Dependency],
) -> Result<usize, TablesFault>
    ensures { rounds_meant result ≡ rounds_reply limits (records_in limits plan.now visited.now drone_flags.now dependencies.now) }
{
    enough(dependencies)?;
    let mut stops = [[0u16; Dependency::FULL]; 2];
    let mut drones = [[0u8; Dependency::FULL]; 2];
    let mut flags = [0u8; Dependency::FULL];
    spread(
        plan.dependency_count,
        dependencies,
        &mut stops,
        &mut drones,
        &mut flags,
    );
    calls::rounds(
        plan,
        visited,
        drone_flags,
        &sides_in(&stops, &drones),
        &flags,
    )
}

// "The reply is the least cost of all choices without a cycle, the earliest such choice, and the count": the choice goes to the lent list.
pub fn best_order(
    plan: &Plan<'_>,
    visited: &[u16],
    drone_flags: &[u8],
    dependencies: &[Dependency],
    list: &mut [u16],
    budget: usize,
) -> Result<BestOrder, BestRefusal>
    ensures { BestAnswered limits
        (records_in limits plan.now visited.now drone_flags.now dependencies.now)
        list.old budget result list.new }
{
    enough(dependencies)?;
    let mut stops = [[0u16; Dependency::FULL]; 2];
    let mut drones = [[0u8; Dependency::FULL]; 2];
    let mut flags = [0u8; Dependency::FULL];
    spread(
        plan.dependency_count,
        dependencies,
        &mut stops,
        &mut drones,
        &mut flags,
    );
    best_order::calls::best_order(
        plan,
        visited,
        drone_flags,
        &sides_in(&stops, &drones),
        &flags,
        list,
        budget,
    )
}

// Writes the text of the plan that the tables hold: "42 buffer shorter than the text".
pub fn write_plan(
    plan: &Plan<'_>,
    visited: &[u16],
    drone_flags: &[u8],
    dependencies: &[Dependency],
    buf: &mut [u8],
) -> Result<usize, WriteRefusal>
    ensures { PlanWritten limits
        (records_in limits plan.now visited.now drone_flags.now dependencies.now)
        buf.old buf.new (write_meant result) }
{
    enough(dependencies)?;
    let mut stops = [[0u16; Dependency::FULL]; 2];
    let mut drones = [[0u8; Dependency::FULL]; 2];
    let mut flags = [0u8; Dependency::FULL];
    spread(
        plan.dependency_count,
        dependencies,
        &mut stops,
        &mut drones,
        &mut flags,
    );
    calls::write_plan(
        plan,
        visited,
        drone_flags,
        &sides_in(&stops, &drones),
        &flags,
        buf,
    )
}

// A reading of a plan text into the tables, with a site text or without. The tables that it fills are parameters one by one, as the reading takes them (reading::entry says why).
fn read_given(
    site: Option<&[u8]>,
    text: &[u8],
    drone_count: &mut [u16],
    dependency_count: &mut [u16],
    form: &mut [u8],
    names: &mut [u8],
    stop_counts: &mut [u16],
    locations: &mut [u16],
    times: &mut [u32],
    legs: &mut [u8],
    visited: &mut [u16],
    drone_flags: &mut [u8],
    dependencies: &mut [Dependency],
    pairs: &mut [u16],
) -> Result<(), Refusal>
    ensures answered_as { AnsweredAs (read_plan limits (site_of site.entry) text.now (tables_of_records limits
        drone_count.old dependency_count.old form.old names.old stop_counts.old
        locations.old times.old legs.old visited.old drone_flags.old
        dependencies.old pairs.old))
        (reading_meant result) (tables_of_records limits
        drone_count.new dependency_count.new form.new names.new stop_counts.new
        locations.new times.new legs.new visited.new drone_flags.new
        dependencies.new pairs.new) }
    ensures past_full_kept { (drop limits.dependencies dependencies.new ≡ drop limits.dependencies dependencies.old)
        × ReservedAfter limits (reading_number (reading_meant result)) dependencies.old dependencies.new }
{
    if below_full(dependencies.len()) {
        return Err(Refusal::TablesTooSmall);
    }
    let mut first_drones = [0u8; Dependency::FULL];
    let mut first_stops = [0u16; Dependency::FULL];
    let mut second_drones = [0u8; Dependency::FULL];
    let mut second_stops = [0u16; Dependency::FULL];
    let mut flags = [0u8; Dependency::FULL];
    let reading = entry::read_given(
        site,
        text,
        drone_count,
        dependency_count,
        form,
        names,
        stop_counts,
        locations,
        times,
        legs,
        visited,
        drone_flags,
        &mut first_drones,
        &mut first_stops,
        &mut second_drones,
        &mut second_stops,
        &mut flags,
        pairs,
    );
    store_if(
        dependencies,
        is_written(reading),
        &first_drones,
        &first_stops,
        &second_drones,
        &second_stops,
        &flags,
    );
    reading
}

// Reads a plan text into the tables. Tables below full size and a text that is too long change nothing, and after any other refusal the tables are zeroed.
pub fn read_plan(
    text: &[u8],
    drone_count: &mut [u16],
    dependency_count: &mut [u16],
    form: &mut [u8],
    names: &mut [u8],
    stop_counts: &mut [u16],
    locations: &mut [u16],
    times: &mut [u32],
    legs: &mut [u8],
    visited: &mut [u16],
    drone_flags: &mut [u8],
    dependencies: &mut [Dependency],
    pairs: &mut [u16],
) -> Result<(), Refusal>
    ensures answered_as { AnsweredAs (read_plan limits without text.now (tables_of_records limits
        drone_count.old dependency_count.old form.old names.old stop_counts.old
        locations.old times.old legs.old visited.old drone_flags.old
        dependencies.old pairs.old))
        (reading_meant result) (tables_of_records limits
        drone_count.new dependency_count.new form.new names.new stop_counts.new
        locations.new times.new legs.new visited.new drone_flags.new
        dependencies.new pairs.new) }
    ensures past_full_kept { (drop limits.dependencies dependencies.new ≡ drop limits.dependencies dependencies.old)
        × ReservedAfter limits (reading_number (reading_meant result)) dependencies.old dependencies.new }
{
    read_given(
        None,
        text,
        drone_count,
        dependency_count,
        form,
        names,
        stop_counts,
        locations,
        times,
        legs,
        visited,
        drone_flags,
        dependencies,
        pairs,
    )
}

// The same with a site text: "two visits collide, or make a dependency, when their locations are equal or near".
pub fn read_plan_at(
    site: &[u8],
    text: &[u8],
    drone_count: &mut [u16],
    dependency_count: &mut [u16],
    form: &mut [u8],
    names: &mut [u8],
    stop_counts: &mut [u16],
    locations: &mut [u16],
    times: &mut [u32],
    legs: &mut [u8],
    visited: &mut [u16],
    drone_flags: &mut [u8],
    dependencies: &mut [Dependency],
    pairs: &mut [u16],
) -> Result<(), Refusal>
    ensures answered_as { AnsweredAs (read_plan limits (given site.now) text.now (tables_of_records limits
        drone_count.old dependency_count.old form.old names.old stop_counts.old
        locations.old times.old legs.old visited.old drone_flags.old
        dependencies.old pairs.old))
        (reading_meant result) (tables_of_records limits
        drone_count.new dependency_count.new form.new names.new stop_counts.new
        locations.new times.new legs.new visited.new drone_flags.new
        dependencies.new pairs.new) }
    ensures past_full_kept { (drop limits.dependencies dependencies.new ≡ drop limits.dependencies dependencies.old)
        × ReservedAfter limits (reading_number (reading_meant result)) dependencies.old dependencies.new }
{
    read_given(
        Some(site),
        text,
        drone_count,
        dependency_count,
        form,
        names,
        stop_counts,
        locations,
        times,
        legs,
        visited,
        drone_flags,
        dependencies,
        pairs,
    )
}

// How far a plan comes through the tests before a joining: full sizes, sound, not started. It changes nothing.
pub fn standing(
    plan: &Plan<'_>,
    visited: &[u16],
    drone_flags: &[u8],
    dependencies: &[Dependency],
) -> Result<(), StandingFault>
    ensures { result ≡ standing_of limits (records_in limits plan.now visited.now drone_flags.now dependencies.now) }
{
    if below_full(dependencies.len()) {
        return Err(StandingFault::Small);
    }
    let mut stops = [[0u16; Dependency::FULL]; 2];
    let mut drones = [[0u8; Dependency::FULL]; 2];
    let mut flags = [0u8; Dependency::FULL];
    spread(
        plan.dependency_count,
        dependencies,
        &mut stops,
        &mut drones,
        &mut flags,
    );
    tests::tested(
        plan,
        visited,
        drone_flags,
        &sides_in(&stops, &drones),
        &flags,
    )
}

// Joins two plans, neither of them started, into a third set of tables: "The first plan's drones come first, and times are kept." Tables below full size, plans that are not sound, have been started or have
// different pairs, and a text that is too long change nothing; after any other refusal the third tables are zeroed.
pub fn join(
    first: &Plan<'_>,
    visited_1: &[u16],
    drone_flags_1: &[u8],
    dependencies_1: &[Dependency],
    second: &Plan<'_>,
    visited_2: &[u16],
    drone_flags_2: &[u8],
    dependencies_2: &[Dependency],
    drone_count: &mut [u16],
    dependency_count: &mut [u16],
    form: &mut [u8],
    names: &mut [u8],
    stop_counts: &mut [u16],
    locations: &mut [u16],
    times: &mut [u32],
    legs: &mut [u8],
    visited: &mut [u16],
    drone_flags: &mut [u8],
    dependencies: &mut [Dependency],
    pairs: &mut [u16],
) -> Result<(), JoinRefusal>
    ensures answered_as { AnsweredAs (join_plans limits
        (records_in limits first.now visited_1.now drone_flags_1.now dependencies_1.now)
        (records_in limits second.now visited_2.now drone_flags_2.now dependencies_2.now)
        (tables_of_records limits
        drone_count.old dependency_count.old form.old names.old stop_counts.old
        locations.old times.old legs.old visited.old drone_flags.old
        dependencies.old pairs.old))
        (join_meant result) (tables_of_records limits
        drone_count.new dependency_count.new form.new names.new stop_counts.new
        locations.new times.new legs.new visited.new drone_flags.new
        dependencies.new pairs.new) }
    ensures past_full_kept { (drop limits.dependencies dependencies.new ≡ drop limits.dependencies dependencies.old)
        × ReservedJoined limits (reading_number (join_meant result)) dependencies.old dependencies.new }
{
    if below_full(dependencies.len()) {
        return Err(JoinRefusal::Refused(Refusal::TablesTooSmall));
    }
    let standing_1 = standing(first, visited_1, drone_flags_1, dependencies_1);
    let standing_2 = standing(second, visited_2, drone_flags_2, dependencies_2);
    let mut first_drones = [0u8; Dependency::FULL];
    let mut first_stops = [0u16; Dependency::FULL];
    let mut second_drones = [0u8; Dependency::FULL];
    let mut second_stops = [0u16; Dependency::FULL];
    let mut flags = [0u8; Dependency::FULL];
    let joined = joiner::join(
        tests::first_failed(standing_1, standing_2),
        first,
        second,
        drone_count,
        dependency_count,
        form,
        names,
        stop_counts,
        locations,
        times,
        legs,
        visited,
        drone_flags,
        &mut first_drones,
        &mut first_stops,
        &mut second_drones,
        &mut second_stops,
        &mut flags,
        pairs,
    );
    store_if(
        dependencies,
        is_joined(joined),
        &first_drones,
        &first_stops,
        &second_drones,
        &second_stops,
        &flags,
    );
    joined
}
