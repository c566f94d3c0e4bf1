// The public calls for C, Rust and Python to link. The dependencies are records.
ghost use Rattle.std.specs.Prelude.{◌≡◌, drop};
ghost use Rattle.tables.specs.Limits.{limits};
ghost use Rattle.call_log.specs.CallLog.{grant as grant_of, arrive as arrive_of, withdraw as withdraw_of, turn as turn_of, turn_all as turn_all_of};
ghost use Rattle.call_log.specs.Calls.{cost_reply, rounds_reply};
ghost use Rattle.call_log.specs.Preview.{preview, preview_all};
ghost use Rattle.reading.specs.Reading.{read_plan, without, given};
ghost use Rattle.joining.specs.Joining.{join_plans};
ghost use Rattle.records.specs.Records.{tables_of_records};
ghost use Rattle.conductor.specs.Changes.{reserved_of, ReservedAfter, ReservedJoined};
ghost use Rattle.handset.specs.Press.{press_step};
ghost use Rattle.board.specs.Told.{CallTold, OrderTold, PlanTold, ReadTold, PressTold, report_told, Says, SaysOfChange, change_answer_of, cost_answer_of, rounds_answer_of};

use crate::answers::{CallAnswer, ChangeAnswer, OrderAnswer, ReadAnswer, report_of};
use conductor::calls;
use handset::button;
use tables::entries::Dependency;
use tables::lent::Plan;

// "Grant: the drone becomes under way when every dependency into its next stop has the awaited stop visited".
#[unsafe(no_mangle)]
pub extern "C" fn conductor_lent_grant(
    drone_count: &[u16],
    dependency_count: &[u16],
    form: &[u8],
    names: &[u8],
    stop_counts: &[u16],
    locations: &[u16],
    times: &[u32],
    legs: &[u8],
    visited: &[u16],
    drone_flags: &mut [u8],
    dependencies: &[Dependency],
    pairs: &[u16],
    drone: usize,
) -> CallAnswer
    ensures { CallTold limits (tables_of_records limits
        drone_count.now dependency_count.now form.now names.now stop_counts.now
        locations.now times.now legs.now visited.now drone_flags.old
        dependencies.now pairs.now) (grant_of drone) result (tables_of_records limits
        drone_count.now dependency_count.now form.now names.now stop_counts.now
        locations.now times.now legs.now visited.now drone_flags.new
        dependencies.now pairs.now) }
{
    let plan = Plan {
        drone_count,
        dependency_count,
        form,
        names,
        stop_counts,
        locations,
        times,
        legs,
        pairs,
    };
    let reply = calls::grant(&plan, visited, drone_flags, dependencies, drone);
    CallAnswer::from(reply)
}

// "Arrive: a drone under way has visited its next stop and is no longer under way".
#[unsafe(no_mangle)]
pub extern "C" fn conductor_lent_arrive(
    drone_count: &[u16],
    dependency_count: &[u16],
    form: &[u8],
    names: &[u8],
    stop_counts: &[u16],
    locations: &[u16],
    times: &[u32],
    legs: &[u8],
    visited: &mut [u16],
    drone_flags: &mut [u8],
    dependencies: &[Dependency],
    pairs: &[u16],
    drone: usize,
) -> CallAnswer
    ensures { CallTold limits (tables_of_records limits
        drone_count.now dependency_count.now form.now names.now stop_counts.now
        locations.now times.now legs.now visited.old drone_flags.old
        dependencies.now pairs.now) (arrive_of drone) result (tables_of_records limits
        drone_count.now dependency_count.now form.now names.now stop_counts.now
        locations.now times.now legs.now visited.new drone_flags.new
        dependencies.now pairs.now) }
{
    let plan = Plan {
        drone_count,
        dependency_count,
        form,
        names,
        stop_counts,
        locations,
        times,
        legs,
        pairs,
    };
    let reply = calls::arrive(&plan, visited, drone_flags, dependencies, drone);
    CallAnswer::from(reply)
}

// "Withdrawing changes only a mark in the drone's record, and nothing else sets it".
#[unsafe(no_mangle)]
pub extern "C" fn conductor_lent_withdraw(
    drone_count: &[u16],
    dependency_count: &[u16],
    form: &[u8],
    names: &[u8],
    stop_counts: &[u16],
    locations: &[u16],
    times: &[u32],
    legs: &[u8],
    visited: &[u16],
    drone_flags: &mut [u8],
    dependencies: &[Dependency],
    pairs: &[u16],
    drone: usize,
) -> CallAnswer
    ensures { CallTold limits (tables_of_records limits
        drone_count.now dependency_count.now form.now names.now stop_counts.now
        locations.now times.now legs.now visited.now drone_flags.old
        dependencies.now pairs.now) (withdraw_of drone) result (tables_of_records limits
        drone_count.now dependency_count.now form.now names.now stop_counts.now
        locations.now times.now legs.now visited.now drone_flags.new
        dependencies.now pairs.now) }
{
    let plan = Plan {
        drone_count,
        dependency_count,
        form,
        names,
        stop_counts,
        locations,
        times,
        legs,
        pairs,
    };
    let reply = calls::withdraw(&plan, visited, drone_flags, dependencies, drone);
    CallAnswer::from(reply)
}

// "Turn: flips bit 0 of one dependency".
#[unsafe(no_mangle)]
pub extern "C" fn conductor_lent_turn(
    drone_count: &[u16],
    dependency_count: &[u16],
    form: &[u8],
    names: &[u8],
    stop_counts: &[u16],
    locations: &[u16],
    times: &[u32],
    legs: &[u8],
    visited: &[u16],
    drone_flags: &[u8],
    dependencies: &mut [Dependency],
    pairs: &[u16],
    dependency: usize,
) -> CallAnswer
    ensures call_told { CallTold limits (tables_of_records limits
        drone_count.now dependency_count.now form.now names.now stop_counts.now
        locations.now times.now legs.now visited.now drone_flags.now
        dependencies.old pairs.now) (turn_of dependency) result (tables_of_records limits
        drone_count.now dependency_count.now form.now names.now stop_counts.now
        locations.now times.now legs.now visited.now drone_flags.now
        dependencies.new pairs.now) }
    ensures past_full_kept { (drop limits.dependencies dependencies.new ≡ drop limits.dependencies dependencies.old)
        × (reserved_of dependencies.new ≡ reserved_of dependencies.old) }
{
    let plan = Plan {
        drone_count,
        dependency_count,
        form,
        names,
        stop_counts,
        locations,
        times,
        legs,
        pairs,
    };
    let reply = calls::turn(&plan, visited, drone_flags, dependencies, dependency);
    CallAnswer::from(reply)
}

// "Give us a turn of a list of dependencies, all at once".
#[unsafe(no_mangle)]
pub extern "C" fn conductor_lent_turn_all(
    drone_count: &[u16],
    dependency_count: &[u16],
    form: &[u8],
    names: &[u8],
    stop_counts: &[u16],
    locations: &[u16],
    times: &[u32],
    legs: &[u8],
    visited: &[u16],
    drone_flags: &[u8],
    dependencies: &mut [Dependency],
    pairs: &[u16],
    list: &[u16],
) -> CallAnswer
    ensures call_told { CallTold limits (tables_of_records limits
        drone_count.now dependency_count.now form.now names.now stop_counts.now
        locations.now times.now legs.now visited.now drone_flags.now
        dependencies.old pairs.now) (turn_all_of list.now) result (tables_of_records limits
        drone_count.now dependency_count.now form.now names.now stop_counts.now
        locations.now times.now legs.now visited.now drone_flags.now
        dependencies.new pairs.now) }
    ensures past_full_kept { (drop limits.dependencies dependencies.new ≡ drop limits.dependencies dependencies.old)
        × (reserved_of dependencies.new ≡ reserved_of dependencies.old) }
{
    let plan = Plan {
        drone_count,
        dependency_count,
        form,
        names,
        stop_counts,
        locations,
        times,
        legs,
        pairs,
    };
    let reply = calls::turn_all(&plan, visited, drone_flags, dependencies, list);
    CallAnswer::from(reply)
}

// What the turn would reply; at number 0 with the cost after it less the cost now. It changes nothing.
#[unsafe(no_mangle)]
pub extern "C" fn conductor_lent_preview(
    drone_count: &[u16],
    dependency_count: &[u16],
    form: &[u8],
    names: &[u8],
    stop_counts: &[u16],
    locations: &[u16],
    times: &[u32],
    legs: &[u8],
    visited: &[u16],
    drone_flags: &[u8],
    dependencies: &[Dependency],
    pairs: &[u16],
    dependency: usize,
) -> ChangeAnswer
    ensures { SaysOfChange result (change_answer_of (preview limits (tables_of_records limits
        drone_count.now dependency_count.now form.now names.now stop_counts.now
        locations.now times.now legs.now visited.now drone_flags.now
        dependencies.now pairs.now) dependency)) }
{
    let plan = Plan {
        drone_count,
        dependency_count,
        form,
        names,
        stop_counts,
        locations,
        times,
        legs,
        pairs,
    };
    let reply = calls::preview(&plan, visited, drone_flags, dependencies, dependency);
    ChangeAnswer::from(reply)
}

// What the turn of the list would reply; at number 0 with the cost after it less the cost now. It changes nothing.
#[unsafe(no_mangle)]
pub extern "C" fn conductor_lent_preview_all(
    drone_count: &[u16],
    dependency_count: &[u16],
    form: &[u8],
    names: &[u8],
    stop_counts: &[u16],
    locations: &[u16],
    times: &[u32],
    legs: &[u8],
    visited: &[u16],
    drone_flags: &[u8],
    dependencies: &[Dependency],
    pairs: &[u16],
    list: &[u16],
) -> ChangeAnswer
    ensures { SaysOfChange result (change_answer_of (preview_all limits (tables_of_records limits
        drone_count.now dependency_count.now form.now names.now stop_counts.now
        locations.now times.now legs.now visited.now drone_flags.now
        dependencies.now pairs.now) list.now)) }
{
    let plan = Plan {
        drone_count,
        dependency_count,
        form,
        names,
        stop_counts,
        locations,
        times,
        legs,
        pairs,
    };
    let reply = calls::preview_all(&plan, visited, drone_flags, dependencies, list);
    ChangeAnswer::from(reply)
}

// The remaining cost: its detail at number 0.
#[unsafe(no_mangle)]
pub extern "C" fn conductor_lent_cost(
    drone_count: &[u16],
    dependency_count: &[u16],
    form: &[u8],
    names: &[u8],
    stop_counts: &[u16],
    locations: &[u16],
    times: &[u32],
    legs: &[u8],
    visited: &[u16],
    drone_flags: &[u8],
    dependencies: &[Dependency],
    pairs: &[u16],
) -> CallAnswer
    ensures { Says result (cost_answer_of (cost_reply limits (tables_of_records limits
        drone_count.now dependency_count.now form.now names.now stop_counts.now
        locations.now times.now legs.now visited.now drone_flags.now
        dependencies.now pairs.now))) }
{
    let plan = Plan {
        drone_count,
        dependency_count,
        form,
        names,
        stop_counts,
        locations,
        times,
        legs,
        pairs,
    };
    let reply = calls::cost(&plan, visited, drone_flags, dependencies);
    CallAnswer::from(reply)
}

// The undelayed rounds until everybody has landed, with the order now in force. It changes nothing.
#[unsafe(no_mangle)]
pub extern "C" fn conductor_lent_rounds(
    drone_count: &[u16],
    dependency_count: &[u16],
    form: &[u8],
    names: &[u8],
    stop_counts: &[u16],
    locations: &[u16],
    times: &[u32],
    legs: &[u8],
    visited: &[u16],
    drone_flags: &[u8],
    dependencies: &[Dependency],
    pairs: &[u16],
) -> CallAnswer
    ensures { Says result (rounds_answer_of (rounds_reply limits (tables_of_records limits
        drone_count.now dependency_count.now form.now names.now stop_counts.now
        locations.now times.now legs.now visited.now drone_flags.now
        dependencies.now pairs.now))) }
{
    let plan = Plan {
        drone_count,
        dependency_count,
        form,
        names,
        stop_counts,
        locations,
        times,
        legs,
        pairs,
    };
    let reply = calls::rounds(&plan, visited, drone_flags, dependencies);
    CallAnswer::from(reply)
}

// A press of the one-button handset: "takes one arrival, if one was reported, then grants every drone that may go". The detail is the number of the granted drones.
#[unsafe(no_mangle)]
pub extern "C" fn conductor_lent_press(
    drone_count: &[u16],
    dependency_count: &[u16],
    form: &[u8],
    names: &[u8],
    stop_counts: &[u16],
    locations: &[u16],
    times: &[u32],
    legs: &[u8],
    visited: &mut [u16],
    drone_flags: &mut [u8],
    dependencies: &[Dependency],
    pairs: &[u16],
    reported: usize,
    drone: usize,
) -> CallAnswer
    ensures { PressTold (press_step limits (tables_of_records limits
        drone_count.now dependency_count.now form.now names.now stop_counts.now
        locations.now times.now legs.now visited.old drone_flags.old
        dependencies.now pairs.now) (report_told reported drone)) result (tables_of_records limits
        drone_count.now dependency_count.now form.now names.now stop_counts.now
        locations.now times.now legs.now visited.new drone_flags.new
        dependencies.now pairs.now) }
{
    let plan = Plan {
        drone_count,
        dependency_count,
        form,
        names,
        stop_counts,
        locations,
        times,
        legs,
        pairs,
    };
    let report = report_of(reported, drone);
    let reply = button::press(&plan, visited, drone_flags, dependencies, report);
    CallAnswer::from(reply)
}

// "After a long delay the pilot wants the cheapest directions": the list of dependencies to turn goes to the lent list. It changes no table.
#[unsafe(no_mangle)]
pub extern "C" fn conductor_lent_best_order(
    drone_count: &[u16],
    dependency_count: &[u16],
    form: &[u8],
    names: &[u8],
    stop_counts: &[u16],
    locations: &[u16],
    times: &[u32],
    legs: &[u8],
    visited: &[u16],
    drone_flags: &[u8],
    dependencies: &[Dependency],
    pairs: &[u16],
    list: &mut [u16],
    budget: usize,
) -> OrderAnswer
    ensures { OrderTold limits (tables_of_records limits
        drone_count.now dependency_count.now form.now names.now stop_counts.now
        locations.now times.now legs.now visited.now drone_flags.now
        dependencies.now pairs.now) list.old budget result list.new }
{
    let plan = Plan {
        drone_count,
        dependency_count,
        form,
        names,
        stop_counts,
        locations,
        times,
        legs,
        pairs,
    };
    let reply = calls::best_order(&plan, visited, drone_flags, dependencies, list, budget);
    OrderAnswer::from(reply)
}

// Writes the text of the plan that the tables hold: its length is the detail at number 0.
#[unsafe(no_mangle)]
pub extern "C" fn conductor_lent_write(
    buf: &mut [u8],
    drone_count: &[u16],
    dependency_count: &[u16],
    form: &[u8],
    names: &[u8],
    stop_counts: &[u16],
    locations: &[u16],
    times: &[u32],
    legs: &[u8],
    visited: &[u16],
    drone_flags: &[u8],
    dependencies: &[Dependency],
    pairs: &[u16],
) -> CallAnswer
    ensures { PlanTold limits (tables_of_records limits
        drone_count.now dependency_count.now form.now names.now stop_counts.now
        locations.now times.now legs.now visited.now drone_flags.now
        dependencies.now pairs.now) buf.old buf.new result }
{
    let plan = Plan {
        drone_count,
        dependency_count,
        form,
        names,
        stop_counts,
        locations,
        times,
        legs,
        pairs,
    };
    let reply = calls::write_plan(&plan, visited, drone_flags, dependencies, buf);
    CallAnswer::from(reply)
}

// Reads a plan text into the tables.
#[unsafe(no_mangle)]
pub extern "C" fn conductor_lent_read(
    text: &[u8],
    drone_count: &mut [u16],
    dependency_count: &mut [u16],
    form: &mut [u8],
    names: &mut [u8],
    stop_counts: &mut [u16],
    locations: &mut [u16],
    times: &mut [u32],
    legs: &mut [u8],
    visited: &mut [u16],
    drone_flags: &mut [u8],
    dependencies: &mut [Dependency],
    pairs: &mut [u16],
) -> ReadAnswer
    ensures read_told { ReadTold (read_plan limits without text.now (tables_of_records limits
        drone_count.old dependency_count.old form.old names.old stop_counts.old
        locations.old times.old legs.old visited.old drone_flags.old
        dependencies.old pairs.old)) result (tables_of_records limits
        drone_count.new dependency_count.new form.new names.new stop_counts.new
        locations.new times.new legs.new visited.new drone_flags.new
        dependencies.new pairs.new) }
    ensures past_full_kept { (drop limits.dependencies dependencies.new ≡ drop limits.dependencies dependencies.old)
        × ReservedAfter limits result.number dependencies.old dependencies.new }
{
    let reply = calls::read_plan(
        text,
        drone_count,
        dependency_count,
        form,
        names,
        stop_counts,
        locations,
        times,
        legs,
        visited,
        drone_flags,
        dependencies,
        pairs,
    );
    ReadAnswer::from(reply)
}

// The same with a site text: "two visits collide, or make a dependency, when their locations are equal or near".
#[unsafe(no_mangle)]
pub extern "C" fn conductor_lent_read_site(
    site: &[u8],
    text: &[u8],
    drone_count: &mut [u16],
    dependency_count: &mut [u16],
    form: &mut [u8],
    names: &mut [u8],
    stop_counts: &mut [u16],
    locations: &mut [u16],
    times: &mut [u32],
    legs: &mut [u8],
    visited: &mut [u16],
    drone_flags: &mut [u8],
    dependencies: &mut [Dependency],
    pairs: &mut [u16],
) -> ReadAnswer
    ensures read_told { ReadTold (read_plan limits (given site.now) text.now (tables_of_records limits
        drone_count.old dependency_count.old form.old names.old stop_counts.old
        locations.old times.old legs.old visited.old drone_flags.old
        dependencies.old pairs.old)) result (tables_of_records limits
        drone_count.new dependency_count.new form.new names.new stop_counts.new
        locations.new times.new legs.new visited.new drone_flags.new
        dependencies.new pairs.new) }
    ensures past_full_kept { (drop limits.dependencies dependencies.new ≡ drop limits.dependencies dependencies.old)
        × ReservedAfter limits result.number dependencies.old dependencies.new }
{
    let reply = calls::read_plan_at(
        site,
        text,
        drone_count,
        dependency_count,
        form,
        names,
        stop_counts,
        locations,
        times,
        legs,
        visited,
        drone_flags,
        dependencies,
        pairs,
    );
    ReadAnswer::from(reply)
}

// Joins two plans, neither of them started, into a third set of tables: "The first plan's drones come first, and times are kept." Tables below full size, plans that are not sound, have been started or have
// different pairs, and a text that is too long change nothing; after any other refusal the third tables are zeroed.
#[unsafe(no_mangle)]
pub extern "C" fn conductor_lent_join(
    drone_count_1: &[u16],
    dependency_count_1: &[u16],
    form_1: &[u8],
    names_1: &[u8],
    stop_counts_1: &[u16],
    locations_1: &[u16],
    times_1: &[u32],
    legs_1: &[u8],
    visited_1: &[u16],
    drone_flags_1: &[u8],
    dependencies_1: &[Dependency],
    pairs_1: &[u16],
    drone_count_2: &[u16],
    dependency_count_2: &[u16],
    form_2: &[u8],
    names_2: &[u8],
    stop_counts_2: &[u16],
    locations_2: &[u16],
    times_2: &[u32],
    legs_2: &[u8],
    visited_2: &[u16],
    drone_flags_2: &[u8],
    dependencies_2: &[Dependency],
    pairs_2: &[u16],
    drone_count: &mut [u16],
    dependency_count: &mut [u16],
    form: &mut [u8],
    names: &mut [u8],
    stop_counts: &mut [u16],
    locations: &mut [u16],
    times: &mut [u32],
    legs: &mut [u8],
    visited: &mut [u16],
    drone_flags: &mut [u8],
    dependencies: &mut [Dependency],
    pairs: &mut [u16],
) -> ReadAnswer
    ensures read_told { ReadTold (join_plans limits (tables_of_records limits
        drone_count_1.now dependency_count_1.now form_1.now names_1.now stop_counts_1.now
        locations_1.now times_1.now legs_1.now visited_1.now drone_flags_1.now
        dependencies_1.now pairs_1.now)
        (tables_of_records limits
        drone_count_2.now dependency_count_2.now form_2.now names_2.now stop_counts_2.now
        locations_2.now times_2.now legs_2.now visited_2.now drone_flags_2.now
        dependencies_2.now pairs_2.now)
        (tables_of_records limits
        drone_count.old dependency_count.old form.old names.old stop_counts.old
        locations.old times.old legs.old visited.old drone_flags.old
        dependencies.old pairs.old)) result (tables_of_records limits
        drone_count.new dependency_count.new form.new names.new stop_counts.new
        locations.new times.new legs.new visited.new drone_flags.new
        dependencies.new pairs.new) }
    ensures past_full_kept { (drop limits.dependencies dependencies.new ≡ drop limits.dependencies dependencies.old)
        × ReservedJoined limits result.number dependencies.old dependencies.new }
{
    let plan_1 = Plan {
        drone_count: drone_count_1,
        dependency_count: dependency_count_1,
        form: form_1,
        names: names_1,
        stop_counts: stop_counts_1,
        locations: locations_1,
        times: times_1,
        legs: legs_1,
        pairs: pairs_1,
    };
    let plan_2 = Plan {
        drone_count: drone_count_2,
        dependency_count: dependency_count_2,
        form: form_2,
        names: names_2,
        stop_counts: stop_counts_2,
        locations: locations_2,
        times: times_2,
        legs: legs_2,
        pairs: pairs_2,
    };
    let reply = calls::join(
        &plan_1,
        visited_1,
        drone_flags_1,
        dependencies_1,
        &plan_2,
        visited_2,
        drone_flags_2,
        dependencies_2,
        drone_count,
        dependency_count,
        form,
        names,
        stop_counts,
        locations,
        times,
        legs,
        visited,
        drone_flags,
        dependencies,
        pairs,
    );
    ReadAnswer::from(reply)
}
