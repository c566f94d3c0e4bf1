// Presses one after another, on lent tables and on tables of their own. The dependencies are records.
ghost use Rattle.std.specs.Prelude.{length};
ghost use Rattle.tables.specs.Limits.{limits};
ghost use Rattle.records.specs.Records.{records_in};
ghost use Rattle.presses.specs.Runs.{reports_in, PressesMade, PressesRun};

use crate::answers;
use crate::answers::Shown;
use conductor::calls;
use dispatch::program;
use handset::button;
use records::record;
use tables::entries::{Dependency, Drone, NearPair, Stop};
use tables::lent::Plan;

// Presses with each of the reports, and shows the last reply.
pub fn press_each(
    plan: &Plan<'_>,
    visited: &mut [u16],
    drone_flags: &mut [u8],
    dependencies: &[Dependency],
    reported: &[u16],
) -> Shown
    ensures { PressesMade limits (records_in limits plan.now visited.old drone_flags.old dependencies.now)
        (reports_in reported.now) (length reported.now) result.number result.bits
        (records_in limits plan.now visited.new drone_flags.new dependencies.now) }
{
    let mut shown = Shown { number: 0, bits: 0 };
    for number in reported {
        let report = answers::report_of(*number);
        let reply = button::press(plan, visited, drone_flags, dependencies, report);
        shown = answers::show(reply);
    }
    shown
}

// Reads the plan into tables of its own, presses, and shows the last reply, or the number of the plan's refusal.
pub fn run_presses(text: &[u8], reported: &[u16]) -> Shown
    ensures { PressesRun limits text.now (reports_in reported.now) (length reported.now) result.number result.bits }
{
    let mut drone_count = [0u16; 1];
    let mut dependency_count = [0u16; 1];
    let mut form = [0u8; 1];
    let mut names = [0u8; Drone::NAMES];
    let mut stop_counts = [0u16; Drone::FULL];
    let mut locations = [0u16; Stop::FULL];
    let mut times = [0u32; Stop::FULL];
    let mut legs = [0u8; Stop::FULL];
    let mut visited = [0u16; Drone::FULL];
    let mut drone_flags = [0u8; Drone::FULL];
    let mut dependencies = [record::zero_record(); Dependency::FULL];
    let mut pairs = [0u16; NearPair::NUMBERS];
    let reading = calls::read_plan(
        text,
        &mut drone_count,
        &mut dependency_count,
        &mut form,
        &mut names,
        &mut stop_counts,
        &mut locations,
        &mut times,
        &mut legs,
        &mut visited,
        &mut drone_flags,
        &mut dependencies,
        &mut pairs,
    );
    let number = program::number_of(reading);
    if number != 0 {
        return Shown { number, bits: 0 };
    }
    let plan = Plan {
        drone_count: &drone_count,
        dependency_count: &dependency_count,
        form: &form,
        names: &names,
        stop_counts: &stop_counts,
        locations: &locations,
        times: &times,
        legs: &legs,
        pairs: &pairs,
    };
    press_each(
        &plan,
        &mut visited,
        &mut drone_flags,
        &dependencies,
        reported,
    )
}
