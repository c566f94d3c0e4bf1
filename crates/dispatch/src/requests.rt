// Requests made as calls on lent tables, and the run of a plan on tables of its own. The dependencies are records.
ghost use Rattle.std.specs.Prelude.{◌≡◌, ◌≤◌, ◌<◌, ◌^◌, length, drop};
ghost use Rattle.tables.specs.Limits.{limits};
ghost use Rattle.records.specs.Records.{records_in};
ghost use Rattle.transcript.specs.Input.{request_of};
ghost use Rattle.transcript.specs.Run.{requests_in};
ghost use Rattle.dispatch.specs.Making.{RequestMade, RequestsMade};
ghost use Rattle.reading.specs.Replies.{reading_meant};
ghost use Rattle.dispatch.specs.Transcribing.{PlanRun};

use crate::answers;
use conductor::calls;
use reading::replies::Refusal;
use records::record;
use tables::entries::{Dependency, Drone, NearPair, Stop};
use tables::lent::Plan;
use transcript::keys::Kind;
use transcript::replies::Answer;
use transcript::requests::Request;

// Makes a request. Records past the full size stay.
pub fn make_request(
    plan: &Plan<'_>,
    visited: &mut [u16],
    drone_flags: &mut [u8],
    dependencies: &mut [Dependency],
    request: Request,
) -> Answer
    ensures { RequestMade limits (records_in limits plan.now visited.old drone_flags.old dependencies.old)
        (request_of request.kind request.number) result.number result.detail
        (records_in limits plan.now visited.new drone_flags.new dependencies.new)
        × (drop limits.dependencies dependencies.new ≡ drop limits.dependencies dependencies.old) }
{
    let number = usize::from(request.number);
    match request.kind {
        Kind::Grant => {
            let reply = calls::grant(plan, visited, drone_flags, dependencies, number);
            answers::of_grant(reply)
        }
        Kind::Arrive => {
            let reply = calls::arrive(plan, visited, drone_flags, dependencies, number);
            answers::of_arrive(reply)
        }
        Kind::Turn => {
            let reply = calls::turn(plan, visited, drone_flags, dependencies, number);
            answers::of_turn(reply)
        }
        Kind::Cost => {
            let reply = calls::cost(plan, visited, drone_flags, dependencies);
            answers::of_cost(reply)
        }
    }
}

// Makes the requests, one after another, each on the tables as the one before left them.
pub fn make_requests(
    plan: &Plan<'_>,
    visited: &mut [u16],
    drone_flags: &mut [u8],
    dependencies: &mut [Dependency],
    requests: &[Request],
    answers: &mut [Answer],
)
    requires { (length requests.now < 2 ^ 24) × (length requests.now ≤ length answers.old) }
    ensures { RequestsMade limits (requests_in (length requests.now) requests.now)
        (records_in limits plan.now visited.old drone_flags.old dependencies.old) answers.old
        (records_in limits plan.now visited.new drone_flags.new dependencies.new) answers.new
        × (drop limits.dependencies dependencies.new ≡ drop limits.dependencies dependencies.old) }
{
    for (i, request) in requests.iter().enumerate() {
        answers[i] = make_request(plan, visited, drone_flags, dependencies, *request);
    }
}

// Reads the plan into tables of its own, and makes the requests on them if it is taken.
pub fn run(text: &[u8], requests: &[Request], answers: &mut [Answer]) -> Result<(), Refusal>
    requires { (length requests.now < 2 ^ 24) × (length requests.now ≤ length answers.old) }
    ensures { PlanRun limits text.now (requests_in (length requests.now) requests.now) answers.old (reading_meant result) answers.new }
{
    let mut drone_count = [0u16; 1];
    let mut dependency_count = [0u16; 1];
    let mut form = [0u8; 1];
    let mut names = [0u8; Drone::NAMES];
    let mut stop_counts = [0u16; Drone::FULL];
    let mut locations = [0u16; Stop::FULL];
    let mut times = [0u32; Stop::FULL];
    let mut legs = [0u8; Stop::FULL];
    let mut visited = [0u16; Drone::FULL];
    let mut drone_flags = [0u8; Drone::FULL];
    let mut dependencies = [record::zero_record(); Dependency::FULL];
    let mut pairs = [0u16; NearPair::NUMBERS];
    calls::read_plan(
        text,
        &mut drone_count,
        &mut dependency_count,
        &mut form,
        &mut names,
        &mut stop_counts,
        &mut locations,
        &mut times,
        &mut legs,
        &mut visited,
        &mut drone_flags,
        &mut dependencies,
        &mut pairs,
    )?;
    let plan = Plan {
        drone_count: &drone_count,
        dependency_count: &dependency_count,
        form: &form,
        names: &names,
        stop_counts: &stop_counts,
        locations: &locations,
        times: &times,
        legs: &legs,
        pairs: &pairs,
    };
    make_requests(
        &plan,
        &mut visited,
        &mut drone_flags,
        &mut dependencies,
        requests,
        answers,
    );
    Ok(())
}
