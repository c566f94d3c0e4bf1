// Every small plan for the bench: a plan asked for by its number, written as text into a lent buffer. The tables hold the plans as pairs of route numbers,
// and the routes that pass the plan check by themselves, three stops to a route; their rules are proved once, over the whole tables.
#![tactic(auto)]

mod entries;

ghost use Rattle.std.specs.Prelude.{◌≡◌, ◌++◌, ◌+◌, ◌*◌, ◌<◌, ◌^◌, length, Err};
ghost use Rattle.lines.specs.Bytes.{Put};
ghost use Rattle.small_plans.specs.Plans.{plan_with, small_plan_text};
ghost use Rattle.small_plans.specs.Check.{stop_count, checked_route_at};
ghost use Rattle.small_plans.specs.Asked.{stop_text, plan_meant, plan_refused, PlanGiven};

use lines::{bytes, keys};
use tables::entries::PLAIN_FORM;
use text::writer;

// Why no text was written: there is no such plan, or the buffer is shorter than the text.
#[derive(Clone, Copy, Debug, PartialEq, Eq)]
pub enum PlanRefusal {
    NoSuchPlan,
    Short,
}

impl PlanRefusal {
    pub fn number(self) -> u8
        ensures { plan_meant (Err self) ≡ plan_refused result }
    {
        match self {
            PlanRefusal::NoSuchPlan => 15,
            PlanRefusal::Short => 42,
        }
    }
}

pub const PLANS: usize = 378;

const FIRST_NAME: [u8; 7] = *b"name=a\n";

const SECOND_NAME: [u8; 7] = *b"name=b\n";

// The legs of a route's stops: the box keeps to `plan=1`.
const LEGS: [u8; 3] = [0, 1, 1];

// The number of stops of a route: 3 routes have one, 24 have two, the others three.
#[tactic(auto, unfolding(crate::specs::Check::stop_count))]
fn stop_count(route: usize) -> usize
    ensures { result ≡ stop_count route }
{
    match route {
        0..=2 => 1,
        3..=26 => 2,
        _ => 3,
    }
}

// Writes the lines of a drone, whose line `name=TEXT` is given.
fn put_route(buf: &mut [u8], at: usize, name: &[u8], route: usize) -> usize
    requires { (at < 2 ^ 28) × (length name.now ≡ 7) × (route < 99) }
    ensures { Put buf.old at (name.now ++ stop_text (checked_route_at route)) buf.new result }
{
    let next = bytes::put_bytes(buf, at, name);
    let count = stop_count(route);
    let from = 3 * route;
    writer::put_stop_lines(
        buf,
        next,
        PLAIN_FORM,
        count,
        0,
        &entries::PLACES[from..],
        &entries::MOMENTS[from..],
        &LEGS,
    )
}

// Writes the text of the plan of two routes, as far as the buffer reaches, and gives the text's length.
fn put_plan(buf: &mut [u8], first: usize, second: usize) -> usize
    requires { (first < 99) × (second < 99) }
    ensures { Put buf.old 0 (small_plan_text (plan_with (checked_route_at first) (checked_route_at second))) buf.new result }
{
    let agents = bytes::put_bytes(buf, 0, &keys::PLAN_LINE);
    let drones = writer::put_count(buf, agents, &keys::AGENTS, 2);
    let other = put_route(buf, drones, &FIRST_NAME, first);
    let last = put_route(buf, other, &SECOND_NAME, second);
    bytes::put_bytes(buf, last, &keys::END_LINE)
}

// Writes a small plan, if there is one of this number and the buffer is long enough, and gives the text's length. The first writing writes nothing and gives the length.
pub fn small_plan(number: usize, buf: &mut [u8]) -> Result<usize, PlanRefusal>
    ensures { PlanGiven number buf.old buf.new (plan_meant result) }
{
    if PLANS <= number {
        return Err(PlanRefusal::NoSuchPlan);
    }
    let first = usize::from(entries::FIRSTS[number]);
    let second = usize::from(entries::SECONDS[number]);
    let length = put_plan(&mut buf[0..0], first, second);
    if buf.len() < length {
        return Err(PlanRefusal::Short);
    }
    put_plan(buf, first, second);
    Ok(length)
}
