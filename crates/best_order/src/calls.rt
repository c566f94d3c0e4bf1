// The call: 41 (the lent list too), 40, 38, then the search with its budget, 37.
ghost use Rattle.std.specs.Prelude.{◌≤◌, length};
ghost use Rattle.tables.specs.Lent.{lent_tables};
ghost use Rattle.tables.specs.Limits.{limits};
ghost use Rattle.flat.specs.Lent.{UsableInForce};
ghost use Rattle.best_order.specs.Replies.{BestAnswered};

use crate::listing::list_choice;
use crate::opening::mark_open;
use crate::replies::{BestOrder, BestRefusal};
use cycles::lent::{FlatStops, FlatWaits};
use flat::calls::check_graph;
use flat::fill_places;
use flat::replies::TablesFault;
use orders::arranging::search_marked;
use plan::stops::stop_total;
use tables::entries::{Dependency, Drone, Stop};
use tables::lent::{Plan, Sides};

// "The budget is 1 to 100,000".
const MOST: usize = 100_000;

// The search on tables that are of full size and sound, whose graph now in force is in the last five tables.
fn best_sound(
    plan: &Plan<'_>,
    visited: &[u16],
    drone_flags: &[u8],
    sides: &Sides<'_>,
    flags: &[u8],
    list: &mut [u16],
    budget: usize,
    owners: &[u8; Stop::FULL],
    starts: &[u16; Drone::FULL],
    lasts: &[u16; Drone::FULL],
    from: &[u16; Dependency::FULL],
    into: &[u16; Dependency::FULL],
) -> Result<BestOrder, BestRefusal>
    requires in_force { UsableInForce limits owners.now starts.now lasts.now from.now into.now
        (lent_tables plan.now visited.now drone_flags.now sides.now flags.now) }
    requires room { limits.dependencies ≤ length list.old }
    ensures { BestAnswered limits (lent_tables plan.now visited.now drone_flags.now sides.now flags.now)
        list.old budget result list.new }
{
    if budget < 1 || MOST < budget {
        return Err(BestRefusal::BadBudget);
    }
    let drones = usize::from(plan.drone_count[0]);
    let m = usize::from(plan.dependency_count[0]);
    let stops = FlatStops {
        owners,
        starts,
        lasts,
        drones,
        count: stop_total(drones, plan.stop_counts),
    };
    let waits = FlatWaits {
        from,
        into,
        count: m,
    };
    let mut opens = [0u8; Dependency::FULL];
    let open = mark_open(plan, visited, drone_flags, sides, flags, m, &mut opens);
    let mut places = [0u16; Drone::FULL];
    fill_places(drones, visited, drone_flags, lasts, &mut places);
    let mut chosen = [0u8; Dependency::FULL];
    let found = search_marked(
        &stops,
        &waits,
        plan.legs,
        &places,
        &opens,
        budget,
        &mut chosen,
    )?;
    let length = list_choice(&opens, m, &chosen, open, list);
    Ok(BestOrder {
        cost: found.cost,
        length,
        count: found.count,
    })
}

// "The reply is the least cost of all choices without a cycle, the earliest such choice, and the count." The list is lent for the choice; the tables are lent for reading alone.
pub fn best_order(
    plan: &Plan<'_>,
    visited: &[u16],
    drone_flags: &[u8],
    sides: &Sides<'_>,
    flags: &[u8],
    list: &mut [u16],
    budget: usize,
) -> Result<BestOrder, BestRefusal>
    ensures { BestAnswered limits (lent_tables plan.now visited.now drone_flags.now sides.now flags.now)
        list.old budget result list.new }
{
    if list.len() < Dependency::FULL {
        return Err(BestRefusal::Tables(TablesFault::TooSmall));
    }
    let mut owners = [0u8; Stop::FULL];
    let mut starts = [0u16; Drone::FULL];
    let mut lasts = [0u16; Drone::FULL];
    let mut from = [0u16; Dependency::FULL];
    let mut into = [0u16; Dependency::FULL];
    check_graph(
        plan,
        visited,
        drone_flags,
        sides,
        flags,
        &mut owners,
        &mut starts,
        &mut lasts,
        &mut from,
        &mut into,
    )?;
    best_sound(
        plan,
        visited,
        drone_flags,
        sides,
        flags,
        list,
        budget,
        &owners,
        &starts,
        &lasts,
        &from,
        &into,
    )
}
