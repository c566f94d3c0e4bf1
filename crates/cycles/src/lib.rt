// Whether the plan graph has a cycle, in time linear in stops and waits: a walk from the first stops comes to everybody's last stop exactly where there is none.
#![tactic(auto)]

pub mod lent;
pub mod linking;
pub mod waits;
pub mod walk;

ghost use Rattle.std.specs.Prelude.{true, ◌≡◌, List, ℕ, ◌≤◌, length};
ghost use Rattle.below.specs.Below.{at};
ghost use Rattle.tables.specs.Limits.{limits};
ghost use Rattle.precedence.specs.Graph.{cyclic};
ghost use Rattle.near.specs.Near.{meets_in, SoundPairs};
ghost use Rattle.plan.specs.Visits.{visits_of};
ghost use Rattle.cycles.specs.Lent.{plan_held, TablesHeld};
ghost use Rattle.cycles.specs.Waits.{turned_in, KeptEdges, Given, graph_sound};
ghost use Rattle.plan.specs.Waits.{withdrawn_in};

use lent::{FlatStops, FlatWaits};
use tables::entries::{Dependency, Drone, Stop};
use tables::lent::Plan;

// Whether the plan graph has a cycle.
pub fn has_cycle(stops: &FlatStops<'_>, waits: &FlatWaits<'_>) -> bool
    requires { TablesHeld limits stops.now waits.now }
    ensures { result ≡ cyclic (plan_held stops.now waits.now) }
{
    // No rounds are asked for: the walk alone says whether there is a cycle.
    let legs = [0u8; Stop::FULL];
    let mut cur = [0u16; Drone::FULL];
    walk::at_first(stops.starts, &mut cur);
    let mut table = [0u32; Stop::FULL];
    walk::walk(stops, waits, &legs, &mut cur, &mut table);
    !walk::all_last(stops, &cur)
}

// Whether no two drones collide, the table is the list of the plan's dependencies, and the graph with its turns, the waits of withdrawn drones left out, has no cycle. Where
// nothing is turned, the planned times rise along every edge, so there is none. `from` and `into` hold the dependencies' first and second stops at first; where all is well they hold the waits in force afterwards.
pub fn graph_sound(
    plan: &Plan<'_>,
    stops: &FlatStops<'_>,
    drone_flags: &[u8],
    flags: &[u8],
    m: usize,
    from: &mut [u16; Dependency::FULL],
    into: &mut [u16; Dependency::FULL],
) -> bool
    requires { Given limits stops.now.owners.now plan.now.locations.now plan.now.times.now stops.now.starts.now stops.now.lasts.now from.old into.old flags.now stops.now.drones stops.now.count m × (length from.old ≡ limits.dependencies) × (length into.old ≡ limits.dependencies) × (limits.drones ≤ length drone_flags.now) × SoundPairs limits plan.now.pairs.now }
    ensures { ((numbers : List ℕ) → result ≡ graph_sound (visits_of (meets_in plan.now.pairs.now) stops.now.owners.now numbers plan.now.locations.now plan.now.times.now stops.now.count) (at stops.now.starts.now) (at stops.now.lasts.now) stops.now.drones m (at from.old) (at into.old) (turned_in flags.now) (withdrawn_in drone_flags.now)) × (result ≡ true → KeptEdges limits stops.now.owners.now stops.now.starts.now drone_flags.now from.old into.old flags.now m from.new into.new) }
{
    if !meetings::dependencies_right(
        plan.pairs,
        stops.owners,
        plan.locations,
        plan.times,
        stops.count,
        from,
        into,
        m,
    ) {
        return false;
    }
    waits::make_waits(flags, m, from, into);
    waits::leave_out(stops, drone_flags, m, from, into);
    if waits::turned_total(flags, m) == 0 {
        return true;
    }
    let waits = FlatWaits {
        from,
        into,
        count: m,
    };
    !has_cycle(stops, &waits)
}
