// A walk of the plan graph (Kahn's algorithm): a stack holds the drones that can move. One of them moves on to its next stop, and the waits for that stop are met; a drone whose next
// stop then waits for nothing more goes on the stack. The walk ends when nobody can move. It takes time linear in stops and waits.
ghost use Rattle.std.specs.Prelude.{◌≡◌, ℕ, ◌+◌, ◌*◌, ◌-◌, ◌≤◌, ◌<◌, leb, length};
ghost use Rattle.below.specs.Below.{at, pick, all_below};
ghost use Rattle.tables.specs.Limits.{limits};
ghost use Rattle.cycles.specs.Lent.{course_held, TablesHeld};
ghost use Rattle.cycles.specs.Walk.{met_at, unmet_into, can_move, Stacked, Ends, Advanced, Wakes, OneMet, Begun, Walked};

use crate::lent::{FlatStops, FlatWaits};
use crate::linking;
use tables::entries::{Dependency, Drone, Stop};

// 1 for a wait that is not met, 0 for one that is: the stop that it awaits is visited.
fn unmet_one(
    stops: &FlatStops<'_>,
    waits: &FlatWaits<'_>,
    cur: &[u16; Drone::FULL],
    k: usize,
) -> u16
    requires { (k < limits.dependencies) × (at waits.now.from.now k < length stops.now.owners.now) × (at stops.now.owners.now (at waits.now.from.now k) < limits.drones) }
    ensures { (result ≡ pick (met_at (at stops.now.owners.now) (at waits.now.from.now) (at cur.now) k) 0 1) × (result ≤ 1) }
{
    let v = waits.from[k];
    let d = usize::from(stops.owners[usize::from(v)]);
    if v <= cur[d] { 0 } else { 1 }
}

// How many waits into each stop are not met.
fn unmet_waits(
    stops: &FlatStops<'_>,
    waits: &FlatWaits<'_>,
    cur: &[u16; Drone::FULL],
) -> [u16; Stop::FULL]
    requires { (waits.now.count ≤ limits.dependencies) × ((k : ℕ) → k < waits.now.count → Ends limits stops.now.owners.now (at waits.now.from.now k) (at waits.now.into.now k)) }
    ensures { (length result ≡ limits.stops) × ((v : ℕ) → v < limits.stops → at result v ≡ unmet_into (at waits.now.into.now) waits.now.count (met_at (at stops.now.owners.now) (at waits.now.from.now) (at cur.now)) v) }
{
    let mut need = [0u16; Stop::FULL];
    for k in 0..waits.count {
        let v = usize::from(waits.into[k]);
        need[v] += unmet_one(stops, waits, cur, k);
    }
    need
}

// Whether drone d is short of its last stop and no wait into the next one is unmet.
fn can_move(
    stops: &FlatStops<'_>,
    cur: &[u16; Drone::FULL],
    need: &[u16; Stop::FULL],
    d: usize,
) -> bool
    requires { (d < limits.drones) × (at stops.now.starts.now d + at stops.now.lasts.now d < limits.stops) }
    ensures { result ≡ can_move (at stops.now.starts.now) (at stops.now.lasts.now) (at cur.now) (at need.now) d }
{
    let v = usize::from(cur[d]);
    if usize::from(stops.starts[d]) + usize::from(stops.lasts[d]) <= v {
        return false;
    }
    need[v + 1] == 0
}

// Puts the drones that can move on the stack. Answers how many there are.
fn stack_movers(
    stops: &FlatStops<'_>,
    cur: &[u16; Drone::FULL],
    need: &[u16; Stop::FULL],
    stack: &mut [u8; Drone::FULL],
) -> usize
    requires { (stops.now.drones ≤ limits.drones) × ((d : ℕ) → d < stops.now.drones → at stops.now.starts.now d + at stops.now.lasts.now d < limits.stops) × (length stack.old ≡ limits.drones) }
    ensures { Stacked limits stops.now.drones (can_move (at stops.now.starts.now) (at stops.now.lasts.now) (at cur.now) (at need.now)) stack.new result }
{
    let mut top = 0;
    for d in 0..stops.drones {
        if !can_move(stops, cur, need, d) {
            continue;
        }
        stack[top] = d as u8;
        top += 1;
    }
    top
}

// Drone d moves on to its next stop, which is visited its leg after the latest of what it awaits: the table has the latest of its waits, and the entry of the stop before it. Answers the stop.
fn advance(
    legs: &[u8],
    d: usize,
    cur: &mut [u16; Drone::FULL],
    table: &mut [u32; Stop::FULL],
) -> usize
    requires d_lt_drones { (d < limits.drones) × (length cur.old ≡ limits.drones) × (length table.old ≡ limits.stops) }
    requires d_bound { (at cur.old d + 1 < limits.stops) × (at cur.old d + 1 < length legs.now) × ((v : ℕ) → at table.old v ≤ limits.leg * limits.stops) }
    ensures { Advanced (at legs.now) d cur.old cur.new table.old table.new result }
{
    let v = usize::from(cur[d]) + 1;
    cur[d] += 1;
    table[v] = u32::from(legs[v]) + table[v].max(table[v - 1]);
    v
}

// The top of the stack when drone d, which was on it, has moved: d stays while it can move on.
fn top_after(
    stops: &FlatStops<'_>,
    cur: &[u16; Drone::FULL],
    need: &[u16; Stop::FULL],
    d: usize,
    top: usize,
) -> usize
    requires { (d < limits.drones) × (at stops.now.starts.now d + at stops.now.lasts.now d < limits.stops) × (0 < top) }
    ensures { result ≡ pick (can_move (at stops.now.starts.now) (at stops.now.lasts.now) (at cur.now) (at need.now) d) top (top - 1) }
{
    if can_move(stops, cur, need, d) {
        top
    } else {
        top - 1
    }
}

// A wait into stop w is met, by a visit with that entry. If that was the last and w is its drone's next stop, the drone goes on the stack. Answers the stack's top.
fn meet(
    owners: &[u8],
    cur: &[u16; Drone::FULL],
    w: usize,
    entry: u32,
    need: &mut [u16; Stop::FULL],
    stack: &mut [u8; Drone::FULL],
    top: usize,
    table: &mut [u32; Stop::FULL],
) -> usize
    requires w_lt_stops { (w < limits.stops) × (w < length owners.now) × (at owners.now w < limits.drones) × (1 ≤ at need.old w) × (Wakes owners.now cur.now need.old w → top < limits.drones) }
    requires need_len { (length need.old ≡ limits.stops) × (length stack.old ≡ limits.drones) × (length table.old ≡ limits.stops) }
    ensures { OneMet owners.now cur.now w entry top need.old need.new stack.old stack.new table.old table.new result }
{
    table[w] = table[w].max(entry);
    need[w] -= 1;
    if need[w] != 0 {
        return top;
    }
    let d = owners[w];
    if usize::from(cur[usize::from(d)]) + 1 != w {
        return top;
    }
    stack[top] = d;
    top + 1
}

// Moves the drones on from their stops `cur` until none can move. Leaves in `table`, which is 0 at first, the rounds of the stops that they come to, with the legs into them.
pub fn walk(
    stops: &FlatStops<'_>,
    waits: &FlatWaits<'_>,
    legs: &[u8],
    cur: &mut [u16; Drone::FULL],
    table: &mut [u32; Stop::FULL],
)
    requires flat_tables { TablesHeld limits stops.now waits.now × Begun limits (course_held stops.now waits.now) cur.old }
    requires table_len { (length table.old ≡ limits.stops) × ((v : ℕ) → at table.old v ≡ 0) × (stops.now.count ≤ length legs.now) × ((v : ℕ) → v < stops.now.count → at legs.now v ≤ limits.leg) }
    ensures { Walked limits (course_held stops.now waits.now) (at legs.now) (limits.leg * (limits.stops - 1)) cur.old cur.new table.new }
{
    let mut head = [0u16; Stop::FULL];
    let mut next = [0u16; Dependency::FULL];
    let mut stack = [0u8; Drone::FULL];
    linking::link(waits.from, waits.count, &mut head, &mut next);
    let mut need = unmet_waits(stops, waits, cur);
    let mut top = stack_movers(stops, cur, &need, &mut stack);
    while 0 < top {
        let d = usize::from(stack[top - 1]);
        let v = advance(legs, d, cur, table);
        top = top_after(stops, cur, &need, d, top);
        let mut wait = usize::from(head[v]);
        while 0 < wait {
            let w = usize::from(waits.into[wait - 1]);
            let entry = table[v];
            top = meet(
                stops.owners,
                cur,
                w,
                entry,
                &mut need,
                &mut stack,
                top,
                table,
            );
            wait = usize::from(next[wait - 1]);
        }
    }
}

// Puts every drone at its first stop.
pub fn at_first(starts: &[u16; Drone::FULL], cur: &mut [u16; Drone::FULL])
    requires { length cur.old ≡ limits.drones }
    ensures { (length cur.new ≡ limits.drones) × ((d : ℕ) → d < limits.drones → at cur.new d ≡ at starts.now d) }
{
    *cur = *starts;
}

// Whether every drone is at its last stop.
pub fn all_last(stops: &FlatStops<'_>, cur: &[u16; Drone::FULL]) -> bool
    requires { stops.now.drones ≤ limits.drones }
    ensures { result ≡ all_below stops.now.drones (λ d. leb (at stops.now.starts.now d + at stops.now.lasts.now d) (at cur.now d)) }
{
    (0..stops.drones).all(|d| {
        usize::from(stops.starts[d]) + usize::from(stops.lasts[d]) <= usize::from(cur[d])
    })
}
