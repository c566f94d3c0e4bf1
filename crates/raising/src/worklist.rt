// Entries are raised along edges from the stop that the new wait is into. A log has the raised stops with their old entries; the part of it that is not looked at yet is the worklist, and
// read backwards it leads back to the table before.
ghost use Rattle.std.specs.Prelude.{Some, is_none, is_err, List, ◌≡◌, ℕ, ◌+◌, ◌*◌, ◌-◌, ◌≤◌, ◌<◌, length};
ghost use Rattle.below.specs.Below.{at};
ghost use Rattle.tables.specs.Limits.{limits};
ghost use Rattle.precedence.specs.Graph.{cyclic};
ghost use Rattle.cycles.specs.Links.{LinkedWaits};
ghost use Rattle.cycles.specs.Lent.{plan_held, course_held};
ghost use Rattle.cycles.specs.Walk.{RoundTable};
ghost use Rattle.raising.specs.Answers.{log_end, closes_cycle, raised_end};
ghost use Rattle.raising.specs.Lent.{RaisableOver, LinkedOver, course_over, JudgeableIn};
ghost use Rattle.raising.specs.Lifting.{log_room, LogAt, undone, none_left, first_waits, Offered, PartRaised, RaisedTable};

use cycles::lent::{FlatStops, FlatWaits};
use cycles::walk::{all_last, at_first, walk};
use tables::entries::{Dependency, Drone, Stop};

// The entries that the log has. It stands in two arrays, of stops and of their old entries: one of pairs would take a third more memory. They and the table stay parameters beside each other,
// lent for change: with no heap, a struct that owns them would be made of copies.
pub const LOG: usize = 12288;

// The edges along which entries are raised: the stops, each of which its drone comes to after the one before it, and the waits between them, linked by the stops that they are for; the leg
// into each stop, and the stop at which each drone stands.
#[derive(Clone, Copy)]
pub struct Edges<'a> {
    pub stops: FlatStops<'a>,
    pub waits: FlatWaits<'a>,
    pub head: &'a [u16; Stop::FULL],
    pub next: &'a [u16; Dependency::FULL],
    pub legs: &'a [u8],
    pub cur: &'a [u16; Drone::FULL],
}

// The log had no room for an entry, or the worklist was given up: where the log ends then.
#[derive(Clone, Copy, Debug, PartialEq, Eq)]
pub struct LogFull {
    pub top: usize,
}

// Nobody comes into stop w before its leg after stop u: raises the entry of w if it has to. Answers where the log ends. It takes slices, and no `Edges`: so the loop
// that calls it for each wait holds them in locals.
pub fn offer(
    owners: &[u8],
    legs: &[u8],
    cur: &[u16; Drone::FULL],
    u: usize,
    w: usize,
    table: &mut [u32; Stop::FULL],
    log_stops: &mut [u16; LOG],
    log_olds: &mut [u32; LOG],
    top: usize,
) -> Result<usize, LogFull>
    requires { (u < limits.stops) × (w < limits.stops) × (w < length owners.now) × (at owners.now w < limits.drones) × (w < length legs.now) × LogAt limits top table.old log_stops.old log_olds.old }
    ensures { Offered log_room (at owners.now) (at legs.now) (at cur.now) u w top table.old log_stops.old log_olds.old (is_err result) (log_end result) table.new log_stops.new log_olds.new }
{
    let d = usize::from(owners[w]);
    if w <= usize::from(cur[d]) {
        return Ok(top);
    }
    let arrives = u32::from(legs[w]) + table[u];
    let there = table[w];
    if arrives <= there {
        return Ok(top);
    }
    if top == LOG {
        return Err(LogFull { top });
    }
    log_stops[top] = w as u16;
    log_olds[top] = there;
    table[w] = arrives;
    Ok(top + 1)
}

// Puts back the entries of the log from `mark` on.
pub fn undo(
    mark: usize,
    top: usize,
    table: &mut [u32; Stop::FULL],
    log_stops: &[u16; LOG],
    log_olds: &[u32; LOG],
)
    requires { (top ≤ log_room) × ((j : ℕ) → mark ≤ j → j < top → at log_stops.now j < limits.stops) × (length table.old ≡ limits.stops) }
    ensures { table.new ≡ undone log_stops.now log_olds.now mark (top - mark) table.old }
{
    for k in (mark..top).rev() {
        table[usize::from(log_stops[k])] = log_olds[k];
    }
}

// The edge from stop u to the next stop of its drone. The stop after a drone's last one is a first stop, which is visited.
fn offer_next(
    edges: &Edges<'_>,
    u: usize,
    table: &mut [u32; Stop::FULL],
    log_stops: &mut [u16; LOG],
    log_olds: &mut [u32; LOG],
    top: usize,
) -> Result<usize, LogFull>
    requires raisable { RaisableOver limits edges.now × (u < edges.now.stops.count) }
    requires log_at { LogAt limits top table.old log_stops.old log_olds.old }
    ensures { PartRaised (course_over edges.now) (at edges.now.legs.now) (at edges.now.cur.now) limits u (λ v. v ≡ u) (λ k. at edges.now.waits.from.now k ≡ u) none_left (λ k. at edges.now.waits.from.now k ≡ u) top table.old log_stops.old log_olds.old (is_err result) (log_end result) table.new log_stops.new log_olds.new }
{
    let w = u + 1;
    if edges.stops.count <= w {
        return Ok(top);
    }
    offer(
        edges.stops.owners,
        edges.legs,
        edges.cur,
        u,
        w,
        table,
        log_stops,
        log_olds,
        top,
    )
}

// The waits for stop u.
fn offer_waits(
    edges: &Edges<'_>,
    u: usize,
    table: &mut [u32; Stop::FULL],
    log_stops: &mut [u16; LOG],
    log_olds: &mut [u32; LOG],
    top: usize,
) -> Result<usize, LogFull>
    requires raisable { RaisableOver limits edges.now × (u < edges.now.stops.count) × LinkedOver limits edges.now }
    requires log_at { LogAt limits top table.old log_stops.old log_olds.old }
    ensures { PartRaised (course_over edges.now) (at edges.now.legs.now) (at edges.now.cur.now) limits u none_left (λ k. at edges.now.waits.from.now k ≡ u) none_left none_left top table.old log_stops.old log_olds.old (is_err result) (log_end result) table.new log_stops.new log_olds.new }
{
    let owners = edges.stops.owners;
    let into = edges.waits.into;
    let next = edges.next;
    let legs = edges.legs;
    let cur = edges.cur;
    let mut end = top;
    let mut wait = usize::from(edges.head[u]);
    while 0 < wait {
        let w = usize::from(into[wait - 1]);
        end = offer(owners, legs, cur, u, w, table, log_stops, log_olds, end)?;
        wait = usize::from(next[wait - 1]);
    }
    Ok(end)
}

// Every edge out of stop u.
pub fn offer_out(
    edges: &Edges<'_>,
    u: usize,
    table: &mut [u32; Stop::FULL],
    log_stops: &mut [u16; LOG],
    log_olds: &mut [u32; LOG],
    top: usize,
) -> Result<usize, LogFull>
    requires raisable { RaisableOver limits edges.now × (u < edges.now.stops.count) × LinkedOver limits edges.now }
    requires log_at { LogAt limits top table.old log_stops.old log_olds.old }
    ensures { PartRaised (course_over edges.now) (at edges.now.legs.now) (at edges.now.cur.now) limits u (λ v. v ≡ u) (λ k. at edges.now.waits.from.now k ≡ u) none_left none_left top table.old log_stops.old log_olds.old (is_err result) (log_end result) table.new log_stops.new log_olds.new }
{
    let end = offer_next(edges, u, table, log_stops, log_olds, top)?;
    offer_waits(edges, u, table, log_stops, log_olds, end)
}

// What came of a new wait for which the log had room, and where the log ends: there is a cycle, or the table is that of the waits with the new one.
#[derive(Clone, Copy, Debug, PartialEq, Eq)]
pub enum Raised {
    Cycle(usize),
    Settled(usize),
}

// Whether the worklist from h to the log's end is left: past position `most`, unless there is one stop alone to look at, as along one drone's route.
fn gives_up(h: usize, most: usize, end: usize) -> bool {
    if end <= h {
        return false;
    }
    most <= h && 1 < end - h
}

// Brings the table of rounds of all waits but the last up to date after the last one, which stands in the links. Who stands at stop cur[d] has visited it. It looks at the
// edges out of each stop that it raises, each time that it does, and may give up past position `most` of the log.
pub fn raise(
    edges: &Edges<'_>,
    table: &mut [u32; Stop::FULL],
    log_stops: &mut [u16; LOG],
    log_olds: &mut [u32; LOG],
    top: usize,
    most: usize,
) -> Result<Raised, LogFull>
    requires raisable { RaisableOver limits edges.now × (1 ≤ edges.now.waits.count) × LinkedOver limits edges.now }
    requires log_at { LogAt limits top table.old log_stops.old log_olds.old }
    requires round_table { RoundTable (first_waits (course_over edges.now) (edges.now.waits.count - 1)) (at edges.now.legs.now) (at edges.now.cur.now) (at table.old) }
    ensures { RaisedTable (course_over edges.now) (at edges.now.legs.now) (at edges.now.cur.now) limits top table.old log_stops.old log_olds.old (is_err result) (closes_cycle result) (raised_end result) table.new log_stops.new log_olds.new }
{
    let a = usize::from(edges.waits.from[edges.waits.count - 1]);
    let b = usize::from(edges.waits.into[edges.waits.count - 1]);
    let mut end = offer(
        edges.stops.owners,
        edges.legs,
        edges.cur,
        a,
        b,
        table,
        log_stops,
        log_olds,
        top,
    )?;
    let mut h = top;
    while h < end {
        let u = usize::from(log_stops[h]);
        if u == a {
            return Ok(Raised::Cycle(end));
        }
        end = offer_out(edges, u, table, log_stops, log_olds, end)?;
        h += 1;
        if gives_up(h, most, end) {
            return Err(LogFull { top: end });
        }
    }
    Ok(Raised::Settled(end))
}

// Links wait m, the first m being linked.
pub fn link_last(
    from: &[u16; Dependency::FULL],
    m: usize,
    head: &mut [u16; Stop::FULL],
    next: &mut [u16; Dependency::FULL],
)
    requires { (m < limits.dependencies) × (at from.now m < limits.stops) × LinkedWaits limits (at from.now) m head.old next.old }
    ensures { LinkedWaits limits (at from.now) (m + 1) head.new next.new }
{
    let v = usize::from(from[m]);
    next[m] = head[v];
    head[v] = (m + 1) as u16;
}

// Takes wait m out of the links again, the first m + 1 being linked.
pub fn unlink_last(
    from: &[u16; Dependency::FULL],
    m: usize,
    head: &mut [u16; Stop::FULL],
    next: &[u16; Dependency::FULL],
)
    requires { (m < limits.dependencies) × (at from.now m < limits.stops) × LinkedWaits limits (at from.now) (m + 1) head.old next.now }
    ensures { LinkedWaits limits (at from.now) m head.new next.now }
{
    let v = usize::from(from[m]);
    head[v] = next[m];
}

// The table of rounds by one walk, or none if there is a cycle: where there is no table yet, or where the log has no room.
pub fn fill(
    stops: &FlatStops<'_>,
    waits: &FlatWaits<'_>,
    legs: &[u8],
    visited: &[u16],
    cur: &[u16; Drone::FULL],
) -> Option<[u32; Stop::FULL]>
    requires { JudgeableIn limits stops.now waits.now legs.now visited.now × (length cur.now ≡ limits.drones) × ((d : ℕ) → d < stops.now.drones → at cur.now d ≡ at stops.now.starts.now d + at visited.now d) }
    ensures { (is_none result ≡ cyclic (plan_held stops.now waits.now)) × ((table : List ℕ) → result ≡ Some table → RoundTable (course_held stops.now waits.now) (at legs.now) (at cur.now) (at table) × (length table ≡ limits.stops) × ((v : ℕ) → at table v ≤ limits.leg * limits.stops)) }
{
    let mut places = [0u16; Drone::FULL];
    at_first(cur, &mut places);
    let mut table = [0u32; Stop::FULL];
    walk(stops, waits, legs, &mut places, &mut table);
    if all_last(stops, &places) {
        Some(table)
    } else {
        None
    }
}
