// Entries are raised as in `worklist`, but the raised stops are looked at in the order of their rounds before the new wait. A stop awaits only stops of earlier rounds, so that each one is
// looked at once, when its entry stands: on long routes that cross often the plain worklist comes back to each stop many times. The order is for speed alone; what is proved does not need it.
ghost use Rattle.std.specs.Prelude.{Some, is_err, ◌⊎◌, ◌≡◌, ℕ, ◌+◌, ◌-◌, ◌≤◌, ◌<◌, length};
ghost use Rattle.below.specs.Below.{at};
ghost use Rattle.tables.specs.Limits.{limits};
ghost use Rattle.cycles.specs.Walk.{RoundTable};
ghost use Rattle.raising.specs.Lifting.{log_room, LogAt, none_left, first_waits, Lifting, RaisedTable};
ghost use Rattle.raising.specs.Answers.{turn_of, looked_end, closes_cycle, raised_end};
ghost use Rattle.raising.specs.Lent.{RaisableOver, LinkedOver, course_over};
ghost use Rattle.raising.specs.Marked.{MarkTables, NotedOne, NotedAll, NextMarked, Chosen, MarksReached, LookedAt};

use crate::worklist::{Edges, LOG, LogFull, Raised, offer, offer_out};
use tables::entries::{Dependency, Drone, Stop};

// Past every stop: so a table of sixteen-bit numbers says that a drone has no marked stop, and `n <= u` asks for that and for the stop's range at once.
const NO_STOP: u16 = 2048;

// A round that no entry comes to. It serves `min` as it is, where an Option would be a case more at each stop that is marked.
const NEVER: u32 = u32::MAX;

// Marks stop w, whose entry was `old` before: at its first mark since the new wait that is its round before it. Answers that round, but not of a stop of drone `run`.
fn note(
    owners: &[u8],
    w: usize,
    old: u32,
    run: usize,
    marks: &mut [u8; Stop::FULL],
    was: &mut [u32; Stop::FULL],
    low: &mut [u16; Drone::FULL],
) -> u32
    requires { (w < limits.stops) × (w < length owners.now) × (at owners.now w < limits.drones) × MarkTables limits marks.old was.old low.old }
    ensures { NotedOne limits (at owners.now) w marks.old low.old marks.new was.new low.new }
{
    let d = usize::from(owners[w]);
    low[d] = low[d].min(w as u16);
    let marked = marks[w];
    marks[w] = 1;
    was[w] = if marked == 0 { old } else { was[w] };
    if d == run { NEVER } else { old }
}

// Marks the stops of the log from position h on, before position end. Answers the earliest of their rounds before the new wait, but not of those of drone `run`.
fn note_all(
    owners: &[u8],
    n: usize,
    log_stops: &[u16; LOG],
    log_olds: &[u32; LOG],
    h: usize,
    end: usize,
    run: usize,
    marks: &mut [u8; Stop::FULL],
    was: &mut [u32; Stop::FULL],
    low: &mut [u16; Drone::FULL],
) -> u32
    requires { (n ≤ limits.stops) × (n ≤ length owners.now) × ((v : ℕ) → v < n → at owners.now v < limits.drones) × (h ≤ end) × (end ≤ log_room) × ((j : ℕ) → h ≤ j → j < end → at log_stops.now j < n) × MarkTables limits marks.old was.old low.old }
    ensures { NotedAll limits (at owners.now) n log_stops.now h end marks.old low.old marks.new was.new low.new }
{
    let mut least = NEVER;
    for j in h..end {
        let w = usize::from(log_stops[j]);
        let round = note(owners, w, log_olds[j], run, marks, was, low);
        least = least.min(round);
    }
    least
}

// The first marked stop from `from` on, before `past`.
fn next_marked(marks: &[u8; Stop::FULL], from: usize, past: usize) -> u16
    requires { past ≤ limits.stops }
    ensures { NextMarked marks.now limits.stops from past result }
{
    for v in from..past {
        if marks[v] != 0 {
            return v as u16;
        }
    }
    NO_STOP
}

// Whose turn it is: the drone's first marked stop was visited in round `first`, and the next drone's in round `limit`.
#[derive(Clone, Copy)]
struct Turn {
    drone: usize,
    first: u32,
    limit: u32,
}

// The turn with drone d too, whose first marked stop was visited in round `key`.
fn with_drone(turn: Option<Turn>, d: usize, key: u32) -> Turn
    ensures { (result.drone ≡ d) ⊎ (turn_of turn ≡ Some result.drone) }
{
    match turn {
        None => Turn {
            drone: d,
            first: key,
            limit: NEVER,
        },
        Some(turn) if key < turn.first => Turn {
            drone: d,
            first: key,
            limit: turn.first,
        },
        Some(turn) => Turn {
            limit: turn.limit.min(key),
            ..turn
        },
    }
}

// The drone whose first marked stop was visited first, if any drone has a marked one.
fn choose(
    was: &[u32; Stop::FULL],
    low: &[u16; Drone::FULL],
    drones: usize,
    n: usize,
) -> Option<Turn>
    requires { (drones ≤ limits.drones) × (n ≤ limits.stops) }
    ensures { Chosen low.now drones n (turn_of result) }
{
    let mut turn = None;
    for d in 0..drones {
        let u = usize::from(low[d]);
        if n <= u {
            continue;
        }
        turn = Some(with_drone(turn, d, was[u]));
    }
    turn
}

// The turn that is on, while its drone's first marked stop was visited no later than any other; or else whose turn is next.
fn on_turn(
    was: &[u32; Stop::FULL],
    low: &[u16; Drone::FULL],
    drones: usize,
    n: usize,
    turn: Option<Turn>,
) -> Option<Turn>
    requires { (drones ≤ limits.drones) × (n ≤ limits.stops) × ((d : ℕ) → turn_of turn ≡ Some d → d < drones) }
    ensures { Chosen low.now drones n (turn_of result) }
{
    if let Some(on) = turn {
        let u = usize::from(low[on.drone]);
        if u < n && was[u] <= on.limit {
            return turn;
        }
    }
    choose(was, low, drones, n)
}

// Where the log ends after a stop was looked at; the earliest round of the stops that were raised, but not of those of the stop's drone.
#[derive(Clone, Copy)]
struct Looked {
    top: usize,
    least: u32,
}

// Looks at the edges out of stop u, the first marked one of drone d, and marks what they raise. The new wait is into stop b, and the log ended at `top` before it.
fn look_at(
    edges: &Edges<'_>,
    b: usize,
    top: usize,
    d: usize,
    u: usize,
    table: &mut [u32; Stop::FULL],
    log_stops: &mut [u16; LOG],
    log_olds: &mut [u32; LOG],
    end: usize,
    marks: &mut [u8; Stop::FULL],
    was: &mut [u32; Stop::FULL],
    low: &mut [u16; Drone::FULL],
) -> Result<Looked, LogFull>
    requires raisable { RaisableOver limits edges.now × (u < edges.now.stops.count) × (d < edges.now.stops.drones) × (u ≡ at low.old d) × LinkedOver limits edges.now }
    requires log_at { LogAt limits end table.old log_stops.old log_olds.old × MarkTables limits marks.old was.old low.old }
    requires marks_reached { MarksReached (course_over edges.now) b marks.old low.old × Lifting (course_over edges.now) (at edges.now.legs.now) (at edges.now.cur.now) marks.old b top end end none_left none_left table.old log_stops.old }
    ensures { LookedAt limits (course_over edges.now) (at edges.now.legs.now) (at edges.now.cur.now) b top end table.old log_stops.old log_olds.old (is_err result) (looked_end result) table.new log_stops.new log_olds.new marks.new was.new low.new }
{
    marks[u] = 0;
    let now_end = offer_out(edges, u, table, log_stops, log_olds, end)?;
    let least = note_all(
        edges.stops.owners,
        edges.stops.count,
        log_stops,
        log_olds,
        end,
        now_end,
        d,
        marks,
        was,
        low,
    );
    let past = usize::from(edges.stops.starts[d]) + usize::from(edges.stops.lasts[d]) + 1;
    low[d] = next_marked(marks, usize::from(low[d]), past);
    Ok(Looked {
        top: now_end,
        least,
    })
}

// Brings the table of rounds up to date after the last wait, as `raise` does. It looks at no more stops than the log has entries. It is no twin of `raise`: that one takes the stops from the
// log as they stand there, this one by marks of its own, so that one function of both would be told at every step which way it goes.
pub fn raise_in_order(
    edges: &Edges<'_>,
    table: &mut [u32; Stop::FULL],
    log_stops: &mut [u16; LOG],
    log_olds: &mut [u32; LOG],
    top: usize,
) -> Result<Raised, LogFull>
    requires raisable { RaisableOver limits edges.now × (1 ≤ edges.now.waits.count) × LinkedOver limits edges.now }
    requires log_at { LogAt limits top table.old log_stops.old log_olds.old }
    requires round_table { RoundTable (first_waits (course_over edges.now) (edges.now.waits.count - 1)) (at edges.now.legs.now) (at edges.now.cur.now) (at table.old) }
    ensures { RaisedTable (course_over edges.now) (at edges.now.legs.now) (at edges.now.cur.now) limits top table.old log_stops.old log_olds.old (is_err result) (closes_cycle result) (raised_end result) table.new log_stops.new log_olds.new }
{
    let a = usize::from(edges.waits.from[edges.waits.count - 1]);
    let b = usize::from(edges.waits.into[edges.waits.count - 1]);
    let mut end = offer(
        edges.stops.owners,
        edges.legs,
        edges.cur,
        a,
        b,
        table,
        log_stops,
        log_olds,
        top,
    )?;
    let mut marks = [0u8; Stop::FULL];
    let mut was = [0u32; Stop::FULL];
    let mut low = [NO_STOP; Drone::FULL];
    note_all(
        edges.stops.owners,
        edges.stops.count,
        log_stops,
        log_olds,
        top,
        end,
        0,
        &mut marks,
        &mut was,
        &mut low,
    );
    let mut turn = None;
    for _ in 0..LOG {
        let Some(on) = on_turn(&was, &low, edges.stops.drones, edges.stops.count, turn) else {
            return Ok(Raised::Settled(end));
        };
        let d = on.drone;
        let u = usize::from(low[d]);
        if u == a {
            return Ok(Raised::Cycle(end));
        }
        let looked = look_at(
            edges, b, top, d, u, table, log_stops, log_olds, end, &mut marks, &mut was, &mut low,
        )?;
        end = looked.top;
        turn = Some(Turn {
            limit: on.limit.min(looked.least),
            ..on
        });
    }
    Err(LogFull { top: end })
}
