// Waits tried and taken back at the end of a list. The links, the table of rounds and the log stand for the waits that are in; where the log has no room, one walk makes the table anew and
// the log starts from 0.
ghost use Rattle.std.specs.Prelude.{Some, is_err, false, ◌≡◌, ℕ, ◌+◌, ◌-◌, ◌≤◌, ◌<◌, length};
ghost use Rattle.below.specs.Below.{at};
ghost use Rattle.tables.specs.Limits.{limits};
ghost use Rattle.precedence.specs.Graph.{cyclic};
ghost use Rattle.cycles.specs.Links.{LinkedWaits};
ghost use Rattle.cycles.specs.Walk.{RoundTable};
ghost use Rattle.raising.specs.Lifting.{log_room, undone, LogAt, first_waits, RaisedTable};
ghost use Rattle.raising.specs.Answers.{closes_cycle, raised_end, is_cycle, is_refilled, trial_end};
ghost use Rattle.raising.specs.UpToDate.{AtVisitedStops};
ghost use Rattle.raising.specs.Lent.{one_more, RaisableOver, LinkedOver, course_over, JudgeableIn, UpToDateIn, MarkedTableIn, TriedIn, TakenBackIn};
ghost use Rattle.cycles.specs.Lent.{plan_held};

use crate::ordered::raise_in_order;
use crate::worklist::{Edges, LOG, LogFull, Raised, fill, link_last, raise, undo, unlink_last};
use cycles::lent::{FlatStops, FlatWaits};
use tables::entries::{Dependency, Drone, Stop};

// What came of a wait that was tried.
#[derive(Clone, Copy, Debug, PartialEq, Eq)]
pub enum Trial {
    // It closes a cycle, and is not in: the log ends where it did.
    Cycle,
    // It is in, and the log goes on to this end.
    Raised(usize),
    // It is in with a fresh table, and the log starts from 0.
    Refilled,
}

// Puts the table back to where the log ended at `mark`, and takes wait m out of the links.
fn withdraw_wait(
    from: &[u16; Dependency::FULL],
    m: usize,
    head: &mut [u16; Stop::FULL],
    next: &[u16; Dependency::FULL],
    table: &mut [u32; Stop::FULL],
    log_stops: &[u16; LOG],
    log_olds: &[u32; LOG],
    mark: usize,
    top: usize,
)
    requires m_lt_dependencies { (m < limits.dependencies) × (at from.now m < limits.stops) × LinkedWaits limits (at from.now) (m + 1) head.old next.now }
    requires top_le_log_room { (top ≤ log_room) × ((j : ℕ) → mark ≤ j → j < top → at log_stops.now j < limits.stops) × (length table.old ≡ limits.stops) }
    ensures { LinkedWaits limits (at from.now) m head.new next.now × (table.new ≡ undone log_stops.now log_olds.now mark (top - mark) table.old) }
{
    undo(mark, top, table, log_stops, log_olds);
    unlink_last(from, m, head, next);
}

// So many stops the plain worklist looks at before it may give up. Most waits raise fewer.
const FEW: usize = 256;

// Brings the table up to date after the last wait: by the plain worklist, and where that has many stops to look at, from the start again in the order of rounds.
fn settle(
    edges: &Edges<'_>,
    table: &mut [u32; Stop::FULL],
    log_stops: &mut [u16; LOG],
    log_olds: &mut [u32; LOG],
    top: usize,
) -> Result<Raised, LogFull>
    requires raisable { RaisableOver limits edges.now × (1 ≤ edges.now.waits.count) × LinkedOver limits edges.now }
    requires log_at { LogAt limits top table.old log_stops.old log_olds.old }
    requires round_table { RoundTable (first_waits (course_over edges.now) (edges.now.waits.count - 1)) (at edges.now.legs.now) (at edges.now.cur.now) (at table.old) }
    ensures { RaisedTable (course_over edges.now) (at edges.now.legs.now) (at edges.now.cur.now) limits top table.old log_stops.old log_olds.old (is_err result) (closes_cycle result) (raised_end result) table.new log_stops.new log_olds.new }
{
    let most = top + FEW;
    let raised = raise(edges, table, log_stops, log_olds, top, most);
    let Err(LogFull { top: end }) = raised else {
        return raised;
    };
    undo(top, end, table, log_stops, log_olds);
    raise_in_order(edges, table, log_stops, log_olds, top)
}

// Tries the wait that comes after `waits`, which are in.
pub fn try_wait(
    stops: &FlatStops<'_>,
    waits: &FlatWaits<'_>,
    legs: &[u8],
    visited: &[u16],
    cur: &[u16; Drone::FULL],
    head: &mut [u16; Stop::FULL],
    next: &mut [u16; Dependency::FULL],
    table: &mut [u32; Stop::FULL],
    log_stops: &mut [u16; LOG],
    log_olds: &mut [u32; LOG],
    top: usize,
) -> Trial
    requires judgeable { JudgeableIn limits stops.now (one_more waits.now) legs.now visited.now × AtVisitedStops limits stops.now.starts.now stops.now.drones visited.now cur.now }
    requires up_to_date { UpToDateIn limits stops.now waits.now legs.now cur.now head.old next.old top table.old log_stops.old log_olds.old }
    ensures { TriedIn limits stops.now waits.now legs.now cur.now top table.old log_stops.old log_olds.old (is_cycle result) (is_refilled result) head.new next.new (trial_end top result) table.new log_stops.new log_olds.new }
{
    let m = waits.count;
    link_last(waits.from, m, head, next);
    let edges = Edges {
        stops: *stops,
        waits: FlatWaits {
            count: m + 1,
            ..*waits
        },
        head,
        next,
        legs,
        cur,
    };
    let raised = settle(&edges, table, log_stops, log_olds, top);
    let end = match raised {
        Ok(Raised::Settled(end)) => return Trial::Raised(end),
        Ok(Raised::Cycle(end)) => end,
        Err(LogFull { top: end }) => {
            let filled = fill(stops, &edges.waits, legs, visited, cur);
            if let Some(rounds) = filled {
                *table = rounds;
                return Trial::Refilled;
            }
            end
        }
    };
    withdraw_wait(
        waits.from, m, head, next, table, log_stops, log_olds, top, end,
    );
    Trial::Cycle
}

// Takes the waits from m on out of the links, the first w being linked.
fn unlink_from(
    from: &[u16; Dependency::FULL],
    w: usize,
    m: usize,
    head: &mut [u16; Stop::FULL],
    next: &[u16; Dependency::FULL],
)
    requires { (m ≤ w) × (w ≤ limits.dependencies) × ((k : ℕ) → k < w → at from.now k < limits.stops) × LinkedWaits limits (at from.now) w head.old next.now }
    ensures { LinkedWaits limits (at from.now) m head.new next.now }
{
    for k in (m..w).rev() {
        unlink_last(from, k, head, next);
    }
}

// Goes back to `waits`, the first `held` being in: by the log to their mark if that is known, or else by one walk. Answers where the log ends.
pub fn take_back(
    stops: &FlatStops<'_>,
    waits: &FlatWaits<'_>,
    held: usize,
    legs: &[u8],
    visited: &[u16],
    cur: &[u16; Drone::FULL],
    head: &mut [u16; Stop::FULL],
    next: &[u16; Dependency::FULL],
    table: &mut [u32; Stop::FULL],
    log_stops: &[u16; LOG],
    log_olds: &[u32; LOG],
    mark: Option<usize>,
    top: usize,
) -> usize
    requires judgeable { JudgeableIn limits stops.now waits.now legs.now visited.now × AtVisitedStops limits stops.now.starts.now stops.now.drones visited.now cur.now × (cyclic (plan_held stops.now waits.now) ≡ false) }
    requires m_le_w { (waits.now.count ≤ held) × (held ≤ limits.dependencies) × ((k : ℕ) → k < held → at waits.now.from.now k < limits.stops) × LinkedWaits limits (at waits.now.from.now) held head.old next.now }
    requires log_at { LogAt limits top table.old log_stops.now log_olds.now × ((at_mark : ℕ) → mark ≡ Some at_mark → MarkedTableIn limits stops.now waits.now legs.now cur.now at_mark top table.old log_stops.now log_olds.now) }
    ensures { TakenBackIn limits stops.now waits.now legs.now cur.now mark top table.old log_stops.now log_olds.now head.new next.now result table.new }
{
    unlink_from(waits.from, held, waits.count, head, next);
    if let Some(mark) = mark {
        undo(mark, top, table, log_stops, log_olds);
        return mark;
    }
    let filled = fill(stops, waits, legs, visited, cur);
    *table = filled.unwrap();
    0
}
