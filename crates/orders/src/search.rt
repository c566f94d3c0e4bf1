// The search for the cheapest directions. Choices stand in `dirs`, 1 for turned; their waits in `f` and `i`, of which those past the decided ones are not looked at. The links, the table of
// rounds and the log stand for the choice in hand (crate `raising`), so that a choice costs what it changes.
ghost use Rattle.std.specs.Prelude.{true, false, Some, None, List, ◌≡◌, ℕ, ◌+◌, ◌*◌, ◌-◌, ◌≤◌, ◌<◌, length, set};
ghost use Rattle.below.specs.Below.{at, pick, sum_below};
ghost use Rattle.tables.specs.Limits.{limits};
ghost use Rattle.choices.specs.Searching.{choice_in};
ghost use Rattle.raising.specs.UpToDate.{AtVisitedStops};
ghost use Rattle.orders.specs.Arranged.{Decided};
ghost use Rattle.orders.specs.Questions.{SearchableIn, OnPathIn, question_reply};
ghost use Rattle.orders.specs.Replies.{search_told};

use choices::search::{admits, keep, step_back};
use cycles::lent::{FlatStops, FlatWaits};
use cycles::linking::link;
use raising::trying::{Trial, take_back, try_wait};
use raising::worklist::{LOG, fill};
use rounds::chains::{at_visited, last_rounds};
use tables::entries::{Dependency, Drone, Stop};

// The least cost, and how many choices were entered.
#[derive(Clone, Copy, Debug, PartialEq, Eq)]
pub struct Found {
    pub cost: usize,
    pub count: usize,
}

// The budget ended the search: as many choices as it allows were entered, and the full walk would enter more.
#[derive(Clone, Copy, Debug, PartialEq, Eq)]
pub struct OverBudget {
    pub count: usize,
}

// What is searched: the stops and the waits in the order now in force, first those that are not open (`shut` of them) and then the open ones; the leg into each stop, and the stop that
// each drone has visited last.
#[derive(Clone, Copy)]
pub struct Question<'a> {
    pub stops: FlatStops<'a>,
    pub from: &'a [u16; Dependency::FULL],
    pub into: &'a [u16; Dependency::FULL],
    pub shut: usize,
    pub open: usize,
    pub legs: &'a [u8],
    pub visited: &'a [u16],
}

// Whether the choice in hand has a cycle; how many of its waits are in; the shortest choice that the log leads back to; where the log ends.
#[derive(Clone, Copy)]
struct Place {
    cyclic: bool,
    held: usize,
    base: usize,
    top: usize,
}

// The cost of the choice in hand; none of one with a cycle.
fn cost_in(stops: &FlatStops<'_>, cyclic: bool, table: &[u32; Stop::FULL]) -> Option<usize>
    requires { (stops.now.drones ≤ limits.drones) × ((d : ℕ) → d < stops.now.drones → at stops.now.starts.now d + at stops.now.lasts.now d < limits.stops) × (cyclic ≡ false → (d : ℕ) → d < stops.now.drones → at table.now (at stops.now.starts.now d + at stops.now.lasts.now d) ≤ limits.leg * limits.stops) }
    ensures { (cyclic ≡ true → result ≡ None) × (cyclic ≡ false → result ≡ Some (sum_below stops.now.drones (λ d. at table.now (at stops.now.starts.now d + at stops.now.lasts.now d)))) }
{
    if cyclic {
        return None;
    }
    Some(last_rounds(stops.starts, stops.lasts, stops.drones, table))
}

// The stop that a wait is for and the one that it is into, as it is or turned. Turned, who waited to enter a stop is awaited to leave it, and whose leaving was awaited waits to enter.
fn in_direction(turned: bool, from: u16, into: u16) -> (u16, u16)
    requires { (1 ≤ from) × (into < limits.stops) }
    ensures { (result.0 ≡ pick turned (into + 1) from) × (result.1 ≡ pick turned (from - 1) into) }
{
    if turned {
        (into + 1, from - 1)
    } else {
        (from, into)
    }
}

// Decides the dependency after the first `depth`. The tables that change stay parameters beside each other: with no heap, a struct that owns them would be made of copies.
fn decide(
    question: &Question<'_>,
    cur: &[u16; Drone::FULL],
    turned: bool,
    depth: usize,
    dirs: &mut [u8; Dependency::FULL],
    f: &mut [u16; Dependency::FULL],
    i: &mut [u16; Dependency::FULL],
    head: &mut [u16; Stop::FULL],
    next: &mut [u16; Dependency::FULL],
    marks: &mut [u16; Dependency::FULL],
    table: &mut [u32; Stop::FULL],
    log_stops: &mut [u16; LOG],
    log_olds: &mut [u32; LOG],
    base: usize,
    top: usize,
) -> Place
    requires searchable { SearchableIn limits question.now × AtVisitedStops limits question.now.stops.starts.now question.now.stops.drones question.now.visited.now cur.now × (depth < question.now.open) }
    requires on_path { OnPathIn limits question.now cur.now dirs.old depth (question.now.shut + depth) base false f.old i.old head.old next.old marks.old top table.old log_stops.old log_olds.old }
    ensures { OnPathIn limits question.now cur.now dirs.new (depth + 1) result.held result.base result.cyclic f.new i.new head.new next.new marks.new result.top table.new log_stops.new log_olds.new × (dirs.new ≡ set dirs.old depth (pick turned 1 0)) }
{
    let m = question.shut + depth;
    dirs[depth] = u8::from(turned);
    let (stop, entered) = in_direction(turned, question.from[m], question.into[m]);
    f[m] = stop;
    i[m] = entered;
    marks[depth] = top as u16;
    let waits = FlatWaits {
        from: f,
        into: i,
        count: m,
    };
    let trial = try_wait(
        &question.stops,
        &waits,
        question.legs,
        question.visited,
        cur,
        head,
        next,
        table,
        log_stops,
        log_olds,
        top,
    );
    match trial {
        Trial::Cycle => Place {
            cyclic: true,
            held: m,
            base,
            top,
        },
        Trial::Raised(end) => Place {
            cyclic: false,
            held: m + 1,
            base,
            top: end,
        },
        Trial::Refilled => Place {
            cyclic: false,
            held: m + 1,
            base: depth + 1,
            top: 0,
        },
    }
}

// Goes back to the first `to` decided ones of the choice in hand.
fn go_back(
    question: &Question<'_>,
    cur: &[u16; Drone::FULL],
    dirs: &[u8; Dependency::FULL],
    depth: usize,
    to: usize,
    f: &[u16; Dependency::FULL],
    i: &[u16; Dependency::FULL],
    head: &mut [u16; Stop::FULL],
    next: &[u16; Dependency::FULL],
    marks: &[u16; Dependency::FULL],
    table: &mut [u32; Stop::FULL],
    log_stops: &[u16; LOG],
    log_olds: &[u32; LOG],
    place: Place,
) -> Place
    requires searchable { SearchableIn limits question.now × AtVisitedStops limits question.now.stops.starts.now question.now.stops.drones question.now.visited.now cur.now × (depth ≤ question.now.open) × (to < depth) }
    requires on_path { OnPathIn limits question.now cur.now dirs.now depth place.held place.base place.cyclic f.now i.now head.old next.now marks.now place.top table.old log_stops.now log_olds.now }
    ensures { OnPathIn limits question.now cur.now dirs.now to (question.now.shut + to) result.base false f.now i.now head.new next.now marks.now result.top table.new log_stops.now log_olds.now }
{
    let m = question.shut + to;
    let known = place.base <= to;
    let mark = known.then_some(usize::from(marks[to]));
    let waits = FlatWaits {
        from: f,
        into: i,
        count: m,
    };
    let end = take_back(
        &question.stops,
        &waits,
        place.held,
        question.legs,
        question.visited,
        cur,
        head,
        next,
        table,
        log_stops,
        log_olds,
        mark,
        place.top,
    );
    Place {
        cyclic: false,
        held: m,
        base: place.base.min(to),
        top: end,
    }
}

// Searches the choices of the open dependencies, the empty one in hand. It tries at most 2 * budget waits.
fn search_from(
    question: &Question<'_>,
    cur: &[u16; Drone::FULL],
    budget: usize,
    dirs: &mut [u8; Dependency::FULL],
    f: &mut [u16; Dependency::FULL],
    i: &mut [u16; Dependency::FULL],
    head: &mut [u16; Stop::FULL],
    next: &mut [u16; Dependency::FULL],
    marks: &mut [u16; Dependency::FULL],
    table: &mut [u32; Stop::FULL],
    log_stops: &mut [u16; LOG],
    log_olds: &mut [u32; LOG],
    chosen: &mut [u8; Dependency::FULL],
) -> Result<Found, OverBudget>
    requires searchable { SearchableIn limits question.now × AtVisitedStops limits question.now.stops.starts.now question.now.stops.drones question.now.visited.now cur.now × (length chosen.old ≡ limits.dependencies) }
    requires on_path { OnPathIn limits question.now cur.now dirs.old 0 question.now.shut 0 false f.old i.old head.old next.old marks.old 0 table.old log_stops.old log_olds.old }
    ensures { search_told result (choice_in chosen.new question.now.open) ≡ question_reply question.now budget }
{
    let mut depth: usize = 0;
    let mut count: usize = 0;
    let mut best = None;
    let mut place = Place {
        cyclic: false,
        held: question.shut,
        base: 0,
        top: 0,
    };
    loop {
        let cost = cost_in(&question.stops, place.cyclic, table);
        if admits(cost, best) {
            if count == budget {
                return Err(OverBudget { count });
            }
            count += 1;
            if depth < question.open {
                place = decide(
                    question, cur, false, depth, dirs, f, i, head, next, marks, table, log_stops,
                    log_olds, place.base, place.top,
                );
                depth += 1;
                continue;
            }
            keep(dirs, question.open, chosen);
            best = cost;
        }
        let to = step_back(dirs, depth);
        if to == 0 {
            break;
        }
        let last = to - 1;
        let back = go_back(
            question, cur, dirs, depth, last, f, i, head, next, marks, table, log_stops, log_olds,
            place,
        );
        place = decide(
            question, cur, true, last, dirs, f, i, head, next, marks, table, log_stops, log_olds,
            back.base, back.top,
        );
        depth = to;
    }
    // The choice that leaves all has no cycle: there is a best one.
    Ok(Found {
        cost: best.unwrap(),
        count,
    })
}

// Searches the choices of the open dependencies; f and i hold the waits of those that are not open. The best choice is left in `chosen`.
pub fn search(
    question: &Question<'_>,
    budget: usize,
    f: &mut [u16; Dependency::FULL],
    i: &mut [u16; Dependency::FULL],
    chosen: &mut [u8; Dependency::FULL],
) -> Result<Found, OverBudget>
    requires searchable { SearchableIn limits question.now × ((dirs : List ℕ) → Decided question.now.from.now question.now.into.now question.now.shut dirs 0 f.old i.old) }
    requires f_len { (length f.old ≡ limits.dependencies) × (length i.old ≡ limits.dependencies) × (length chosen.old ≡ limits.dependencies) }
    ensures { search_told result (choice_in chosen.new question.now.open) ≡ question_reply question.now budget }
{
    let mut cur = [0u16; Drone::FULL];
    at_visited(
        question.stops.starts,
        question.visited,
        question.stops.drones,
        &mut cur,
    );
    let mut head = [0u16; Stop::FULL];
    let mut next = [0u16; Dependency::FULL];
    link(f, question.shut, &mut head, &mut next);
    let waits = FlatWaits {
        from: f,
        into: i,
        count: question.shut,
    };
    let filled = fill(
        &question.stops,
        &waits,
        question.legs,
        question.visited,
        &cur,
    );
    let mut table = filled.unwrap();
    let mut log_stops = [0u16; LOG];
    let mut log_olds = [0u32; LOG];
    let mut marks = [0u16; Dependency::FULL];
    let mut dirs = [0u8; Dependency::FULL];
    search_from(
        question,
        &cur,
        budget,
        &mut dirs,
        f,
        i,
        &mut head,
        &mut next,
        &mut marks,
        &mut table,
        &mut log_stops,
        &mut log_olds,
        chosen,
    )
}
