// The waits arranged for the search: those of the dependencies that are not open first, then those of the open ones.
ghost use Rattle.std.specs.Prelude.{◌≡◌, ℕ, ◌+◌, ◌≤◌, ◌<◌, eqb, length};
ghost use Rattle.below.specs.Below.{at, count_below};
ghost use Rattle.tables.specs.Limits.{limits};
ghost use Rattle.choices.specs.Searching.{choice_in};
ghost use Rattle.orders.specs.Arranged.{marked_open, GatheredWaits};
ghost use Rattle.orders.specs.Questions.{MarkedSearchable, marked_reply};
ghost use Rattle.orders.specs.Replies.{search_told};

use crate::search::{Found, OverBudget, Question, search};
use cycles::lent::{FlatStops, FlatWaits};
use tables::entries::Dependency;

// Copies the waits of those dependencies that are marked with `kind`, in number order, from the position `spot` on; gives the position after them.
fn gather(
    opens: &[u8; Dependency::FULL],
    kind: u8,
    waits: &FlatWaits<'_>,
    spot: usize,
    f: &mut [u16; Dependency::FULL],
    i: &mut [u16; Dependency::FULL],
) -> usize
    requires { (waits.now.count ≤ limits.dependencies) × (spot + count_below waits.now.count (λ w. eqb (at opens.now w) kind) ≤ limits.dependencies) × (length f.old ≡ limits.dependencies) × (length i.old ≡ limits.dependencies) }
    ensures { GatheredWaits (λ w. eqb (at opens.now w) kind) waits.now.count waits.now.from.now waits.now.into.now spot f.old i.old f.new i.new result }
{
    let mut next = spot;
    for w in 0..waits.count {
        if opens[w] != kind {
            continue;
        }
        f[next] = waits.from[w];
        i[next] = waits.into[w];
        next += 1;
    }
    next
}

// Searches the choices of the open ones among the dependencies; the best choice is left in `chosen`.
pub fn search_marked(
    stops: &FlatStops<'_>,
    waits: &FlatWaits<'_>,
    legs: &[u8],
    visited: &[u16],
    opens: &[u8; Dependency::FULL],
    budget: usize,
    chosen: &mut [u8; Dependency::FULL],
) -> Result<Found, OverBudget>
    requires { MarkedSearchable limits stops.now waits.now (marked_open opens.now) legs.now visited.now × ((w : ℕ) → w < waits.now.count → at opens.now w ≤ 1) × (length chosen.old ≡ limits.dependencies) }
    ensures { search_told result (choice_in chosen.new (count_below waits.now.count (marked_open opens.now))) ≡ marked_reply stops.now waits.now (marked_open opens.now) legs.now visited.now budget }
{
    let mut from = [0u16; Dependency::FULL];
    let mut into = [0u16; Dependency::FULL];
    let shut = gather(opens, 0, waits, 0, &mut from, &mut into);
    let end = gather(opens, 1, waits, shut, &mut from, &mut into);
    let question = Question {
        stops: *stops,
        from: &from,
        into: &into,
        shut,
        open: end - shut,
        legs,
        visited,
    };
    let mut f = [0u16; Dependency::FULL];
    let mut i = [0u16; Dependency::FULL];
    gather(opens, 0, waits, 0, &mut f, &mut i);
    search(&question, budget, &mut f, &mut i, chosen)
}
