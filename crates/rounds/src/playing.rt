// Rounds played on a copy of the drones' places until every drone stands at its last stop. The waits are linked by the stop that they are into, and each drone has a link that moves on past
// the waits that are met: a round takes time linear in the drones, and each wait is passed once. First every drone looks who is where, at the round's start, then they go on.
ghost use Rattle.std.specs.Prelude.{◌≡◌, ℕ, ◌+◌, ◌-◌, ◌≤◌, ◌<◌, length, ltb, leb};
ghost use Rattle.below.specs.Below.{count_below, fill_below, at};
ghost use Rattle.tables.specs.Limits.{limits};
ghost use Rattle.precedence.specs.Graph.{cost, makespan};
ghost use Rattle.cycles.specs.Lent.{plan_held, TablesHeld};
ghost use Rattle.cycles.specs.Links.{LinkedWaits};
ghost use Rattle.rounds.specs.Remaining.{ReadyIn, OwnedStop, flat_leg};
ghost use Rattle.rounds.specs.Playing.{NextWaits, ScannedAt, Looked, SteppedOne, SteppedBelow, Aloft, Flew};

use cycles::lent::{FlatStops, FlatWaits};
use cycles::linking::link;
use tables::entries::{Dependency, Drone, Stop};

// The rounds until every drone stands at its last stop, and the sum of the drones' remaining rounds.
#[derive(Clone, Copy, Debug, PartialEq, Eq)]
pub struct Played {
    pub rounds: usize,
    pub cost: usize,
}

// Whether the stop that wait k awaits is visited.
fn is_met(
    stops: &FlatStops<'_>,
    waits: &FlatWaits<'_>,
    places: &[u16; Drone::FULL],
    k: usize,
) -> bool
    requires { (k < limits.dependencies) × OwnedStop limits stops.now.owners.now (at stops.now.starts.now) (at waits.now.from.now k) }
    ensures { result ≡ leb (at waits.now.from.now k - at stops.now.starts.now (at stops.now.owners.now (at waits.now.from.now k))) (at places.now (at stops.now.owners.now (at waits.now.from.now k))) }
{
    let a = usize::from(waits.from[k]);
    let e = usize::from(stops.owners[a]);
    a <= usize::from(stops.starts[e]) + usize::from(places[e])
}

// The link of drone d, moved on past the waits that are met: 0 if they all are. A wait that is met stays met, so that none is looked at again.
fn look(
    stops: &FlatStops<'_>,
    waits: &FlatWaits<'_>,
    next: &[u16; Dependency::FULL],
    places: &[u16; Drone::FULL],
    d: usize,
    link: u16,
) -> u16
    requires { TablesHeld limits stops.now waits.now × NextWaits (at waits.now.into.now) waits.now.count next.now × (d < stops.now.drones) × ScannedAt (plan_held stops.now waits.now) (at waits.now.into.now) (at stops.now.starts.now) (at places.now) d link }
    ensures { Looked (plan_held stops.now waits.now) (at waits.now.into.now) (at stops.now.starts.now) (at places.now) d result }
{
    if stops.lasts[d] <= places[d] {
        return link;
    }
    let mut wait = link;
    while 0 < wait {
        let k = usize::from(wait) - 1;
        if !is_met(stops, waits, places, k) {
            return wait;
        }
        wait = next[k];
    }
    wait
}

// The same of every drone, by the places at the round's start.
fn look_all(
    stops: &FlatStops<'_>,
    waits: &FlatWaits<'_>,
    next: &[u16; Dependency::FULL],
    places: &[u16; Drone::FULL],
    links: &mut [u16; Drone::FULL],
)
    requires { TablesHeld limits stops.now waits.now × NextWaits (at waits.now.into.now) waits.now.count next.now × (length links.old ≡ limits.drones) × ((d : ℕ) → d < stops.now.drones → ScannedAt (plan_held stops.now waits.now) (at waits.now.into.now) (at stops.now.starts.now) (at places.now) d (at links.old d)) }
    ensures { (length links.new ≡ limits.drones) × ((d : ℕ) → d < stops.now.drones → Looked (plan_held stops.now waits.now) (at waits.now.into.now) (at stops.now.starts.now) (at places.now) d (at links.new d)) }
{
    for d in 0..stops.drones {
        links[d] = look(stops, waits, next, places, d, links[d]);
    }
}

// The first link of the waits into stop v; 0 past all stops.
fn link_at(head: &[u16; Stop::FULL], v: usize) -> u16
    ensures { v < limits.stops → result ≡ at head.now v }
{
    if v < Stop::FULL { head[v] } else { 0 }
}

// A round of drone d: if it is short of its last stop and no wait is left, it flies a round more, and comes to its next stop when its leg is full.
fn go_on(
    stops: &FlatStops<'_>,
    legs: &[u8],
    head: &[u16; Stop::FULL],
    d: usize,
    places: &mut [u16; Drone::FULL],
    flown: &mut [u8; Drone::FULL],
    links: &mut [u16; Drone::FULL],
)
    requires d_lt_drones { (d < limits.drones) × (at stops.now.starts.now d + at stops.now.lasts.now d < limits.stops) × (at stops.now.starts.now d + at stops.now.lasts.now d < length legs.now) × (at places.old d < at stops.now.lasts.now d → at flown.old d ≤ limits.leg) }
    requires places_len { (length places.old ≡ limits.drones) × (length flown.old ≡ limits.drones) × (length links.old ≡ limits.drones) }
    ensures { SteppedOne (at stops.now.starts.now) (at stops.now.lasts.now) (at legs.now) (at head.now) d places.old places.new flown.old flown.new links.old links.new }
{
    let place = places[d];
    if stops.lasts[d] <= place {
        return;
    }
    if links[d] != 0 {
        return;
    }
    let v = usize::from(stops.starts[d]) + usize::from(place) + 1;
    let gone = flown[d] + 1;
    if gone < legs[v] {
        flown[d] = gone;
        return;
    }
    places[d] = place + 1;
    flown[d] = 0;
    links[d] = link_at(head, v + 1);
}

// A round of every drone.
fn go_on_all(
    stops: &FlatStops<'_>,
    legs: &[u8],
    head: &[u16; Stop::FULL],
    places: &mut [u16; Drone::FULL],
    flown: &mut [u8; Drone::FULL],
    links: &mut [u16; Drone::FULL],
)
    requires drones_le_drones { (stops.now.drones ≤ limits.drones) × ((d : ℕ) → d < stops.now.drones → (at stops.now.starts.now d + at stops.now.lasts.now d < limits.stops) × (at stops.now.starts.now d + at stops.now.lasts.now d < length legs.now)) × ((d : ℕ) → d < stops.now.drones → at places.old d < at stops.now.lasts.now d → at flown.old d ≤ limits.leg) }
    requires places_len { (length places.old ≡ limits.drones) × (length flown.old ≡ limits.drones) × (length links.old ≡ limits.drones) }
    ensures { SteppedBelow (at stops.now.starts.now) (at stops.now.lasts.now) (at legs.now) (at head.now) stops.now.drones places.old places.new flown.old flown.new links.old links.new }
{
    for d in 0..stops.drones {
        go_on(stops, legs, head, d, places, flown, links);
    }
}

// One round: who goes on is judged by the places at its start.
fn play_round(
    stops: &FlatStops<'_>,
    waits: &FlatWaits<'_>,
    legs: &[u8],
    head: &[u16; Stop::FULL],
    next: &[u16; Dependency::FULL],
    places: &mut [u16; Drone::FULL],
    flown: &mut [u8; Drone::FULL],
    links: &mut [u16; Drone::FULL],
)
    requires { TablesHeld limits stops.now waits.now × LinkedWaits limits (at waits.now.into.now) waits.now.count head.now next.now × (stops.now.count ≤ length legs.now) × ((v : ℕ) → v < stops.now.count → at legs.now v ≤ limits.leg) × Aloft limits (plan_held stops.now waits.now) (at waits.now.into.now) (at stops.now.starts.now) places.old flown.old links.old }
    ensures { Aloft limits (plan_held stops.now waits.now) (at waits.now.into.now) (at stops.now.starts.now) places.new flown.new links.new × Flew (plan_held stops.now waits.now) (flat_leg (at stops.now.starts.now) (at legs.now)) places.old flown.old places.new flown.new }
{
    look_all(stops, waits, next, places, links);
    go_on_all(stops, legs, head, places, flown, links);
}

// How many drones are short of their last stop.
fn unfinished(stops: &FlatStops<'_>, places: &[u16; Drone::FULL]) -> usize
    requires { stops.now.drones ≤ limits.drones }
    ensures { (result ≡ count_below stops.now.drones (λ d. ltb (at places.now d) (at stops.now.lasts.now d))) × (result ≤ stops.now.drones) }
{
    let mut count: usize = 0;
    for d in 0..stops.drones {
        if places[d] < stops.lasts[d] {
            count += 1;
        }
    }
    count
}

// The drones' places, copied.
fn copy_places(visited: &[u16], drones: usize, places: &mut [u16; Drone::FULL])
    requires { (drones ≤ limits.drones) × (drones ≤ length visited.now) × (length places.old ≡ limits.drones) }
    ensures { places.new ≡ fill_below drones (at visited.now) places.old }
{
    places[..drones].copy_from_slice(&visited[..drones]);
}

// The links at the places where the drones begin.
fn first_links(
    stops: &FlatStops<'_>,
    head: &[u16; Stop::FULL],
    places: &[u16; Drone::FULL],
    links: &mut [u16; Drone::FULL],
)
    requires { (stops.now.drones ≤ limits.drones) × (length links.old ≡ limits.drones) }
    ensures { (length links.new ≡ limits.drones) × ((d : ℕ) → d < stops.now.drones → at stops.now.starts.now d + at places.now d + 1 < limits.stops → at links.new d ≡ at head.now (at stops.now.starts.now d + at places.now d + 1)) }
{
    for d in 0..stops.drones {
        links[d] = link_at(
            head,
            usize::from(stops.starts[d]) + usize::from(places[d]) + 1,
        );
    }
}

// Plays the remaining rounds on a copy; a drone under way counts its full leg.
pub fn play_rounds(
    stops: &FlatStops<'_>,
    waits: &FlatWaits<'_>,
    legs: &[u8],
    visited: &[u16],
) -> Played
    requires { ReadyIn limits stops.now waits.now legs.now visited.now }
    ensures { (result.rounds ≡ makespan (plan_held stops.now waits.now) (flat_leg (at stops.now.starts.now) (at legs.now)) (at visited.now)) × (result.cost ≡ cost (plan_held stops.now waits.now) (flat_leg (at stops.now.starts.now) (at legs.now)) (at visited.now)) }
{
    let mut head = [0u16; Stop::FULL];
    let mut next = [0u16; Dependency::FULL];
    link(waits.into, waits.count, &mut head, &mut next);
    let mut places = [0u16; Drone::FULL];
    copy_places(visited, stops.drones, &mut places);
    let mut flown = [0u8; Drone::FULL];
    let mut links = [0u16; Drone::FULL];
    first_links(stops, &head, &places, &mut links);
    let mut k: usize = 0;
    let mut cost: usize = 0;
    let rounds = loop {
        let left = unfinished(stops, &places);
        if left == 0 {
            break k;
        }
        cost += left;
        play_round(
            stops,
            waits,
            legs,
            &head,
            &next,
            &mut places,
            &mut flown,
            &mut links,
        );
        k += 1;
    };
    Played { rounds, cost }
}
