// The plan check over stops that are numbered through: each stop by itself, then collisions, for which only stops at one location or at near ones are compared.
ghost use Rattle.std.specs.Prelude.{◌≡◌, List, Bool, true, ℕ, ◌+◌, ◌-◌, ◌*◌, ◌≤◌, ◌<◌, ◌++◌, length, take, drop};
ghost use Rattle.below.specs.Below.{at, first_below, fill_below, pick};
ghost use Rattle.tables.specs.Limits.{limits, most_pairs};
ghost use Rattle.near.specs.Near.{meets_in, SoundPairs};
ghost use Rattle.plan.specs.Visits.{visits_of};
ghost use Rattle.plan.specs.Check.{fault_at, over, OwnersRising, partner};
ghost use Rattle.plan.specs.Sharing.{MayBegin, there, Placed, PlacedAhead};
ghost use Rattle.plan.specs.Answers.{stop_at, fault_case, stop_fault_number, check_of, FirstFaultSaid, FirstCollision};
ghost use Rattle.plan.specs.Lent.{visits_held, clash_held, StopsHeld, LinksHeld, WalksHeld};

use crate::lent::{Links, NearLinks, Stops, Walks};
use crate::{groups, sharing};
use tables::entries::{NearPair, Stop};

// A stop by its drone and its number there.
#[derive(Clone, Copy, Debug, PartialEq, Eq)]
pub struct StopAt {
    pub drone: usize,
    pub stop: usize,
}

// Why a stop is refused by itself.
#[derive(Clone, Copy, Debug, PartialEq, Eq)]
pub enum StopFault {
    StartsLate,
    NotRising,
    LegTooLong,
    SameLocation,
}

// The plan check's refusal. It names the stop at fault, a collision both stops.
#[derive(Clone, Copy, Debug, PartialEq, Eq)]
pub enum PlanFault {
    StartsLate(StopAt),
    NotRising(StopAt),
    LegTooLong(StopAt),
    SameLocation(StopAt),
    Collision(StopAt, StopAt),
}

// Why stop v is refused by itself, if it is.
pub fn fault_at(
    numbers: &[u16],
    locations: &[u16],
    times: &[u32],
    legs: &[u8],
    v: usize,
) -> Option<StopFault>
    requires { (v < length numbers.now) × (v < length locations.now) × (v < length times.now) × (v < length legs.now) }
    ensures { (meets : ℕ → ℕ → Bool) (owners : List ℕ) (n : ℕ) → stop_fault_number result ≡ fault_at (visits_of meets owners numbers.now locations.now times.now n) (at legs.now) v }
{
    if numbers[v] == 0 {
        return if times[v] == 0 {
            None
        } else {
            Some(StopFault::StartsLate)
        };
    }
    let earlier = v.saturating_sub(1);
    if times[v] <= times[earlier] {
        return Some(StopFault::NotRising);
    }
    if times[v] - times[earlier] < u32::from(legs[v]) {
        return Some(StopFault::LegTooLong);
    }
    if locations[v] == locations[earlier] {
        return Some(StopFault::SameLocation);
    }
    None
}

// The refusal for a stop at fault.
#[tactic(auto, unfolding(crate::specs::Answers::fault_case))]
fn fault_case(fault: StopFault, stop: StopAt) -> PlanFault
    ensures { Err result ≡ fault_case (stop_fault_number (Some fault)) stop }
{
    match fault {
        StopFault::StartsLate => PlanFault::StartsLate(stop),
        StopFault::NotRising => PlanFault::NotRising(stop),
        StopFault::LegTooLong => PlanFault::LegTooLong(stop),
        StopFault::SameLocation => PlanFault::SameLocation(stop),
    }
}

// Stop v by its drone and its number there.
fn stop_at(owners: &[u8], numbers: &[u16], v: usize) -> StopAt
    requires { (v < length owners.now) × (v < length numbers.now) }
    ensures { result ≡ stop_at (at owners.now) (at numbers.now) v }
{
    StopAt {
        drone: usize::from(owners[v]),
        stop: usize::from(numbers[v]),
    }
}

// The stops by themselves: the first at fault is refused.
fn check_stops(stops: &Stops<'_>, numbers: &[u16], legs: &[u8]) -> Result<(), PlanFault>
    requires { StopsHeld stops.now × (stops.now.count ≤ length numbers.now) × (stops.now.count ≤ length legs.now) }
    ensures { (meets : ℕ → ℕ → Bool) → FirstFaultSaid (visits_held meets stops.now numbers.now) (at legs.now) result }
{
    for v in 0..stops.count {
        if let Some(fault) = fault_at(numbers, stops.locations, stops.times, legs, v) {
            return Err(fault_case(fault, stop_at(stops.owners, numbers, v)));
        }
    }
    Ok(())
}

// Whether v's span is over before the time t. A drone's last span never is.
#[tactic(auto, unfolding(crate::specs::Check::over))]
pub fn over_at(stops: &Stops<'_>, v: usize, t: u32) -> bool
    requires { (stops.now.count ≤ length stops.now.owners.now) × (stops.now.count ≤ length stops.now.times.now) × (v < stops.now.count) }
    ensures { result ≡ over (at stops.now.owners.now) (at stops.now.times.now) stops.now.count v t }
{
    let next = v + 1;
    next < stops.count && stops.owners[next] == stops.owners[v] && stops.times[next] < t
}

// Whether v and w, of a higher drone, stay at one time.
#[tactic(auto, unfolding(crate::specs::Check::clash))]
fn clash_at(stops: &Stops<'_>, v: usize, w: usize) -> bool
    requires { StopsHeld stops.now × (v < stops.now.count) × (w < stops.now.count) }
    ensures { result ≡ clash_held stops.now v w }
{
    stops.owners[v] < stops.owners[w]
        && !over_at(stops, v, stops.times[w])
        && !over_at(stops, w, stops.times[v])
}

// The first stop that clashes with v, of those at one location, whose walk starts at `start`; their count if there is none. Only higher drones count, so a stretch of v's own or
// of a lower one is passed over as a whole.
fn partner_from(stops: &Stops<'_>, links: &Links<'_>, v: usize, start: usize) -> usize
    requires { StopsHeld stops.now × LinksHeld stops.now links.now × (v < stops.now.count) }
    ensures { (g : ℕ) → MayBegin (at stops.now.locations.now) stops.now.count g (clash_held stops.now v) start → result ≡ first_below stops.now.count (there (at stops.now.locations.now) g (clash_held stops.now v)) }
{
    // Copied out before the loop, which would follow the references anew for each stop.
    let stops = *stops;
    let next = links.next;
    let skip = links.skip;
    let mut w = start;
    while w < stops.count {
        if clash_at(&stops, v, w) {
            return w;
        }
        w = sharing::after_stop_in(next, skip, w, stops.owners[w] <= stops.owners[v]);
    }
    w
}

// The first stop that collides with v, or the count: the least over the stops at its location and those at each location near it, where each walk begins at its place.
fn partner_of(walks: &Walks<'_>, places: &[u16; NearPair::NUMBERS], v: usize) -> usize
    requires { StopsHeld walks.now.stops × WalksHeld walks.now × (v < walks.now.stops.count) × Placed walks.now.pairs.now (at walks.now.stops.locations.now) walks.now.stops.count v (clash_held walks.now.stops v) places.now }
    ensures { (numbers : List ℕ) → result ≡ partner (visits_held (meets_in walks.now.pairs.now) walks.now.stops numbers) v }
{
    let first = usize::from(walks.links.first[v]);
    let mut m = partner_from(&walks.stops, &walks.links, v, first);
    let mut k = usize::from(walks.near.heads[v]);
    while k < walks.near.ends {
        let place = usize::from(places[k]);
        let x = partner_from(&walks.stops, &walks.links, v, place);
        m = x.min(m);
        k = usize::from(walks.near.after[k]);
    }
    m
}

// Whether no stop's drone is below that of the stop before it.
fn are_rising(stops: &Stops<'_>) -> bool
    requires { stops.now.count ≤ length stops.now.owners.now }
    ensures { result ≡ true → OwnersRising (at stops.now.owners.now) stops.now.count }
{
    let owners = stops.owners;
    owners[..stops.count].is_sorted()
}

// Every walk begins at its start.
fn place_all(starts: &[u16; Stop::FULL], ends: usize, places: &mut [u16; NearPair::NUMBERS])
    requires { ends ≤ 2 * most_pairs }
    ensures { places.new ≡ take ends starts.now ++ drop ends places.old }
{
    places[..ends].copy_from_slice(&starts[..ends]);
}

// Stop v is done. Where the drones rise, no later stop collides with it: the walks at its location begin after it from now on. Within a stretch they need not, for a walk
// passes over it as a whole.
fn pass(walks: &Walks<'_>, rising: bool, v: usize, places: &mut [u16; NearPair::NUMBERS])
    requires { WalksHeld walks.now × (walks.now.stops.count ≤ limits.stops) × (v < walks.now.stops.count) × PlacedAhead walks.now.pairs.now (at walks.now.stops.locations.now) walks.now.stops.count (pick rising v 0) places.old }
    ensures { PlacedAhead walks.now.pairs.now (at walks.now.stops.locations.now) walks.now.stops.count (pick rising (v + 1) 0) places.new }
{
    if !rising {
        return;
    }
    // Copied out before the loop, which writes to `places` and would follow the references anew after each write.
    let walks = *walks;
    let next = walks.links.next[v];
    if next != walks.links.skip[v] {
        return;
    }
    let mut k = usize::from(walks.near.heads[v]);
    while k < walks.near.ends {
        places[groups::other_end(k)] = next;
        k = usize::from(walks.near.after[k]);
    }
}

// Two stops that collide.
#[derive(Clone, Copy)]
struct Colliders {
    first: usize,
    second: usize,
}

// The first stop that collides with one of a higher drone, and the first that it collides with.
fn first_collider(
    walks: &Walks<'_>,
    rising: bool,
    places: &mut [u16; NearPair::NUMBERS],
) -> Option<Colliders>
    requires { StopsHeld walks.now.stops × WalksHeld walks.now × (rising ≡ true → OwnersRising (at walks.now.stops.owners.now) walks.now.stops.count) × PlacedAhead walks.now.pairs.now (at walks.now.stops.locations.now) walks.now.stops.count 0 places.old }
    ensures { (numbers : List ℕ) → FirstCollision (visits_held (meets_in walks.now.pairs.now) walks.now.stops numbers) result }
{
    for v in 0..walks.stops.count {
        let w = partner_of(walks, places, v);
        if w < walks.stops.count {
            return Some(Colliders {
                first: v,
                second: w,
            });
        }
        pass(walks, rising, v, places);
    }
    None
}

// The same from the start, at a site with near pairs.
fn near_collider(pairs: &[u16], stops: &Stops<'_>, links: &Links<'_>) -> Option<Colliders>
    requires { SoundPairs limits pairs.now × StopsHeld stops.now × LinksHeld stops.now links.now }
    ensures { (numbers : List ℕ) → FirstCollision (visits_held (meets_in pairs.now) stops.now numbers) result }
{
    let mut heads = [0u16; Stop::FULL];
    let mut after = [0u16; Stop::FULL];
    let mut starts = [0u16; Stop::FULL];
    let ends = groups::link(
        pairs,
        stops.locations,
        stops.count,
        &mut heads,
        &mut after,
        &mut starts,
    );
    let mut places = [0u16; NearPair::NUMBERS];
    place_all(&starts, ends, &mut places);
    let near = NearLinks {
        ends,
        heads: &heads,
        after: &after,
        starts: &starts,
    };
    let walks = Walks {
        pairs,
        stops: *stops,
        links: *links,
        near,
    };
    first_collider(&walks, are_rising(stops), &mut places)
}

// The same whether there are near pairs or not. Without them nothing is linked: any tables do, and the walks read none of them.
fn any_collider(pairs: &[u16], stops: &Stops<'_>, links: &Links<'_>) -> Option<Colliders>
    requires { SoundPairs limits pairs.now × StopsHeld stops.now × LinksHeld stops.now links.now }
    ensures { (numbers : List ℕ) → FirstCollision (visits_held (meets_in pairs.now) stops.now numbers) result }
{
    if near::pair_count(pairs) != 0 {
        return near_collider(pairs, stops, links);
    }
    let near = NearLinks {
        ends: 0,
        heads: links.first,
        after: links.first,
        starts: links.first,
    };
    let walks = Walks {
        pairs,
        stops: *stops,
        links: *links,
        near,
    };
    let mut places = [0u16; NearPair::NUMBERS];
    first_collider(&walks, false, &mut places)
}

// The plan check of stops that are linked by their locations.
pub fn check_plan(
    pairs: &[u16],
    stops: &Stops<'_>,
    numbers: &[u16],
    legs: &[u8],
    links: &Links<'_>,
) -> Result<(), PlanFault>
    requires { SoundPairs limits pairs.now × StopsHeld stops.now × (stops.now.count ≤ length numbers.now) × (stops.now.count ≤ length legs.now) × LinksHeld stops.now links.now }
    ensures { result ≡ check_of (visits_held (meets_in pairs.now) stops.now numbers.now) (at legs.now) }
{
    check_stops(stops, numbers, legs)?;
    match any_collider(pairs, stops, links) {
        None => Ok(()),
        Some(found) => Err(PlanFault::Collision(
            stop_at(stops.owners, numbers, found.first),
            stop_at(stops.owners, numbers, found.second),
        )),
    }
}
