// How far one plan's tables come through the tests before a joining: full sizes, sound, not started. What is asked of both plans: one site, and the later of their forms.
ghost use Rattle.std.specs.Prelude.{not, ◌&&◌, ◌≡◌, ◌*◌, ◌≤◌, max, eqb, length};
ghost use Rattle.below.specs.Below.{all_below, at};
ghost use Rattle.tables.specs.Limits.{limits, most_pairs};
ghost use Rattle.tables.specs.Lent.{lent_tables};
ghost use Rattle.tables.specs.Flags.{turned_bit, under_way_bit, withdrawn_bit};
ghost use Rattle.joining.specs.Joining.{same_pairs};
ghost use Rattle.joining.specs.Standing.{standing_of, earlier};

use tables::entries::NearPair;
use tables::lent::{Plan, Sides};
use tables::{flags as bits, sizes};

// The test that a plan's tables fail, in the order of the tests.
#[derive(Clone, Copy, Debug, PartialEq, Eq, PartialOrd, Ord)]
pub enum StandingFault {
    Small,
    Unsound,
    Started,
}

// Every drone stands at its stop 0, and nobody is under way or withdrawn.
fn all_at_start(drones: usize, visited: &[u16], drone_flags: &[u8]) -> bool
    requires { (drones ≤ length visited.now) × (drones ≤ length drone_flags.now) }
    ensures { result ≡ all_below drones (λ d. eqb (at visited.now d) 0 && (not (under_way_bit (at drone_flags.now d)) && not (withdrawn_bit (at drone_flags.now d)))) }
{
    (0..drones).all(|d| {
        visited[d] == 0
            && !bits::is_under_way(drone_flags[d])
            && !bits::is_withdrawn(drone_flags[d])
    })
}

// No dependency is turned.
fn none_turned(count: usize, flags: &[u8]) -> bool
    requires { count ≤ length flags.now }
    ensures { result ≡ all_below count (λ w. not (turned_bit (at flags.now w))) }
{
    flags[..count].iter().all(|f| !bits::is_turned(*f))
}

// Two tables of pairs are the same.
pub fn same_pairs(pairs: &[u16], others: &[u16]) -> bool
    requires { (2 * most_pairs ≤ length pairs.now) × (2 * most_pairs ≤ length others.now) }
    ensures { result ≡ same_pairs pairs.now others.now }
{
    pairs[..NearPair::NUMBERS] == others[..NearPair::NUMBERS]
}

// "joining one of each gives `plan=2`".
pub fn later_form(form: &[u8], other: &[u8]) -> u8
    requires { (1 ≤ length form.now) × (1 ≤ length other.now) }
    ensures { result ≡ max (at form.now 0) (at other.now 0) }
{
    form[0].max(other[0])
}

// The tests of one plan, in their order.
#[tactic(auto, unfolding(crate::specs::Standing::standing_of, crate::specs::Joining::unstarted))]
pub fn tested(
    plan: &Plan<'_>,
    visited: &[u16],
    drone_flags: &[u8],
    sides: &Sides<'_>,
    flags: &[u8],
) -> Result<(), StandingFault>
    ensures { result ≡ standing_of limits (lent_tables plan.now visited.now drone_flags.now sides.now flags.now) }
{
    if !sizes::full_size(plan, visited, drone_flags, sides, flags) {
        return Err(StandingFault::Small);
    }
    if !sound::is_sound(plan, visited, drone_flags, sides, flags) {
        return Err(StandingFault::Unsound);
    }
    if !all_at_start(usize::from(plan.drone_count[0]), visited, drone_flags) {
        return Err(StandingFault::Started);
    }
    if !none_turned(usize::from(plan.dependency_count[0]), flags) {
        return Err(StandingFault::Started);
    }
    Ok(())
}

// Of two plans, the earlier test that either fails.
pub fn first_failed(
    first: Result<(), StandingFault>,
    second: Result<(), StandingFault>,
) -> Result<(), StandingFault>
    ensures { result ≡ earlier first second }
{
    match (first, second) {
        (Err(one), Err(other)) => Err(one.min(other)),
        (Err(one), Ok(())) => Err(one),
        (Ok(()), _) => second,
    }
}
