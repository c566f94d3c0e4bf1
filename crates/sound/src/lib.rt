// The sound test: whether lent tables are sound, whatever they hold. The counts are tested first, then names and stops, then the records, which then name stops; so no number is used as an
// index before it is known to be one.
#![tactic(auto)]

mod counts;
pub mod entered;
pub mod graph;
mod names;
mod progress;
pub mod records;
mod single;
mod unused;

ghost use Rattle.std.specs.Prelude.{true, ◌≡◌};
ghost use Rattle.tables.specs.Limits.{limits};
ghost use Rattle.tables.specs.Tables.{full_size};
ghost use Rattle.tables.specs.Lent.{lent_tables};
ghost use Rattle.sound.specs.Sound.{sound};
ghost use Rattle.sound.specs.Asked.{WaitsInForce, Room};

use tables::entries::{Dependency, Drone, Stop};
use tables::lent::{Plan, Sides};

// Whether tables of full size are sound. If so, it leaves the graph now in force in the last five tables.
pub fn check(
    plan: &Plan<'_>,
    visited: &[u16],
    drone_flags: &[u8],
    sides: &Sides<'_>,
    flags: &[u8],
    owners: &mut [u8; Stop::FULL],
    starts: &mut [u16; Drone::FULL],
    lasts: &mut [u16; Drone::FULL],
    from: &mut [u16; Dependency::FULL],
    into: &mut [u16; Dependency::FULL],
) -> bool
    requires at_full_size { full_size limits (lent_tables plan.now visited.now drone_flags.now sides.now flags.now) ≡ true }
    requires room { Room limits owners.old starts.old lasts.old from.old into.old }
    ensures { (result ≡ sound limits (lent_tables plan.now visited.now drone_flags.now sides.now flags.now))
        × (result ≡ true → WaitsInForce limits (lent_tables plan.now visited.now drone_flags.now sides.now flags.now)
        owners.new starts.new lasts.new from.new into.new) }
{
    let drones = usize::from(plan.drone_count[0]);
    let m = usize::from(plan.dependency_count[0]);
    let form = plan.form[0];
    if !counts::counts_sound(drones, form, plan.stop_counts, m) {
        return false;
    }
    let n = plan::stops::stop_total(drones, plan.stop_counts);
    if !names::lists_sound(plan.names, drones, plan.pairs) {
        return false;
    }
    if !graph::graph_sound(
        plan,
        drone_flags,
        sides,
        flags,
        drones,
        n,
        m,
        form,
        owners,
        starts,
        lasts,
        from,
        into,
    ) {
        return false;
    }
    if !progress::drones_sound(drones, plan.stop_counts, visited, drone_flags) {
        return false;
    }
    if !progress::waits_kept(visited, drone_flags, sides, flags, m) {
        return false;
    }
    if !unused::plan_unused(plan, sides, drones, n, m) {
        return false;
    }
    unused::progress_unused(drones, m, visited, drone_flags, flags)
}

// Whether tables of full size are sound.
pub fn is_sound(
    plan: &Plan<'_>,
    visited: &[u16],
    drone_flags: &[u8],
    sides: &Sides<'_>,
    flags: &[u8],
) -> bool
    requires { full_size limits (lent_tables plan.now visited.now drone_flags.now sides.now flags.now) ≡ true }
    ensures { result ≡ sound limits (lent_tables plan.now visited.now drone_flags.now sides.now flags.now) }
{
    let mut owners = [0u8; Stop::FULL];
    let mut starts = [0u16; Drone::FULL];
    let mut lasts = [0u16; Drone::FULL];
    let mut from = [0u16; Dependency::FULL];
    let mut into = [0u16; Dependency::FULL];
    check(
        plan,
        visited,
        drone_flags,
        sides,
        flags,
        &mut owners,
        &mut starts,
        &mut lasts,
        &mut from,
        &mut into,
    )
}
