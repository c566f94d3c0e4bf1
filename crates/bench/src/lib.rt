// What the measuring driver bench/sound.c links.
#![tactic(auto)]

ghost use Rattle.std.specs.Prelude.{◌&&◌, ◌≡◌};
ghost use Rattle.tables.specs.Limits.{limits};
ghost use Rattle.tables.specs.Tables.{tables_of, full_size};
ghost use Rattle.sound.specs.Sound.{sound};

use sound::is_sound;
use tables::lent::{Plan, Sides};
use tables::sizes::full_size;

// Whether tables of any size and content are of full size and sound.
#[unsafe(no_mangle)]
pub extern "C" fn bench_sound(
    drone_count: &[u16],
    dependency_count: &[u16],
    form: &[u8],
    names: &[u8],
    stop_counts: &[u16],
    locations: &[u16],
    times: &[u32],
    legs: &[u8],
    visited: &[u16],
    drone_flags: &[u8],
    first_drones: &[u8],
    first_stops: &[u16],
    second_drones: &[u8],
    second_stops: &[u16],
    flags: &[u8],
    pairs: &[u16],
) -> bool
    ensures { result ≡ full_size limits (tables_of
        drone_count.now dependency_count.now form.now names.now stop_counts.now
        locations.now times.now legs.now visited.now drone_flags.now
        first_drones.now first_stops.now second_drones.now second_stops.now
        flags.now pairs.now) && sound limits (tables_of
        drone_count.now dependency_count.now form.now names.now stop_counts.now
        locations.now times.now legs.now visited.now drone_flags.now
        first_drones.now first_stops.now second_drones.now second_stops.now
        flags.now pairs.now) }
{
    let plan = Plan {
        drone_count,
        dependency_count,
        form,
        names,
        stop_counts,
        locations,
        times,
        legs,
        pairs,
    };
    let sides = Sides {
        first_drones,
        first_stops,
        second_drones,
        second_stops,
    };
    full_size(&plan, visited, drone_flags, &sides, flags)
        && is_sound(&plan, visited, drone_flags, &sides, flags)
}
