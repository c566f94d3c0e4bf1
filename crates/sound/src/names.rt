// The table of names and that of the site pairs: each drone's row is a name with zeros after it, and no two names are equal.
ghost use Rattle.std.specs.Prelude.{not, cond, ◌&&◌, ◌≡◌, ◌+◌, ◌*◌, ◌≤◌, ◌<◌, eqb, length};
ghost use Rattle.below.specs.Below.{all_below};
ghost use Rattle.tables.specs.Limits.{limits, most_pairs};
ghost use Rattle.near.specs.Near.{pairs_sound};
ghost use Rattle.lines.specs.Names.{is_name_byte};
ghost use Rattle.sound.specs.Sound.{zeros, after_pairs, name_length, name_sound, same_name, names_differ};
ghost use Rattle.sound.specs.Parts.{name_sum};
ghost use Rattle.sound.specs.Asked.{Keyed};

use crate::unused::is_zero;
use tables::entries::{Drone, NearPair};

// How many bytes of drone d's row stand before the first zero.
fn name_length(names: &[u8], d: usize) -> usize
    requires { (limits.drones * limits.name ≤ length names.now) × (d < limits.drones) }
    ensures { result ≡ name_length limits names.now d }
{
    let row = d * Drone::NAME;
    names[row..row + Drone::NAME]
        .iter()
        .position(|byte| *byte == 0)
        .unwrap_or(Drone::NAME)
}

// A byte within a name is one of a name's bytes, one after it is zero.
fn byte_sound(within: bool, byte: u8) -> bool
    ensures { result ≡ cond within (is_name_byte byte) (eqb byte 0) }
{
    if within {
        return lines::names::is_name_byte(byte);
    }
    byte == 0
}

fn name_sound(names: &[u8], d: usize) -> bool
    requires { (limits.drones * limits.name ≤ length names.now) × (d < limits.drones) }
    ensures { result ≡ name_sound limits names.now d }
{
    let used = name_length(names, d);
    if used < 1 {
        return false;
    }
    let row = d * Drone::NAME;
    (0..Drone::NAME).all(|i| byte_sound(i < used, names[row + i]))
}

// Names are compared over all their bytes.
fn same_name(names: &[u8], d: usize, e: usize) -> bool
    requires { (limits.drones * limits.name ≤ length names.now) × (d < limits.drones) × (e < limits.drones) }
    ensures { result ≡ same_name limits names.now d e }
{
    let row = d * Drone::NAME;
    let other = e * Drone::NAME;
    names[row..row + Drone::NAME] == names[other..other + Drone::NAME]
}

// The sum of the bytes of drone d's row.
fn name_key(names: &[u8], d: usize) -> u16
    requires { (limits.drones * limits.name ≤ length names.now) × (d < limits.drones) }
    ensures { result ≡ name_sum limits names.now d }
{
    let row = d * Drone::NAME;
    let mut key: u16 = 0;
    for i in 0..Drone::NAME {
        key += u16::from(names[row + i]);
    }
    key
}

fn fill_keys(names: &[u8], drones: usize, keys: &mut [u16; Drone::FULL])
    requires { (limits.drones * limits.name ≤ length names.now) × (drones ≤ limits.drones) × (length keys.old ≡ limits.drones) }
    ensures { Keyed limits names.now keys.new drones }
{
    for d in 0..drones {
        keys[d] = name_key(names, d);
    }
}

// Names are compared where their sums are equal.
fn is_same(names: &[u8], keys: &[u16; Drone::FULL], d: usize, e: usize) -> bool
    requires { (limits.drones * limits.name ≤ length names.now) × (d < limits.drones) × (e < limits.drones) × Keyed limits names.now keys.now (d + 1) × (e < d) }
    ensures { result ≡ same_name limits names.now d e }
{
    if keys[d] != keys[e] {
        return false;
    }
    same_name(names, d, e)
}

// Whether no earlier drone has drone d's name.
fn is_new(names: &[u8], keys: &[u16; Drone::FULL], d: usize) -> bool
    requires { (limits.drones * limits.name ≤ length names.now) × (d < limits.drones) × Keyed limits names.now keys.now (d + 1) }
    ensures { result ≡ all_below d (λ e. not (same_name limits names.now d e)) }
{
    (0..d).all(|e| !is_same(names, keys, d, e))
}

fn are_new(names: &[u8], keys: &[u16; Drone::FULL], drones: usize) -> bool
    requires { (limits.drones * limits.name ≤ length names.now) × (drones ≤ limits.drones) × Keyed limits names.now keys.now drones }
    ensures { result ≡ names_differ limits names.now drones }
{
    (0..drones).all(|d| is_new(names, keys, d))
}

fn names_differ(names: &[u8], drones: usize) -> bool
    requires { (limits.drones * limits.name ≤ length names.now) × (drones ≤ limits.drones) }
    ensures { result ≡ names_differ limits names.now drones }
{
    let mut keys = [0u16; Drone::FULL];
    fill_keys(names, drones, &mut keys);
    are_new(names, &keys, drones)
}

fn are_names(names: &[u8], drones: usize) -> bool
    requires { (limits.drones * limits.name ≤ length names.now) × (drones ≤ limits.drones) }
    ensures { result ≡ all_below drones (name_sound limits names.now) }
{
    (0..drones).all(|d| name_sound(names, d))
}

fn names_sound(names: &[u8], drones: usize) -> bool
    requires { (limits.drones * limits.name ≤ length names.now) × (drones ≤ limits.drones) }
    ensures { result ≡ all_below drones (name_sound limits names.now) && names_differ limits names.now drones }
{
    are_names(names, drones) && names_differ(names, drones)
}

// Whether the site pairs are a list that a site text could give, with zeros after it.
fn site_sound(pairs: &[u16]) -> bool
    requires { 2 * most_pairs ≤ length pairs.now }
    ensures { result ≡ pairs_sound limits pairs.now && zeros (after_pairs pairs.now) }
{
    near::pairs_sound(pairs) && is_zero(2 * near::pair_count(pairs), NearPair::NUMBERS, pairs, 0)
}

// Whether names and pairs are sound.
pub fn lists_sound(names: &[u8], drones: usize, pairs: &[u16]) -> bool
    requires { (limits.drones * limits.name ≤ length names.now) × (drones ≤ limits.drones) × (2 * most_pairs ≤ length pairs.now) }
    ensures { result ≡ (all_below drones (name_sound limits names.now) && names_differ limits names.now drones) && (pairs_sound limits pairs.now && zeros (after_pairs pairs.now)) }
{
    names_sound(names, drones) && site_sound(pairs)
}
