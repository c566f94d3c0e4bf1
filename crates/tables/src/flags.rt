// The flag bytes, tested and changed by masks.
#![tactic(auto, using(crate::proofs::FlagLaws::masks), unfolding(crate::specs::Flags::fixed_flag))]

ghost use Rattle.std.specs.Prelude.{◌≡◌};
ghost use Rattle.tables.specs.Flags.{turned_bit, fixed_bit, only_two_bits, flip_bit, fixed_flag, under_way_bit, withdrawn_bit, set_under_way, clear_under_way, set_withdrawn};

use crate::entries::{Dependency, Drone};

pub fn is_turned(flags: u8) -> bool
    ensures { result ≡ turned_bit flags }
{
    flags & Dependency::TURNED != 0
}

pub fn is_fixed(flags: u8) -> bool
    ensures { result ≡ fixed_bit flags }
{
    flags & Dependency::FIXED != 0
}

// The other six bits of a flag byte, of a dependency's or of a drone's, are zero.
pub fn has_only_two_bits(flags: u8) -> bool
    ensures { result ≡ only_two_bits flags }
{
    flags & Dependency::OTHER_BITS == 0
}

pub fn flipped(flags: u8) -> u8
    ensures { result ≡ flip_bit flags }
{
    flags ^ Dependency::TURNED
}

// The flag byte of a new dependency, which is not turned.
pub fn fixed_flag(fixed: bool) -> u8
    ensures { result ≡ fixed_flag fixed }
{
    if fixed { Dependency::FIXED } else { 0 }
}

pub fn is_under_way(flags: u8) -> bool
    ensures { result ≡ under_way_bit flags }
{
    flags & Drone::UNDER_WAY != 0
}

pub fn is_withdrawn(flags: u8) -> bool
    ensures { result ≡ withdrawn_bit flags }
{
    flags & Drone::WITHDRAWN != 0
}

pub fn with_under_way(flags: u8) -> u8
    ensures { result ≡ set_under_way flags }
{
    flags | Drone::UNDER_WAY
}

pub fn without_under_way(flags: u8) -> u8
    ensures { result ≡ clear_under_way flags }
{
    flags & Drone::NOT_UNDER_WAY
}

pub fn with_withdrawn(flags: u8) -> u8
    ensures { result ≡ set_withdrawn flags }
{
    flags | Drone::WITHDRAWN
}
