// The entries of the tables, and every figure of the limits. Each type carries its table's full size, and each figure is shown to be that of the limits.
ghost use Rattle.std.specs.Prelude.{◌≡◌, ◌*◌};
ghost use Rattle.tables.specs.Limits.{limits, most_pairs};
ghost use Rattle.tables.specs.Entries.{zero_stop, zero_drone, zero_dependency, zero_near_pair, flip_dependency};

// A stop of a drone's plan.
#[derive(Clone, Copy, Default)]
pub struct Stop {
    pub location: u16,
    pub time: u32,
    // The rounds of the leg into it.
    pub leg: u8,
}

// A drone's progress: its last visited stop, and its flag byte.
#[derive(Clone, Copy, Default)]
pub struct Drone {
    pub visited: u16,
    pub flags: u8,
}

// The planned first stop and the planned second stop, the drone of each, and the flag byte. The reserved byte fills the record to eight, so that a record that is
// stored whole writes no byte beyond its fields; no call looks at it.
#[repr(C)]
#[derive(Clone, Copy, Default)]
pub struct Dependency {
    pub first_stop: u16,
    pub second_stop: u16,
    pub first_drone: u8,
    pub second_drone: u8,
    pub flags: u8,
    pub reserved: u8,
}

// Two locations that are near each other, the lower first. The table of pairs is a slice of numbers: pair i stands at 2i and 2i + 1.
#[derive(Clone, Copy, Default)]
pub struct NearPair {
    pub lower: u16,
    pub upper: u16,
}

// The bytes of a plan's text: it is no table of entries, so no type carries its limit.
pub const MAX_TEXT: usize = 65536;

pub fn text_limit() -> usize
    ensures { result ≡ limits.text }
{
    MAX_TEXT
}

// The plan's form stands alone in its table, as a byte, since a lent table holds it so; these are the forms that there are, `plan=1` and `plan=2`.
pub const FORM: usize = 1;

pub const PLAIN_FORM: u8 = 1;

pub const LEGS_FORM: u8 = 2;

pub fn form_limit() -> u8
    ensures { result ≡ limits.form }
{
    LEGS_FORM
}

impl Stop {
    // The stops of all drones.
    pub const FULL: usize = 2048;

    pub const MAX_LOCATION: usize = 65535;

    pub const MAX_TIME: usize = 1000000;
    // The rounds of the longest leg.
    pub const MAX_LEG: usize = 60;

    pub fn zero() -> Self
        ensures { result ≡ zero_stop }
    {
        Self::default()
    }

    pub fn full_size() -> usize
        ensures { result ≡ limits.stops }
    {
        Self::FULL
    }

    pub fn location_limit() -> usize
        ensures { result ≡ limits.location }
    {
        Self::MAX_LOCATION
    }

    pub fn time_limit() -> usize
        ensures { result ≡ limits.time }
    {
        Self::MAX_TIME
    }

    pub fn leg_limit() -> usize
        ensures { result ≡ limits.leg }
    {
        Self::MAX_LEG
    }
}

impl Drone {
    pub const FULL: usize = 64;
    // The number of drones stands alone in its table.
    pub const COUNT: usize = 1;
    // The bytes of a name, which are those of its row in the table of names.
    pub const NAME: usize = 24;
    // The table of names.
    pub const NAMES: usize = Self::FULL * Self::NAME;
    // The masks of the flag byte's bits 0 and 1, and of all bits but bit 0.
    pub const UNDER_WAY: u8 = 1;

    pub const WITHDRAWN: u8 = 2;

    pub const NOT_UNDER_WAY: u8 = 255 - Self::UNDER_WAY;

    pub fn zero() -> Self
        ensures { result ≡ zero_drone }
    {
        Self::default()
    }

    pub fn full_size() -> usize
        ensures { result ≡ limits.drones }
    {
        Self::FULL
    }

    pub fn name_limit() -> usize
        ensures { result ≡ limits.name }
    {
        Self::NAME
    }

    pub fn names_size() -> usize
        ensures { result ≡ limits.drones * limits.name }
    {
        Self::NAMES
    }
}

impl Dependency {
    pub const FULL: usize = 4096;
    // The number of dependencies stands alone in its table.
    pub const COUNT: usize = 1;
    // The masks of the flag byte's bits 0 and 1, and of the others.
    pub const TURNED: u8 = 1;

    pub const FIXED: u8 = 2;

    pub const OTHER_BITS: u8 = 255 - Self::TURNED - Self::FIXED;

    pub fn zero() -> Self
        ensures { result ≡ zero_dependency }
    {
        Self::default()
    }

    pub fn full_size() -> usize
        ensures { result ≡ limits.dependencies }
    {
        Self::FULL
    }

    // The record with bit 0 of its flag byte flipped.
    pub fn flip(self) -> Self
        ensures { result ≡ flip_dependency self }
    {
        Self {
            flags: crate::flags::flipped(self.flags),
            ..self
        }
    }
}

impl NearPair {
    pub const FULL: usize = 256;
    // The numbers of the table of pairs.
    pub const NUMBERS: usize = 2 * Self::FULL;

    pub fn zero() -> Self
        ensures { result ≡ zero_near_pair }
    {
        Self::default()
    }

    pub fn full_size() -> usize
        ensures { result ≡ most_pairs }
    {
        Self::FULL
    }

    pub fn numbers_size() -> usize
        ensures { result ≡ 2 * most_pairs }
    {
        Self::NUMBERS
    }
}
