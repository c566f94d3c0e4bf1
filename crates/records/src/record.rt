// A dependency record by value, for the functions over the lent slice: they use a record only whole.
ghost use Rattle.std.specs.Prelude.{◌≡◌, ◌+◌, ◌≤◌, min, ltb};
ghost use Rattle.below.specs.Below.{pick, at};
ghost use Rattle.tables.specs.Limits.{limits};
ghost use Rattle.tables.specs.Entries.{zero_dependency};
ghost use Rattle.records.specs.Records.{field_sum};

use tables::entries::Dependency;

pub fn zero_record() -> Dependency
    ensures { result ≡ zero_dependency }
{
    Dependency::zero()
}

// The sum of the fields, which is 0 just where each of them is: a sum over many records asks no question of a single one.
pub fn field_sum(d: Dependency) -> u32
    ensures value { result ≡ field_sum d }
    ensures upper_bound { result ≤ 131835 }
{
    u32::from(d.first_stop)
        + u32::from(d.second_stop)
        + u32::from(d.first_drone)
        + u32::from(d.second_drone)
        + u32::from(d.flags)
}

// A table of n records is below its full size.
pub fn below_full(n: usize) -> bool
    ensures { result ≡ ltb n limits.dependencies }
{
    n < Dependency::FULL
}

// How many of n lent records are read and written: "Entries past a full size are never read or written".
pub fn within_full(n: usize) -> usize
    ensures { result ≡ min limits.dependencies n }
{
    n.min(Dependency::FULL)
}

// How many of n lent records are used, where so many are said to be.
pub fn within_used(used: usize, n: usize) -> usize
    ensures { result ≡ min used (min limits.dependencies n) }
{
    used.min(within_full(n))
}

// Where a block that begins at i ends, of n records. A longer block makes a grant cheaper, a shorter one the 40 for an unused record that is not zero (docs/DECISIONS.md).
pub fn block_end(i: usize, n: usize) -> usize
    requires { i ≤ n }
    ensures { result ≡ min n (i + 64) }
{
    i + 64.min(n - i)
}

// How many of n lent records are stored.
pub fn stored_count(stores: bool, n: usize) -> usize
    ensures value { result ≡ pick stores (min limits.dependencies n) 0 }
    ensures upper_bound { result ≤ min limits.dependencies n }
{
    if stores { within_full(n) } else { 0 }
}

// The number that a table of one entry holds, 0 where it is empty.
pub fn only_entry(table: &[u16]) -> usize
    ensures { result ≡ at table.now 0 }
{
    table.first().map_or(0, |count| usize::from(*count))
}
