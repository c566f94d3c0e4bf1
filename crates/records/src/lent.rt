// The lent slice of records itself.
ghost use Rattle.std.specs.Prelude.{◌≡◌, ◌≤◌, true, min, length};
ghost use Rattle.tables.specs.Limits.{limits};
ghost use Rattle.records.specs.Records.{InColumns, Spread, zero_records, used_records, zero_between, gathered, store_if, flip_if, flip_all_if};

use crate::columns::{put_record, record_at};
use crate::record;
use tables::entries::Dependency;

// The fields of the records from one on up to another into columns that have those before them.
pub fn spread_between(
    deps: &[Dependency],
    from: usize,
    to: usize,
    stops: &mut [[u16; Dependency::FULL]; 2],
    drones: &mut [[u8; Dependency::FULL]; 2],
    flags: &mut [u8; Dependency::FULL],
)
    requires from_le_to { from ≤ to }
    requires in_columns { InColumns (used_records limits from deps.now) stops.old drones.old flags.old }
    ensures { InColumns (used_records limits to deps.now) stops.new drones.new flags.new }
{
    let first = record::within_used(from, deps.len());
    let n = record::within_used(to, deps.len());
    for i in first..n {
        put_record(deps[i], i, stops, drones, flags);
    }
}

// Whether the records from one on up to another are zero: a loop without a branch.
pub fn zero_between(deps: &[Dependency], from: usize, to: usize) -> bool
    requires from_le_to { from ≤ to }
    requires to_bound { to ≤ min limits.dependencies (length deps.now) }
    ensures { result ≡ zero_between from to deps.now }
{
    let mut sum: u32 = 0;
    for d in &deps[from..to] {
        sum += record::field_sum(*d);
    }
    sum == 0
}

// The fields of the records that are not used, block by block, up to the full size: a block that is zero, as sound tables have them, is only looked at.
pub fn spread_unused(
    deps: &[Dependency],
    used: usize,
    stops: &mut [[u16; Dependency::FULL]; 2],
    drones: &mut [[u8; Dependency::FULL]; 2],
    flags: &mut [u8; Dependency::FULL],
)
    requires { InColumns (used_records limits used deps.now) stops.old drones.old flags.old }
    ensures { InColumns (used_records limits (length deps.now) deps.now) stops.new drones.new flags.new }
{
    let n = record::within_full(deps.len());
    // No range by steps of 64 is plainer: each block's end is reckoned anyway, and the next block begins there.
    let mut i = record::within_used(used, deps.len());
    while i < n {
        let end = record::block_end(i, n);
        if !zero_between(deps, i, end) {
            spread_between(deps, i, end, stops, drones, flags);
        }
        i = end;
    }
}

// The columns of the lent records into zeroed columns; the number of records that are lent. An unused record that is not zero is put there too, for the call to see it.
pub fn spread(
    dependency_count: &[u16],
    deps: &[Dependency],
    stops: &mut [[u16; Dependency::FULL]; 2],
    drones: &mut [[u8; Dependency::FULL]; 2],
    flags: &mut [u8; Dependency::FULL],
) -> usize
    requires { InColumns (zero_records limits) stops.old drones.old flags.old }
    ensures { Spread limits deps.now result stops.new drones.new flags.new }
{
    let lent = deps.len();
    if record::below_full(lent) {
        return lent;
    }
    let used = record::only_entry(dependency_count);
    spread_between(deps, 0, used, stops, drones, flags);
    spread_unused(deps, used, stops, drones, flags);
    lent
}

// Stores the records that the columns make where `stores` says so: as many as are lent, up to the full size.
pub fn store_if(
    deps: &mut [Dependency],
    stores: bool,
    first_drones: &[u8; Dependency::FULL],
    first_stops: &[u16; Dependency::FULL],
    second_drones: &[u8; Dependency::FULL],
    second_stops: &[u16; Dependency::FULL],
    flags: &[u8; Dependency::FULL],
)
    ensures { deps.new ≡ store_if limits stores (gathered limits first_drones.now first_stops.now second_drones.now second_stops.now flags.now) deps.old }
{
    let n = record::stored_count(stores, deps.len());
    for i in 0..n {
        deps[i] = record_at(
            i,
            first_drones,
            first_stops,
            second_drones,
            second_stops,
            flags,
        );
    }
}

// Flips bit 0 of record i; there is nothing to flip past the end.
pub fn flip_at(deps: &mut [Dependency], i: usize)
    ensures { deps.new ≡ flip_if true i deps.old }
{
    if i < deps.len() {
        deps[i] = deps[i].flip();
    }
}

// Flips bit 0 of each record of the list.
pub fn flip_all(deps: &mut [Dependency], list: &[u16])
    ensures { deps.new ≡ flip_all_if true list.now deps.old }
{
    for i in list {
        flip_at(deps, usize::from(*i));
    }
}
