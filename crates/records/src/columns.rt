// One record and its fields in the five columns.
ghost use Rattle.std.specs.Prelude.{◌≡◌, ◌<◌, set};
ghost use Rattle.tables.specs.Limits.{limits};
ghost use Rattle.records.specs.Records.{SidesIn, record_of, put_two};

use tables::entries::Dependency;
use tables::lent::Sides;

// Each field of a record into its own column.
pub fn put_record(
    d: Dependency,
    i: usize,
    stops: &mut [[u16; Dependency::FULL]; 2],
    drones: &mut [[u8; Dependency::FULL]; 2],
    flags: &mut [u8; Dependency::FULL],
)
    requires { i < limits.dependencies }
    ensures stops_after { stops.new ≡ put_two i d.first_stop d.second_stop stops.old }
    ensures drones_after { drones.new ≡ put_two i d.first_drone d.second_drone drones.old }
    ensures flags_after { flags.new ≡ set flags.old i d.flags }
{
    stops[0][i] = d.first_stop;
    stops[1][i] = d.second_stop;
    drones[0][i] = d.first_drone;
    drones[1][i] = d.second_drone;
    flags[i] = d.flags;
}

// The record whose fields stand at i of the columns.
pub fn record_at(
    i: usize,
    first_drones: &[u8; Dependency::FULL],
    first_stops: &[u16; Dependency::FULL],
    second_drones: &[u8; Dependency::FULL],
    second_stops: &[u16; Dependency::FULL],
    flags: &[u8; Dependency::FULL],
) -> Dependency
    requires { i < limits.dependencies }
    ensures { result ≡ record_of first_drones.now first_stops.now second_drones.now second_stops.now flags.now i }
{
    Dependency {
        first_stop: first_stops[i],
        second_stop: second_stops[i],
        first_drone: first_drones[i],
        second_drone: second_drones[i],
        flags: flags[i],
        reserved: 0,
    }
}

// The sides of the dependencies that the columns hold.
pub fn sides_in<'a>(
    stops: &'a [[u16; Dependency::FULL]; 2],
    drones: &'a [[u8; Dependency::FULL]; 2],
) -> Sides<'a>
    ensures { SidesIn stops.now drones.now result }
{
    Sides {
        first_drones: &drones[0],
        first_stops: &stops[0],
        second_drones: &drones[1],
        second_stops: &stops[1],
    }
}
