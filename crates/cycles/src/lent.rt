// The tables of the plan graph over stops that are numbered through, which always travel together.
use tables::entries::{Dependency, Drone};

// Where the stops lie: the drone of each stop, each drone's first stop and how many stops follow it, and how many drones and stops there are.
#[derive(Clone, Copy)]
pub struct FlatStops<'a> {
    pub owners: &'a [u8],
    pub starts: &'a [u16; Drone::FULL],
    pub lasts: &'a [u16; Drone::FULL],
    pub drones: usize,
    pub count: usize,
}

// The waits between them: nobody enters stop `into[k]` before stop `from[k]` is visited.
#[derive(Clone, Copy)]
pub struct FlatWaits<'a> {
    pub from: &'a [u16; Dependency::FULL],
    pub into: &'a [u16; Dependency::FULL],
    pub count: usize,
}
