// The lent tables that always travel together.
use tables::entries::Stop;

// The stops of a plan, numbered through: each one's drone, its location and its time, and how many there are.
#[derive(Clone, Copy)]
pub struct Stops<'a> {
    pub owners: &'a [u8],
    pub locations: &'a [u16],
    pub times: &'a [u32],
    pub count: usize,
}

// The stops linked by their locations: for each the first one there, the next one there, and the next there by another drone.
#[derive(Clone, Copy)]
pub struct Links<'a> {
    pub first: &'a [u16; Stop::FULL],
    pub next: &'a [u16; Stop::FULL],
    pub skip: &'a [u16; Stop::FULL],
}

// The stops at near locations, linked through the numbers of the pairs: how many numbers there are, the first number that is a stop's location, the next number that is the
// location of a number, and the first stop at the location that a number's is near.
#[derive(Clone, Copy)]
pub struct NearLinks<'a> {
    pub ends: usize,
    pub heads: &'a [u16; Stop::FULL],
    pub after: &'a [u16; Stop::FULL],
    pub starts: &'a [u16; Stop::FULL],
}

// Everything that the walks of the stops that meet go by.
#[derive(Clone, Copy)]
pub struct Walks<'a> {
    pub pairs: &'a [u16],
    pub stops: Stops<'a>,
    pub links: Links<'a>,
    pub near: NearLinks<'a>,
}
