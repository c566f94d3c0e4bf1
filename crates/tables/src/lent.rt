// The lent tables that always travel together.

// What no call but a reading or a joining writes: a plan's tables, but for the dependencies', and the site's pairs.
#[derive(Clone, Copy)]
pub struct Plan<'a> {
    pub drone_count: &'a [u16],
    pub dependency_count: &'a [u16],
    pub form: &'a [u8],
    pub names: &'a [u8],
    pub stop_counts: &'a [u16],
    pub locations: &'a [u16],
    pub times: &'a [u32],
    pub legs: &'a [u8],
    pub pairs: &'a [u16],
}

// The two sides of each dependency: the planned first drone and its stop, the planned second drone and its stop.
#[derive(Clone, Copy)]
pub struct Sides<'a> {
    pub first_drones: &'a [u8],
    pub first_stops: &'a [u16],
    pub second_drones: &'a [u8],
    pub second_stops: &'a [u16],
}
