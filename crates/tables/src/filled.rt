// The lent tables that a reading writes.

// What the lines of a plan text's drones give.
#[derive(Drop)]
pub struct Routes<'a> {
    pub names: &'a mut [u8],
    pub stop_counts: &'a mut [u16],
    pub locations: &'a mut [u16],
    pub times: &'a mut [u32],
    pub legs: &'a mut [u8],
}
