// The kinds of calls that a line asks for, and the fixed bytes of call lines and of the output.

#[derive(Clone, Copy, Debug, PartialEq, Eq)]
pub enum Kind {
    Grant,
    Arrive,
    Turn,
    Cost,
}

pub const GRANT: [u8; 6] = *b"grant=";

pub const ARRIVE: [u8; 7] = *b"arrive=";

pub const TURN: [u8; 5] = *b"turn=";

pub const COST: [u8; 5] = *b"cost=";

pub const PLAN: [u8; 5] = *b"plan=";

pub const END_LINE: [u8; 10] = *b"end=calls\n";

pub const MALFORMED_LINE: [u8; 7] = *b"call=2\n";

pub const RANGE_LINE: [u8; 7] = *b"call=4\n";

pub const COLON: u8 = b':';
