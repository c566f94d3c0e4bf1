// The fixed bytes of the plan text, compared by the reader and written by the writer.

pub const PLAN: [u8; 5] = *b"plan=";

pub const PLAN_LINE: [u8; 7] = *b"plan=1\n";

pub const LEGS_PLAN_LINE: [u8; 7] = *b"plan=2\n";

pub const AGENTS: [u8; 7] = *b"agents=";

pub const NAME: [u8; 5] = *b"name=";

pub const STOPS: [u8; 6] = *b"stops=";

pub const GO: [u8; 3] = *b"go=";

pub const END_LINE: [u8; 9] = *b"end=plan\n";

pub const LINE_FEED: u8 = b'\n';

pub const AT_SIGN: u8 = b'@';
