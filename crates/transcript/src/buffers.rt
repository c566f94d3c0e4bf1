// The input comes in two buffers, and is the bytes of both, one after the other: a line may lie across.
ghost use Rattle.std.specs.Prelude.{◌≡◌, ◌+◌, ◌<◌, ◌^◌, length, take};
ghost use Rattle.lines.specs.Bytes.{Put};
ghost use Rattle.transcript.specs.Input.{input_limit, BuffersJoined};

use lines::bytes;
use tables::entries::MAX_TEXT;

// The bytes of a buffer: no plan text is longer, so a plan that is taken lies in the first.
pub const BUFFER: usize = MAX_TEXT;

// The input has so many bytes at most. The second buffer has room for one more, by which a longer input shows.
pub const INPUT: usize = 2 * BUFFER;

pub fn input_limit() -> usize
    ensures { result ≡ input_limit }
{
    INPUT
}

// Puts the first bytes of a buffer, as many as `count` says, or all where it has no more, and answers where they end.
fn put_first(whole: &mut [u8], at: usize, buffer: &[u8], count: usize) -> usize
    requires { at + length buffer.now < 2 ^ 32 }
    ensures { Put whole.old at (take count buffer.now) whole.new result }
{
    let most = count.min(buffer.len());
    bytes::put_bytes(whole, at, &buffer[..most])
}

// Puts what was read into both buffers into one, and answers how many bytes that is.
pub fn join(
    first: &[u8; BUFFER],
    count: usize,
    second: &[u8; BUFFER + 1],
    more: usize,
    whole: &mut [u8; INPUT + 1],
) -> usize
    ensures { BuffersJoined first.now count second.now more whole.new result }
{
    let next = put_first(whole, 0, first, count);
    put_first(whole, next, second, more)
}
