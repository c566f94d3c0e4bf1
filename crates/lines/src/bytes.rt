// Bytes of a text at a position, and bytes written into a buffer.
ghost use Rattle.std.specs.Prelude.{◌≡◌, ◌+◌, ◌<◌, ◌^◌, length, [], ◌∷◌};
ghost use Rattle.lines.specs.Bytes.{byte_at, is_at, Put};

// The byte at a position of the text, 256 where the text has ended. A number and no Option: each use compares it with one byte, and the end is equal to none.
pub fn byte_at(text: &[u8], at: usize) -> usize
    ensures { result ≡ byte_at text.now at }
{
    if at < text.len() {
        usize::from(text[at])
    } else {
        256
    }
}

// Whether a fixed byte string stands in the text at a position. The text's length is asked for once, and not at each byte, and a loop and not `starts_with`, which is a call of its own:
// reading a plan asks this of each line, of a key of a few bytes that is known.
#[inline(always)]
pub fn starts(text: &[u8], at: usize, key: &[u8]) -> bool
    ensures { result ≡ is_at text.now at key.now }
{
    if text.len() < key.len() {
        return false;
    }
    if text.len() - key.len() < at {
        return key.is_empty();
    }
    for i in 0..key.len() {
        if text[at + i] != key[i] {
            return false;
        }
    }
    true
}

// Writes a byte at a position, if the buffer reaches there, and gives the next position.
pub fn put_byte(buf: &mut [u8], at: usize, byte: u8) -> usize
    requires { at < 2 ^ 32 }
    ensures { Put buf.old at (byte ∷ []) buf.new result }
{
    if at < buf.len() {
        buf[at] = byte;
    }
    at + 1
}

// Writes a fixed byte string at a position.
pub fn put_bytes(buf: &mut [u8], at: usize, bytes: &[u8]) -> usize
    requires { at + length bytes.now < 2 ^ 32 }
    ensures { Put buf.old at bytes.now buf.new result }
{
    for (i, byte) in bytes.iter().enumerate() {
        put_byte(buf, at + i, *byte);
    }
    at + bytes.len()
}
