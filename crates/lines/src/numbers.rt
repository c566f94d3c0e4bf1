// Numbers of the plan text: read at a position, and written.
ghost use Rattle.std.specs.Prelude.{◌≡◌, ◌+◌, ◌-◌, ◌<◌, ◌^◌, cond, Some, None};
ghost use Rattle.lines.specs.Bytes.{byte_at, Put};
ghost use Rattle.lines.specs.Numbers.{is_digit, number_at, field_at, digits, digits_of, field};

use crate::bytes;

// The value of the digit at a position, None where no digit stands.
#[inline(always)]
fn digit_at(text: &[u8], at: usize) -> Option<usize>
    ensures { result ≡ cond (is_digit (byte_at text.now at)) (Some (byte_at text.now at - 48)) None }
{
    let byte = *text.get(at)?;
    if !byte.is_ascii_digit() {
        return None;
    }
    Some(usize::from(byte - b'0'))
}

// A number that stands at a position, and the position after it.
#[derive(Clone, Copy, Debug, PartialEq, Eq)]
pub struct Number {
    pub value: usize,
    pub next: usize,
}

// A number is `0`, or a digit from 1 to 9 and at most six digits after it.
pub fn read_number(text: &[u8], at: usize) -> Option<Number>
    ensures { result ≡ number_at text.now at }
{
    let first = digit_at(text, at)?;
    let mut read = Number {
        value: first,
        next: at + 1,
    };
    if first == 0 {
        return Some(read);
    }
    for _ in 0..6usize {
        let Some(digit) = digit_at(text, read.next) else {
            return Some(read);
        };
        read = Number {
            value: read.value * 10 + digit,
            next: read.next + 1,
        };
    }
    Some(read)
}

// A number and the byte that closes it.
pub fn field(text: &[u8], at: usize, close: u8) -> Option<Number>
    ensures { result ≡ field_at text.now at close }
{
    let Number { value, next } = read_number(text, at)?;
    if bytes::byte_at(text, next) != usize::from(close) {
        return None;
    }
    Some(Number {
        value,
        next: next + 1,
    })
}

// Writes a number below 10^left, without leading zeros; a larger one is cut to its last `left` digits.
fn put_digits(buf: &mut [u8], at: usize, value: usize, left: usize) -> usize
    requires { at + left < 2 ^ 32 }
    ensures { Put buf.old at (digits left value) buf.new result }
{
    if left == 0 {
        return at;
    }
    if value < 10 {
        return bytes::put_byte(buf, at, (48 + value) as u8);
    }
    let next = put_digits(buf, at, value / 10, left - 1);
    bytes::put_byte(buf, next, (48 + value % 10) as u8)
}

pub fn put_number(buf: &mut [u8], at: usize, value: usize) -> usize
    requires { at + 7 < 2 ^ 32 }
    ensures { Put buf.old at (digits_of value) buf.new result }
{
    put_digits(buf, at, value, 7)
}

// Writes a number and the byte that closes it.
pub fn put_field(buf: &mut [u8], at: usize, value: usize, close: u8) -> usize
    requires { at + 7 < 2 ^ 32 }
    ensures { Put buf.old at (field value close) buf.new result }
{
    let end = put_number(buf, at, value);
    bytes::put_byte(buf, end, close)
}
