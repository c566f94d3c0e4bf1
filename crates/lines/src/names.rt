// The line of a drone's name, and the table of names: a row for each drone, zero after the name.
ghost use Rattle.std.specs.Prelude.{◌≡◌, ◌+◌, ◌≤◌, ◌<◌, ◌^◌, length};
ghost use Rattle.tables.specs.Limits.{limits};
ghost use Rattle.lines.specs.Bytes.{is_at, Put};
ghost use Rattle.lines.specs.Names.{line_end, is_capital, small_byte, small_form, is_name_byte, is_text_byte, text_bytes, text_name, name_at, among};

use crate::refusal::Refusal;
use crate::{bytes, keys};
use tables::entries::Drone;

// The position of the first line feed at or after a position; where there is none, the text's end or the position, whichever is later.
pub fn line_end(text: &[u8], at: usize) -> usize
    ensures { result ≡ line_end text.now at }
{
    for i in at..text.len() {
        if text[i] == keys::LINE_FEED {
            return i;
        }
    }
    at.max(text.len())
}

// A to Z
#[tactic(auto, unfolding(crate::specs::Names::is_capital))]
pub fn is_capital(byte: u8) -> bool
    ensures { result ≡ is_capital byte }
{
    byte.is_ascii_uppercase()
}

// A capital's small letter, any other byte itself.
#[tactic(auto, using(crate::proofs::Letters::small_lowercase))]
pub fn small_byte(byte: u8) -> u8
    ensures { result ≡ small_byte byte }
{
    byte.to_ascii_lowercase()
}

// Writes the small form of some bytes at a position.
pub fn put_small(buf: &mut [u8], at: usize, name: &[u8]) -> usize
    requires { at + length name.now < 2 ^ 32 }
    ensures { Put buf.old at (small_form name.now) buf.new result }
{
    for (i, byte) in name.iter().enumerate() {
        bytes::put_byte(buf, at + i, small_byte(*byte));
    }
    at + name.len()
}

// In the tables: a-z, 0-9 or hyphen.
#[tactic(auto, using(std::proofs::lemmas::Bool::Decides::nat_tests), unfolding(crate::specs::Names::is_name_byte))]
pub fn is_name_byte(byte: u8) -> bool
    ensures { result ≡ is_name_byte byte }
{
    matches!(byte, b'a'..=b'z' | b'0'..=b'9' | b'-')
}

// In a text: A to Z too.
#[tactic(auto, unfolding(crate::specs::Names::is_text_byte))]
pub fn is_text_byte(byte: u8) -> bool
    ensures { result ≡ is_text_byte byte }
{
    is_capital(byte) || is_name_byte(byte)
}

pub fn text_bytes(name: &[u8]) -> bool
    ensures { result ≡ text_bytes name.now }
{
    name.iter().all(|byte| is_text_byte(*byte))
}

// A name has 1 to 24 bytes.
#[tactic(auto, using(std::proofs::lemmas::Bool::Decides::nat_tests), unfolding(crate::specs::Names::text_name))]
pub fn text_name(name: &[u8]) -> bool
    ensures { result ≡ text_name limits name.now }
{
    match name.len() {
        1..=Drone::NAME => text_bytes(name),
        _ => false,
    }
}

// A line `name=TEXT`: where its text starts and ends.
#[derive(Clone, Copy, Debug, PartialEq, Eq)]
pub struct NameSpan {
    pub start: usize,
    pub end: usize,
}

pub fn name_line(text: &[u8], at: usize) -> Result<NameSpan, Refusal>
    ensures { result ≡ name_at limits text.now at }
{
    if !bytes::starts(text, at, &keys::NAME) {
        return Err(Refusal::Form(at));
    }
    let start = at + keys::NAME.len();
    let end = line_end(text, start);
    if end == text.len() {
        return Err(Refusal::Form(at));
    }
    if !text_name(&text[start..end]) {
        return Err(Refusal::Name(at));
    }
    Ok(NameSpan { start, end })
}

// So many bytes of a row are compared first.
const HEAD: usize = 4;

// Whether a row stands in the table of names at a position. Most names differ in their first bytes, which are asked first: the comparison of all bytes is a call.
#[inline(always)]
fn row_at(names: &[u8], at: usize, row: &[u8; Drone::NAME]) -> bool
    ensures { result ≡ is_at names.now at row.now }
{
    if !bytes::starts(names, at, &row[..HEAD]) {
        return false;
    }
    match names.get(at..) {
        Some(rest) => rest.starts_with(row),
        None => false,
    }
}

// Whether one of the first rows of the table is this row, over all its bytes.
pub fn row_among(names: &[u8], rows: usize, row: &[u8; Drone::NAME]) -> bool
    requires { rows ≤ limits.drones }
    ensures { result ≡ among limits rows names.now 0 row.now }
{
    for k in 0..rows {
        if row_at(names, k * Drone::NAME, row) {
            return true;
        }
    }
    false
}
