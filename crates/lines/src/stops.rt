// The lines of the plan text that hold numbers.
ghost use Rattle.std.specs.Prelude.{◌≡◌, ◌+◌, ◌<◌, ◌≤◌, ◌^◌, length, take, drop};
ghost use Rattle.tables.specs.Limits.{limits};
ghost use Rattle.lines.specs.Bytes.{Put};
ghost use Rattle.lines.specs.Stops.{time_end, leg_at, go_at, stops_at, StopLinesStored, count_at, leg_field, stop_line, stop_lines};

use crate::numbers::Number;
use crate::refusal::Refusal;
use crate::{bytes, keys, numbers};
use tables::entries::{PLAIN_FORM, Stop};
use tables::legs::{leg_right, plain_leg};

// The byte that closes the time of a stop: a leg follows it in `plan=2` alone.
#[tactic(auto, using(std::proofs::lemmas::Bool::Decides::nat_tests), unfolding(crate::specs::Stops::time_end))]
fn time_end(form: u8) -> u8
    ensures { result ≡ time_end form }
{
    if form == PLAIN_FORM {
        keys::LINE_FEED
    } else {
        keys::AT_SIGN
    }
}

// The leg into a drone's stop, which a `plan=1` text does not write.
#[tactic(auto, using(std::proofs::lemmas::Bool::Decides::nat_tests), unfolding(crate::specs::Stops::leg_at))]
fn leg_field(text: &[u8], at: usize, form: u8, number: usize) -> Option<Number>
    ensures { result ≡ leg_at form number text.now at }
{
    if form == PLAIN_FORM {
        return Some(Number {
            value: plain_leg(number),
            next: at,
        });
    }
    numbers::field(text, at, keys::LINE_FEED)
}

// A line `go=LOCATION@TIME`, in `plan=2` `go=LOCATION@TIME@LEG`.
#[derive(Clone, Copy, Debug, PartialEq, Eq)]
pub struct GoLine {
    pub location: usize,
    pub time: usize,
    pub leg: usize,
    pub next: usize,
}

// The form of all numbers is judged before the range of any. The leg's range is that of the drone's stop of this number.
fn go_line(text: &[u8], at: usize, form: u8, number: usize) -> Result<GoLine, Refusal>
    ensures { result ≡ go_at limits form number text.now at }
{
    if !bytes::starts(text, at, &keys::GO) {
        return Err(Refusal::Form(at));
    }
    let Some(location) = numbers::field(text, at + keys::GO.len(), keys::AT_SIGN) else {
        return Err(Refusal::Form(at));
    };
    let Some(time) = numbers::field(text, location.next, time_end(form)) else {
        return Err(Refusal::Form(at));
    };
    let Some(leg) = leg_field(text, time.next, form, number) else {
        return Err(Refusal::Form(at));
    };
    if Stop::MAX_LOCATION < location.value {
        return Err(Refusal::Range(at));
    }
    if Stop::MAX_TIME < time.value {
        return Err(Refusal::Range(at));
    }
    if !leg_right(form, number, leg.value) {
        return Err(Refusal::Range(at));
    }
    Ok(GoLine {
        location: location.value,
        time: time.value,
        leg: leg.value,
        next: leg.next,
    })
}

// Reads `count` lines `go=`, stores the stops from entry `from` on, and gives the position after the lines.
pub fn go_lines(
    text: &[u8],
    at: usize,
    form: u8,
    count: usize,
    from: usize,
    locations: &mut [u16],
    times: &mut [u32],
    legs: &mut [u8],
) -> Result<usize, Refusal>
    requires { (from + count ≤ length locations.old) × (from + count ≤ length times.old) × (from + count ≤ length legs.old) }
    ensures { StopLinesStored (stops_at limits form 0 count text.now at) from locations.old times.old legs.old locations.new times.new legs.new result }
{
    let mut here = at;
    for i in 0..count {
        let line = go_line(text, here, form, i)?;
        locations[from + i] = line.location as u16;
        times[from + i] = line.time as u32;
        legs[from + i] = line.leg as u8;
        here = line.next;
    }
    Ok(here)
}

// A line of a key, a number and a line feed: `agents=N`, `stops=M`.
pub fn count_line(text: &[u8], at: usize, key: &[u8], most: usize) -> Result<Number, Refusal>
    requires { 0 < length key.now }
    ensures { result ≡ count_at text.now at key.now most }
{
    if !bytes::starts(text, at, key) {
        return Err(Refusal::Form(at));
    }
    let count = numbers::field(text, at + key.len(), keys::LINE_FEED).ok_or(Refusal::Form(at))?;
    if count.value == 0 {
        return Err(Refusal::Range(at));
    }
    if most < count.value {
        return Err(Refusal::Range(at));
    }
    Ok(count)
}

// Writes the leg and the line feed after it: nothing in `plan=1`.
#[tactic(auto, using(crate::proofs::WriteLaws::put_none, std::proofs::lemmas::Bool::Decides::nat_tests), unfolding(crate::specs::Stops::leg_field))]
fn put_leg(buf: &mut [u8], at: usize, form: u8, leg: usize) -> usize
    requires { at + 7 < 2 ^ 32 }
    ensures { Put buf.old at (leg_field form leg) buf.new result }
{
    if form == PLAIN_FORM {
        return at;
    }
    numbers::put_field(buf, at, leg, keys::LINE_FEED)
}

// Writes a line `go=LOCATION@TIME`, in `plan=2` `go=LOCATION@TIME@LEG`.
fn put_stop(buf: &mut [u8], at: usize, form: u8, location: usize, time: usize, leg: usize) -> usize
    requires { at < 2 ^ 31 }
    ensures { Put buf.old at (stop_line form location time leg) buf.new result }
{
    let a = bytes::put_bytes(buf, at, &keys::GO);
    let b = numbers::put_field(buf, a, location, keys::AT_SIGN);
    let c = numbers::put_field(buf, b, time, time_end(form));
    put_leg(buf, c, form, leg)
}

// Writes the lines of `count` stops, which stand in the tables from entry `from` on. The three tables stay parameters: not every caller has them in a lent plan.
pub fn put_stops(
    buf: &mut [u8],
    at: usize,
    form: u8,
    count: usize,
    from: usize,
    locations: &[u16],
    times: &[u32],
    legs: &[u8],
) -> usize
    requires { (at < 2 ^ 30) × (count ≤ limits.stops) × (from + count ≤ length locations.now) × (from + count ≤ length times.now) × (from + count ≤ length legs.now) }
    ensures { Put buf.old at (stop_lines form (take count (drop from locations.now)) (take count (drop from times.now)) (take count (drop from legs.now))) buf.new result }
{
    let mut next = at;
    for i in 0..count {
        next = put_stop(
            buf,
            next,
            form,
            usize::from(locations[from + i]),
            times[from + i] as usize,
            usize::from(legs[from + i]),
        );
    }
    next
}
