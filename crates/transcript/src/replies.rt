// The lines of the output.
ghost use Rattle.std.specs.Prelude.{◌+◌, ◌<◌, ◌≤◌, ◌^◌, length};
ghost use Rattle.lines.specs.Bytes.{Put};
ghost use Rattle.transcript.specs.Keys.{key_of};
ghost use Rattle.transcript.specs.Output.{plan_number_line, reply_text, value_text, answer_line, ending_line, lines_in};

use crate::keys;
use crate::keys::Kind;
use crate::requests::{CallFault, Request};
use lines::{bytes, keys as plan_keys, numbers};

// Writes the line of the plan: 0 or the number of the refusal.
pub fn put_plan(buf: &mut [u8], at: usize, number: usize) -> usize
    requires { at < 2 ^ 30 }
    ensures { Put buf.old at (plan_number_line number) buf.new result }
{
    let a = bytes::put_bytes(buf, at, &keys::PLAN);
    let b = numbers::put_number(buf, a, number);
    bytes::put_byte(buf, b, plan_keys::LINE_FEED)
}

// The number of the reply, and the dependency of a 23 or the cost.
#[derive(Clone, Copy, Debug, PartialEq, Eq)]
pub struct Answer {
    pub number: u16,
    pub detail: u32,
}

// Writes the key of a kind of call.
fn put_key(buf: &mut [u8], at: usize, kind: Kind) -> usize
    requires { at < 2 ^ 30 }
    ensures { Put buf.old at (key_of kind) buf.new result }
{
    match kind {
        Kind::Grant => bytes::put_bytes(buf, at, &keys::GRANT),
        Kind::Arrive => bytes::put_bytes(buf, at, &keys::ARRIVE),
        Kind::Turn => bytes::put_bytes(buf, at, &keys::TURN),
        Kind::Cost => bytes::put_bytes(buf, at, &keys::COST),
    }
}

// Writes a reply: its number, and after 23 the dependency.
fn put_reply(buf: &mut [u8], at: usize, answer: Answer) -> usize
    requires { at < 2 ^ 30 }
    ensures { Put buf.old at (reply_text answer.number answer.detail) buf.new result }
{
    let a = numbers::put_number(buf, at, usize::from(answer.number));
    if answer.number != 23 {
        return a;
    }
    let b = bytes::put_byte(buf, a, keys::COLON);
    numbers::put_number(buf, b, answer.detail as usize)
}

// Writes what stands after the key of an answer.
fn put_value(buf: &mut [u8], at: usize, kind: Kind, answer: Answer) -> usize
    requires { at < 2 ^ 30 }
    ensures { Put buf.old at (value_text kind answer.number answer.detail) buf.new result }
{
    match kind {
        Kind::Grant | Kind::Arrive | Kind::Turn => put_reply(buf, at, answer),
        Kind::Cost => numbers::put_number(buf, at, answer.detail as usize),
    }
}

// Writes the line of an answer.
fn put_answer(buf: &mut [u8], at: usize, kind: Kind, answer: Answer) -> usize
    requires { at < 2 ^ 29 }
    ensures { Put buf.old at (answer_line kind answer.number answer.detail) buf.new result }
{
    let a = put_key(buf, at, kind);
    let b = put_value(buf, a, kind, answer);
    bytes::put_byte(buf, b, plan_keys::LINE_FEED)
}

// Writes the last line.
pub fn put_ending(buf: &mut [u8], at: usize, ending: Result<(), CallFault>) -> usize
    requires { at < 2 ^ 30 }
    ensures { Put buf.old at (ending_line ending) buf.new result }
{
    match ending {
        Ok(()) => bytes::put_bytes(buf, at, &keys::END_LINE),
        Err(CallFault::Malformed) => bytes::put_bytes(buf, at, &keys::MALFORMED_LINE),
        Err(CallFault::OutOfRange) => bytes::put_bytes(buf, at, &keys::RANGE_LINE),
    }
}

// Writes the lines of the answers to these requests.
pub fn put_answers(buf: &mut [u8], at: usize, requests: &[Request], answers: &[Answer]) -> usize
    requires { (at < 2 ^ 24) × (length requests.now < 2 ^ 24) × (length requests.now ≤ length answers.now) }
    ensures { Put buf.old at (lines_in (length requests.now) requests.now answers.now) buf.new result }
{
    let mut next = at;
    for (i, request) in requests.iter().enumerate() {
        next = put_answer(buf, next, request.kind, answers[i]);
    }
    next
}
