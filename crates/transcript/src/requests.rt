// The input's parts: the plan's bytes, and the call lines after them.
ghost use Rattle.std.specs.Prelude.{◌≡◌, ◌+◌, ◌*◌, ◌≤◌, length};
ghost use Rattle.lines.specs.Keys.{line_feed};
ghost use Rattle.lines.specs.Numbers.{field_at};
ghost use Rattle.transcript.specs.Input.{starts_line, ends_plan, plan_end, most_of, numbered_call, call_at, requests_at, RequestsRead};

use crate::keys;
use crate::keys::Kind;
use lines::{bytes, keys as plan_keys, numbers};

// Whether a line starts at a position.
#[tactic(auto, unfolding(crate::specs::Input::starts_line))]
fn starts_line(text: &[u8], at: usize) -> bool
    ensures { result ≡ starts_line text.now at }
{
    at == 0 || bytes::byte_at(text, at - 1) == usize::from(plan_keys::LINE_FEED)
}

// Whether the line `end=plan` stands at a position.
#[tactic(auto, unfolding(crate::specs::Input::ends_plan))]
fn ends_plan(text: &[u8], at: usize) -> bool
    ensures { result ≡ ends_plan text.now at }
{
    starts_line(text, at) && bytes::starts(text, at, &plan_keys::END_LINE)
}

// How many bytes of the input are the plan.
pub fn plan_end(text: &[u8]) -> usize
    ensures { result ≡ plan_end text.now }
{
    for at in 0..text.len() {
        if ends_plan(text, at) {
            return at + plan_keys::END_LINE.len();
        }
    }
    text.len()
}

// What a call line asks for: a call of this kind, of a drone or a dependency; a cost has the number 0.
#[derive(Clone, Copy, Debug, PartialEq, Eq)]
pub struct Request {
    pub kind: Kind,
    pub number: u16,
}

// What the line asks for, and the position after it.
#[derive(Clone, Copy, Debug, PartialEq, Eq)]
pub struct CallLine {
    pub request: Request,
    pub next: usize,
}

// Why a call line is refused.
#[derive(Clone, Copy, Debug, PartialEq, Eq)]
pub enum CallFault {
    Malformed,
    OutOfRange,
}

// A drone or a dependency is 0 to 65,535.
const NUMBER_LIMIT: usize = 65_535;

// The greatest number after the key of a kind.
fn most_of(kind: Kind) -> usize
    ensures { result ≡ most_of kind }
{
    match kind {
        Kind::Grant | Kind::Arrive | Kind::Turn => NUMBER_LIMIT,
        Kind::Cost => 0,
    }
}

// The call of a kind, read from the number past its key: the form is judged before the range.
fn numbered_call(text: &[u8], at: usize, kind: Kind) -> Result<CallLine, CallFault>
    ensures { result ≡ numbered_call kind (field_at text.now at line_feed) }
{
    let Some(read) = numbers::field(text, at, plan_keys::LINE_FEED) else {
        return Err(CallFault::Malformed);
    };
    if most_of(kind) < read.value {
        return Err(CallFault::OutOfRange);
    }
    let request = Request {
        kind,
        number: read.value as u16,
    };
    Ok(CallLine {
        request,
        next: read.next,
    })
}

// A call line of any kind.
fn call_line(text: &[u8], at: usize) -> Result<CallLine, CallFault>
    ensures { result ≡ call_at text.now at }
{
    if bytes::starts(text, at, &keys::GRANT) {
        return numbered_call(text, at + keys::GRANT.len(), Kind::Grant);
    }
    if bytes::starts(text, at, &keys::ARRIVE) {
        return numbered_call(text, at + keys::ARRIVE.len(), Kind::Arrive);
    }
    if bytes::starts(text, at, &keys::TURN) {
        return numbered_call(text, at + keys::TURN.len(), Kind::Turn);
    }
    if bytes::starts(text, at, &keys::COST) {
        return numbered_call(text, at + keys::COST.len(), Kind::Cost);
    }
    Err(CallFault::Malformed)
}

// How many requests were read, and how their lines end: all of them, or at the first fault.
#[derive(Clone, Copy, Debug, PartialEq, Eq)]
pub struct Requests {
    pub count: usize,
    pub ending: Result<(), CallFault>,
}

// Reads the call lines up to the first fault. A line has seven bytes at least, so the table has room.
pub fn read_requests(text: &[u8], at: usize, requests: &mut [Request]) -> Requests
    requires { (at ≤ length text.now) × (length text.now ≤ 7 * length requests.old) }
    ensures { RequestsRead (requests_at text.now at) requests.old requests.new result.count result.ending }
{
    let mut count = 0;
    let mut here = at;
    // each line says where the next one starts, so the loop goes from position to position
    while here < text.len() {
        match call_line(text, here) {
            Ok(line) => {
                requests[count] = line.request;
                here = line.next;
            }
            Err(fault) => {
                return Requests {
                    count,
                    ending: Err(fault),
                };
            }
        }
        count += 1;
    }
    Requests {
        count,
        ending: Ok(()),
    }
}
