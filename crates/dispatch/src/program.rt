// The whole way from the input of `field` to its output.
ghost use Rattle.std.specs.Prelude.{◌≡◌};
ghost use Rattle.tables.specs.Limits.{limits};
ghost use Rattle.lines.specs.Bytes.{Put};
ghost use Rattle.reading.specs.Replies.{reading_number, reading_meant};
ghost use Rattle.reading.specs.Reading.{read_plan, without};
ghost use Rattle.transcript.specs.Output.{output_of};
ghost use Rattle.dispatch.specs.Transcribing.{zero_tables, reading_of, RequestRoom, Transcribed};

use crate::answers;
use crate::requests::run;
use reading::replies::Refusal;
use transcript::keys::Kind;
use transcript::replies::Answer;
use transcript::requests::{Request, plan_end, read_requests};
use transcript::{buffers, replies};

// The input comes in two buffers of so many bytes; the second has one more.
pub const BUFFER: usize = buffers::BUFFER;

// A call line has seven bytes at least, so there are no more requests.
const REQUESTS: usize = buffers::INPUT / 7 + 1;

// A buffer of so many bytes holds every output: a call line of seven bytes or more is answered by 23 at most.
pub const OUTPUT: usize = 4 * buffers::INPUT;

// Reads the call lines, runs the plan with them, and writes the answers.
fn play(input: &[u8], output: &mut [u8], requests: &mut [Request], answers: &mut [Answer]) -> usize
    requires { RequestRoom requests.old answers.old }
    ensures { Put output.old 0 (output_of reading_of input.now) output.new result }
{
    if buffers::INPUT < input.len() {
        return replies::put_plan(output, 0, 1);
    }
    let end = plan_end(input);
    let read = read_requests(input, end, requests);
    let asked = &requests[..read.count];
    let reading = run(&input[..end], asked, answers);
    let number = answers::reading_number(reading);
    let next = replies::put_plan(output, 0, number);
    if number != 0 {
        return next;
    }
    let after = replies::put_answers(output, next, asked, answers);
    replies::put_ending(output, after, read.ending)
}

// Writes the output of the program for this input, as far as the buffer reaches, and answers its length.
fn transcribe(input: &[u8], output: &mut [u8]) -> usize
    ensures { Put output.old 0 (output_of reading_of input.now) output.new result }
{
    let none = Request {
        kind: Kind::Grant,
        number: 0,
    };
    let mut requests = [none; REQUESTS];
    let mut answers = [Answer {
        number: 0,
        detail: 0,
    }; REQUESTS];
    play(input, output, &mut requests, &mut answers)
}

// The output for the bytes that were read into two buffers, as many as `count` and `more` say. Buffers that were filled show a longer input by the last byte, and no shorter ones
// are of these types.
pub fn transcript(
    first: &[u8; BUFFER],
    count: usize,
    second: &[u8; BUFFER + 1],
    more: usize,
    output: &mut [u8; OUTPUT],
) -> usize
    ensures { Transcribed first.now count second.now more output.old output.new result }
{
    let mut input = [0u8; buffers::INPUT + 1];
    let end = buffers::join(first, count, second, more, &mut input);
    transcribe(&input[..end], output)
}

// What reading a plan text answers, on tables of its own.
pub fn read_text(text: &[u8]) -> Result<(), Refusal>
    ensures { reading_meant result ≡ (read_plan limits without text.now (zero_tables limits)).reply }
{
    run(text, &[], &mut [])
}

// The number of a reading: 0 for a plan that is taken.
pub fn number_of(reading: Result<(), Refusal>) -> usize
    ensures { result ≡ reading_number (reading_meant reading) }
{
    answers::reading_number(reading)
}
