// Reads standard input into two buffers, and writes what document 01 says of it to standard output. One byte past the limit is read, so that a longer input shows.
#![tactic(auto)]

ghost use Rattle.std.specs.Prelude.{◌<◌, IfOk, length, take};
ghost use Rattle.std.specs.Io.{ReadsAtMost};
ghost use Rattle.std.specs.Io.KnownBytes.{Consumes, IsAtEnd};

use dispatch::program;
use std::io;
use std::io::{Read, Write};

// Reads until the buffer is full or the input ends, and answers how many bytes were read.
fn read_full<R: Read>(input: &mut R, buf: &mut [u8]) -> io::Result<usize>
    ensures bound { ReadsAtMost result buf.new }
    ensures bytes { IfOk result (λ n. Consumes (R.remaining input.old) (R.remaining input.new) (take n buf.new)) }
    ensures end { IfOk result (λ n. n < length buf.new → IsAtEnd (R.remaining input.new)) }
{
    let mut done = 0;
    // each turn goes on by as many bytes as its read gave
    while done < buf.len() {
        let n = input.read(&mut buf[done..])?;
        if n == 0 {
            break;
        }
        done += n;
    }
    Ok(done)
}

fn main(rt: HostRuntime) -> io::Result<()> {
    let mut first = [0u8; program::BUFFER];
    let mut second = [0u8; program::BUFFER + 1];
    let mut output = [0u8; program::OUTPUT];
    let mut input = rt.stdin();
    let count = read_full(&mut input, &mut first)?;
    let more = read_full(&mut input, &mut second)?;
    let length = program::transcript(&first, count, &second, more, &mut output);
    rt.stdout().write_all(&output[..length])
}
