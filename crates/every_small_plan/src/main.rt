// Prints every small plan in order, one text after the other and nothing between.
#![tactic(auto)]

use std::io;
use std::io::Write;

// More than the longest text, which has 97 bytes.
const ROOM: usize = 128;

fn print_plan<W: Write>(out: &mut W, number: usize) -> io::Result<()> {
    let mut buffer = [0u8; ROOM];
    let answer = small_plans::small_plan(number, &mut buffer);
    if let Ok(length) = answer {
        out.write_all(&buffer[..length])?;
    }
    Ok(())
}

fn main(rt: HostRuntime) -> io::Result<()> {
    let mut out = rt.stdout();
    for number in 0..small_plans::PLANS {
        print_plan(&mut out, number)?;
    }
    Ok(())
}
