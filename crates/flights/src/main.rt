// Runs the flights of document 01 that are not in the proved set, names with capitals (document 02, point 5), five readings of our own, and texts with leg lengths (point 14). Each plan text is
// read; printed are the number of the answer and, of a refusal by the text, the byte offset of the line at fault. Then inputs of `field` that go past its first buffer (point 12), and what it prints of
// flight Q with leg lengths.
#![tactic(auto)]

mod texts;

ghost use Rattle.std.specs.Prelude.{◌<◌, ◌^◌, length};

use dispatch::program;
use lines::bytes;
use reading::replies::Refusal;
use std::io;
use std::io::Write;

// Where in the text the line at fault begins.
fn print_where<W: Write>(out: &mut W, refusal: Refusal) -> io::Result<()> {
    match refusal {
        Refusal::SiteForm(offset)
        | Refusal::SiteRange(offset)
        | Refusal::TooLong(offset)
        | Refusal::Form(offset)
        | Refusal::Range(offset)
        | Refusal::Name(offset)
        | Refusal::SameName(offset)
        | Refusal::TooManyStops(offset) => write!(out, " at {offset}"),
        _ => Ok(()),
    }
}

// Reads a plan text and prints the line of its reading.
fn print_reading<W: Write>(out: &mut W, title: &str, text: &[u8]) -> io::Result<()> {
    let reading = program::read_text(text);
    let number = program::number_of(reading);
    write!(out, "{title}: {number}")?;
    if let Err(refusal) = reading {
        print_where(out, refusal)?;
    }
    writeln!(out)
}

// Fills a buffer from a byte on with the line `cost=0`, again and again; the last is cut where the buffer ends.
fn fill(buffer: &mut [u8], from: usize) {
    for i in from..buffer.len() {
        buffer[i] = texts::COST_LINE[(i - from) % 7];
    }
}

// Prints how long the output is, and its last bytes.
fn print_output<W: Write>(
    out: &mut W,
    title: &str,
    first: &[u8; program::BUFFER],
    second: &[u8; program::BUFFER + 1],
    more: usize,
    shown: usize,
) -> io::Result<()> {
    let mut output = [0u8; program::OUTPUT];
    let length = program::transcript(first, program::BUFFER, second, more, &mut output);
    let start = length.saturating_sub(shown);
    writeln!(out, "{title}: {length} bytes:")?;
    out.write_all(&output[start..length])
}

// Inputs of `field` that go past its first buffer (document 02, point 12): a line may lie across the two, and more than both hold is too long.
fn print_across_buffers<W: Write>(out: &mut W) -> io::Result<()> {
    let mut first = [0u8; program::BUFFER];
    let mut second = [0u8; program::BUFFER + 1];
    // flight Q, its cost until four bytes are left, and `turn=0` across: the cost after it shows that it was read
    bytes::put_bytes(&mut first, 0, &texts::Q);
    fill(&mut first, 138);
    bytes::put_bytes(&mut first, program::BUFFER - 4, b"turn");
    bytes::put_bytes(&mut second, 0, b"=0\n");
    fill(&mut second, 3);
    print_output(out, texts::ACROSS_TITLE, &first, &second, 10, 24)?;
    // the last line is cut
    print_output(out, texts::FULL_TITLE, &first, &second, program::BUFFER, 14)?;
    print_output(
        out,
        texts::OVER_TITLE,
        &first,
        &second,
        program::BUFFER + 1,
        14,
    )?;
    // no line of the first buffer is `end=plan`, which lies across
    fill(&mut first, 0);
    bytes::put_bytes(&mut first, program::BUFFER - 5, b"\nend=");
    bytes::put_bytes(&mut second, 0, b"plan\n");
    print_output(out, texts::BEYOND_TITLE, &first, &second, 5, 14)
}

// Prints the output for a plan text and the call lines after it.
fn print_calls<W: Write>(out: &mut W, title: &str, text: &[u8], calls: &[u8]) -> io::Result<()>
    requires { (length text.now < 2 ^ 16) × (length calls.now < 2 ^ 16) }
{
    let mut first = [0u8; program::BUFFER];
    let second = [0u8; program::BUFFER + 1];
    let mut output = [0u8; program::OUTPUT];
    let end = bytes::put_bytes(&mut first, 0, text);
    let count = bytes::put_bytes(&mut first, end, calls);
    let length = program::transcript(&first, count, &second, 0, &mut output);
    writeln!(out, "{title}:")?;
    out.write_all(&output[..length])
}

// What `field` prints of flight Q with leg lengths (document 02, point 14).
fn print_with_legs<W: Write>(out: &mut W) -> io::Result<()> {
    // every reply as Q's
    print_calls(out, texts::PLAIN_TITLE, &texts::Q, &texts::CALLS)?;
    print_calls(
        out,
        texts::LEGS_OF_ONE_TITLE,
        &texts::LEGS_OF_ONE,
        &texts::CALLS,
    )?;
    // drone 0 is at its stops in rounds 1, 1 + 3 = 4 and 5; drone 1's stop 1 awaits drone 0's stop 3, so it is there in round 5 + 1 = 6 and at its stop 2 in round 7: cost 5 + 7 = 12. Turned: drone
    // 1 in rounds 1 and 2, and drone 0, whose stop 2 awaits that, in rounds 1, 2 + 3 = 5 and 6: 6 + 2 = 8. Turned back, from its stop 1 on drone 0 has 3 + 1 rounds left and drone 1 has 4 + 2: 10, and
    // 10 too while it is under way, since it counts its full leg; from its stop 2 on 1 and 1 + 2: 4
    print_calls(
        out,
        texts::LEG_OF_THREE_TITLE,
        &texts::LEG_OF_THREE,
        &texts::LEG_CALLS,
    )
}

// "Flights to try", and point 12's "64 drones are taken, 65 give 4": 33 are taken now.
fn print_flights<W: Write>(out: &mut W) -> io::Result<()> {
    print_reading(out, texts::EMPTY_TITLE, &texts::EMPTY)?;
    print_reading(out, texts::DRONES_32_TITLE, &texts::DRONES_32)?;
    print_reading(out, texts::DRONES_33_TITLE, &texts::DRONES_33)?;
    print_reading(out, texts::DRONES_64_TITLE, &texts::DRONES_64)?;
    print_reading(out, texts::DRONES_65_TITLE, &texts::DRONES_65)?;
    print_reading(out, texts::NAME_24_TITLE, &texts::NAME_24)?;
    print_reading(out, texts::NAME_25_TITLE, &texts::NAME_25)?;
    print_reading(out, texts::LOCATION_OVER_TITLE, &texts::LOCATION_OVER)?;
    print_reading(out, texts::TIME_TOP_TITLE, &texts::TIME_TOP)
}

// Names with capitals.
fn print_capitals<W: Write>(out: &mut W) -> io::Result<()> {
    print_reading(out, texts::CAPITALS_TITLE, &texts::CAPITALS)?;
    print_reading(
        out,
        texts::EIGHTEENTH_CAPITAL_TITLE,
        &texts::EIGHTEENTH_CAPITAL,
    )?;
    print_reading(out, texts::CAPITAL_KEY_TITLE, &texts::CAPITAL_KEY)?;
    print_reading(out, texts::CAPITALS_24_TITLE, &texts::CAPITALS_24)
}

// Our own.
fn print_own<W: Write>(out: &mut W) -> io::Result<()> {
    print_reading(out, texts::BRACKET_TITLE, &texts::BRACKET)?;
    print_reading(out, texts::LOCATION_TOP_TITLE, &texts::LOCATION_TOP)?;
    print_reading(out, texts::TIME_OVER_TITLE, &texts::TIME_OVER)?;
    print_reading(out, texts::EIGHTEENTH_TITLE, &texts::EIGHTEENTH)?;
    let long = [b'a'; 65537];
    print_reading(out, texts::LONG_TITLE, &long)
}

// Leg lengths: each time rises by the leg at least, 12 after 8 and before 9.
fn print_legs<W: Write>(out: &mut W) -> io::Result<()> {
    print_reading(out, texts::LEG_TOP_TITLE, &texts::LEG_TOP)?;
    print_reading(out, texts::LEG_LONG_TITLE, &texts::LEG_LONG)?;
    print_reading(out, texts::LEG_LONG_SAME_TITLE, &texts::LEG_LONG_SAME)?;
    print_reading(out, texts::LEG_NOT_RISING_TITLE, &texts::LEG_NOT_RISING)?;
    print_reading(out, texts::LEG_SAME_TITLE, &texts::LEG_SAME)
}

// A leg's range, and the numbers in a line.
fn print_leg_lines<W: Write>(out: &mut W) -> io::Result<()> {
    print_reading(out, texts::LEG_61_TITLE, &texts::LEG_61)?;
    print_reading(out, texts::LEG_0_TITLE, &texts::LEG_0)?;
    print_reading(out, texts::LEG_AT_FIRST_TITLE, &texts::LEG_AT_FIRST)?;
    print_reading(out, texts::LEG_ABSENT_TITLE, &texts::LEG_ABSENT)?;
    print_reading(out, texts::LEG_ABSENT_RANGE_TITLE, &texts::LEG_ABSENT_RANGE)?;
    print_reading(out, texts::LEG_PLAIN_TITLE, &texts::LEG_PLAIN)?;
    print_reading(out, texts::LEG_TWICE_TITLE, &texts::LEG_TWICE)?;
    print_reading(out, texts::FORM_3_TITLE, &texts::FORM_3)
}

// The readings in parts: a function that makes all of these calls is checked in a time that goes with the square of their number.
fn main(rt: HostRuntime) -> io::Result<()> {
    let mut out = rt.stdout();
    print_flights(&mut out)?;
    print_capitals(&mut out)?;
    print_own(&mut out)?;
    print_legs(&mut out)?;
    print_leg_lines(&mut out)?;
    // of `field`
    print_across_buffers(&mut out)?;
    print_with_legs(&mut out)
}
