// Flight Q by presses alone, until everybody has landed: a line for each press, with its number and the bits of the granted drones.
#![tactic(auto)]

use presses::{answers, runs};
use std::io;
use std::io::Write;

const TEXT: [u8; 138] =
    *b"plan=1\nagents=2\nname=survey-quad-east-1\nstops=4\ngo=1@0\ngo=6@1\ngo=5@2\ngo=2@3\nname=survey-quad-east-2\nstops=3\ngo=3@0\ngo=5@4\ngo=4@5\nend=plan\n";

// The reports of ten presses: nothing, or the drone that arrived.
const REPORTED: [u16; 10] = [answers::NOTHING, answers::NOTHING, 1, 7, 0, 0, 0, 1, 1, 1];

// For each press all of them up to it are made on fresh tables, and the last reply is shown.
fn main(rt: HostRuntime) -> io::Result<()> {
    let mut out = rt.stdout();
    for presses in 1..=REPORTED.len() {
        let last = runs::run_presses(&TEXT, &REPORTED[..presses]);
        writeln!(out, "press={}:{}", last.number, last.bits)?;
    }
    Ok(())
}
