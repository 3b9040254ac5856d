// Judges one card: reads it from standard input and writes one line, 0 and the row count, or the refusal's number and its second number: what
// `desk::line::program_line` answers. So what isn't proved is the reading and the writing alone.
// A failed read is never taken for the end of the card: then standard output stays empty and standard error has a line.
#![tactic(auto)]

use desk::input::fill;
use desk::limits::BUFFER;
use desk::line::program_line;
use std::io;

// The bytes that are judged, and one more, by which a longer input shows.
const ROOM: usize = BUFFER + 1;

// Writes the line for an input.
fn report(rt: &impl Print, input: &[u8]) -> io::Result<()> {
    let answer = program_line(input);
    println!(rt; "{} {}", answer.number, answer.second)
}

fn main(rt: HostRuntime) -> io::Result<()> {
    let mut input = [0u8; ROOM];
    let mut source = rt.stdin();
    match fill(&mut source, &mut input) {
        Ok(n) => report(&rt, &input[..n]),
        Err(_) => rt.eprintln("intake: standard input can't be read"),
    }
}
