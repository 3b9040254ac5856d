// Runs the services on stored cases (tests/make_cases.py makes them). A line of standard input is one of
//   @NAME   the service of the lines below
//   !TEXT   the base text of the lines below
//   CASE    in the form that the service's module says; a line is written for it
// and texts are in the notation of `lines`.
#![tactic(auto)]

mod buffers;
mod feeding;
mod lines;
mod localizing;
mod program;
mod reading;
mod storing;

use buffers::{Buffers, WORDS};
use desk::input::fill;
use lines::{ROOM, unpack};
use std::io;
use std::io::Read;

// All lines, with some room.
const INPUT: usize = 1900000;

// What the cases are for.
#[derive(Clone, Copy)]
enum Service {
    Reading,
    Judging,
    Localizing,
    Program,
    Feeding,
    Packing,
    Unpacking,
}

// The service of a name, by its first letter; a name that begins with a p is `packing`, or `program`.
fn named(name: &[u8]) -> Option<Service> {
    match name {
        [b'r', ..] => Some(Service::Reading),
        [b'j', ..] => Some(Service::Judging),
        [b'l', ..] => Some(Service::Localizing),
        [b'p', b'a', ..] => Some(Service::Packing),
        [b'p', ..] => Some(Service::Program),
        [b'f', ..] => Some(Service::Feeding),
        [b'u', ..] => Some(Service::Unpacking),
        _ => None,
    }
}

// Runs the lines, whose cases are lent the buffers; an empty line says nothing.
fn run(
    rt: &impl Print,
    all: &[u8],
    base: &mut [u8],
    text: &mut [u8],
    out: &mut [u8],
    table: &mut [u32],
) -> io::Result<()> {
    let mut service = None;
    for line in all.split(|b| *b == b'\n') {
        match line {
            [] => {}
            [b'@', name @ ..] => service = named(name),
            [b'!', line @ ..] => {
                unpack(line, b"", base);
            }
            _ => {
                let buffers = Buffers {
                    base,
                    text,
                    out,
                    table,
                };
                match service {
                    Some(Service::Reading) => reading::read_case(rt, line, buffers)?,
                    Some(Service::Judging) => reading::judge_case(rt, line, buffers)?,
                    Some(Service::Localizing) => localizing::case_of(rt, line, buffers)?,
                    Some(Service::Program) => program::case_of(rt, line, buffers)?,
                    Some(Service::Feeding) => feeding::case_of(rt, line, buffers)?,
                    Some(Service::Packing) => storing::pack_case(rt, line, buffers)?,
                    Some(Service::Unpacking) => storing::unpack_case(rt, line, buffers)?,
                    None => rt.print("no service\n")?,
                }
            }
        }
    }
    Ok(())
}

// Runs all lines of the input. The buffers become slices here and not in `main`: where arrays of that size are made, the check can't work out their
// lengths.
fn serve(
    rt: &impl Print,
    source: &mut impl Read,
    all: &mut [u8; INPUT],
    base: &mut [u8; ROOM],
    text: &mut [u8; ROOM],
    out: &mut [u8; ROOM],
    table: &mut [u32; WORDS],
) -> io::Result<()> {
    let n = fill(source, all)?;
    run(rt, &all[..n], base, text, out, table)
}

fn main(rt: HostRuntime) -> io::Result<()> {
    let mut all = [0u8; INPUT];
    let mut base = [0u8; ROOM];
    let mut text = [0u8; ROOM];
    let mut out = [0u8; ROOM];
    let mut table = [0u32; WORDS];
    let mut source = rt.stdin();
    serve(
        &rt,
        &mut source,
        &mut all,
        &mut base,
        &mut text,
        &mut out,
        &mut table,
    )
}
