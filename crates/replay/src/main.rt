// Reads scenarios from standard input, one to a line, runs each on the library's public calls, and
// writes what every call answered. docs/replay.md has the form of a scenario and of the answers.

#![tactic(auto)]

mod adapter;
mod enumerator;
mod flaw;
mod form;
mod groupby;
mod listing;
mod plain;
mod play;
mod rule;
mod scenario;
mod show;
mod tees;

use std::io;
use std::io::{BufRead, BufReader};

fn main(rt: HostRuntime) -> io::Result<()> {
    let alloc = rt.alloc();
    for line in BufReader::new(alloc, rt.stdin())?.split(alloc, b'\n') {
        let line = line?;
        if !scenario::is_silent(line.as_slice()) {
            scenario::replay(&rt, alloc, line.as_slice())?;
        }
    }
    Ok(())
}
