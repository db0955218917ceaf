// Prints the rows that a job on standard input asks for, or why there are none. What it does:
// crates/rows_command.

#![tactic(auto)]

use rows_command::run;
use std::io;

fn main(rt: HostRuntime) -> io::Result<()> {
    run(&rt)
}
