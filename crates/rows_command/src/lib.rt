// The command of the program `rows`: it reads a job, and prints its answer.

#![tactic(auto)]

use jobs::{MOST_INPUT, MOST_TEXT, answer};
use std::io;
use std::io::{Read, Write};

/// Reads at most 4,096 bytes of standard input and prints what `jobs::answer` makes of them: the
/// listing of the rows, a fault or a refusal. Of the bytes `04 00 02 00 03 00 02 00` it prints
/// `0 1`, `0 2`, `1 2` and `end`, a line each. An error is one of the system, or memory that ran
/// out; then a front of the text may have been printed.
pub fn run<R: Input + Print + AllocGlobal>(rt: &R) -> io::Result<()> {
    let mut input = Vec::new(rt.alloc());
    rt.reader().take(MOST_INPUT as u64).read_to_end(&mut input)?;
    let mut text = [0; MOST_TEXT];
    let count = answer(input.as_slice(), &mut text);
    io::writer(rt).write_all(&text[0..count])
}
