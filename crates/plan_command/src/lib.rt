// The command of the plan checker: what it does with its arguments, and with which status it ends.

#![tactic(auto)]

mod sample;

use plan::{Account, Unreported, report_from};
use sample::SAMPLE;
use std::alloc::AllocError;
use std::env::{Env, FillError};
use std::fmt::Display;
use std::fs::Files;
use std::io::{BufWriter, Read, Write};
use std::process::ExitCode;
use std::{fs, io};

// The longest name that a system opens.
const LONGEST: usize = 4096;

const VERSION: &str = "plancheck 1.0";

const USAGE: &str = "usage: plancheck PLAN       check the plan in a file of record bytes
       plancheck -          check the plan on standard input
       plancheck --sample   check a small plan that is built in
       plancheck --help     print this
       plancheck --version  print the version

The last line printed is `plan passed`, or `plan failed` and why. The exit status is 0 for
a plan that passed, 1 for one that failed, and 2 where the plan could not be read or the
report not be written.";

// The status where there is no report.
const UNREPORTED: u8 = 2;

// Reports a plan on standard output.
fn report_on_output<R: Print + AllocGlobal, I: Read>(
    rt: &R,
    name: &str,
    input: &mut I,
) -> Result<Account, Unreported> {
    let alloc = rt.alloc();
    let mut out = BufWriter::new(alloc, io::writer(rt)).map_err(|error| Unreported::Unwritten(
        io::Error::from(error),
    ))?;
    let account = report_from(alloc, &mut out, name, input)?;
    out.flush().map_err(Unreported::Unwritten)?;
    Ok(account)
}

// Tells on standard error why there is no report.
fn refuse<R: Eprint>(rt: &R, name: &str, why: &impl Display) -> ExitCode {
    let _ = eprintln!(rt; "plancheck: {name}: {why}");
    ExitCode::from(UNREPORTED)
}

// Reports a plan: success where it passed, failure where it did not.
fn tell<R: Print + Eprint + AllocGlobal, I: Read>(rt: &R, name: &str, input: &mut I) -> ExitCode {
    match report_on_output(rt, name, input) {
        Ok(account) if account.passed() => ExitCode::SUCCESS,
        Ok(_) => ExitCode::FAILURE,
        Err(error) => refuse(rt, name, &error),
    }
}

// Prints a text, where that can be done.
fn show<R: Print>(rt: &R, text: &str) -> ExitCode {
    match println!(rt; "{text}") {
        Ok(()) => ExitCode::SUCCESS,
        Err(_) => ExitCode::from(UNREPORTED),
    }
}

// Does what the one argument asks for.
fn obey<R: Files + Input + Print + Eprint + AllocGlobal>(rt: &R, word: &str) -> ExitCode {
    match word {
        "--help" => show(rt, USAGE),
        "--version" => show(rt, VERSION),
        "--sample" => tell(rt, "the built-in sample", &mut SAMPLE.as_slice()),
        "-" => tell(rt, "standard input", &mut rt.reader()),
        option if option.starts_with('-') => refuse(rt, option, &"no such option; try --help"),
        path => match fs::open(rt, path) {
            Ok(mut file) => tell(rt, path, &mut file),
            Err(error) => refuse(rt, path, &Unreported::Unread(error)),
        },
    }
}

// A name that is not UTF-8 cannot be opened, but is told.
fn refuse_bytes<R: Eprint + AllocGlobal>(rt: &R, name: &[u8]) -> ExitCode {
    match String::from_utf8_lossy(rt.alloc(), name) {
        Ok(name) => refuse(
            rt,
            name.as_str(),
            &"the name is not UTF-8; try: plancheck - < PLAN",
        ),
        Err(AllocError) => refuse(rt, "the name is not UTF-8", &AllocError),
    }
}

// Tells on standard error how the program is called.
fn refuse_all<R: Eprint>(rt: &R) -> ExitCode {
    let _ = eprintln!(rt; "{USAGE}");
    ExitCode::from(UNREPORTED)
}

/// Does what the arguments ask for, as the usage lines say it, and answers the status to end with:
/// 0 for a plan that passed, 1 for one that failed, 2 where there is no report; why is told on
/// standard error. With `--sample` it reports the built-in sample, which passes.
pub fn run<R: Env + Files + Input + Print + Eprint + AllocGlobal>(rt: &R) -> ExitCode {
    let mut buffer = [0u8; LONGEST];
    if !matches!(rt.arg(2, &mut []), Err(FillError::NotPresent)) {
        return refuse_all(rt);
    }
    match rt.arg(1, &mut buffer) {
        Err(FillError::NotPresent) => refuse_all(rt),
        Err(FillError::TooLong) => refuse(rt, "PLAN", &"the name is longer than 4,096 bytes"),
        Ok(size) => {
            let name = &buffer[..size];
            match str::from_utf8(name) {
                Ok(word) => obey(rt, word),
                Err(_) => refuse_bytes(rt, name),
            }
        }
    }
}
