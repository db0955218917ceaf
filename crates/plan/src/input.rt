ghost use Rattle.std.specs.Prelude.{◌≡◌, ◌↔◌, ℕ, List, IsTrue, IfOk, OnOk, IfSome};
ghost use Rattle.std.specs.Io.KnownBytes.{Appends};
ghost use Rattle.sources.specs.Records.{records_from};
ghost use Rattle.plan.specs.Pass.{Passes};
ghost use Rattle.plan.specs.Account.{all_clear};
ghost use Rattle.plan.specs.Outcome.{report_text, Tells};

use crate::account::Account;
use crate::outcome::report;
use std::alloc::Global;
use std::error::Error;
use std::io::{Read, Write};
use std::{fmt, io};

/// Why there is no report of a plan. It prints `the plan cannot be read: ` or
/// `the report cannot be written: `, and then the error behind it.
#[derive(Debug, Drop)]
pub enum Unreported {
    /// It could not be read to its end, or memory ran out before that.
    Unread(io::Error),
    /// The report could not be written, or memory ran out when the plan had been read.
    Unwritten(io::Error),
}

impl fmt::Display for Unreported {
    fn fmt<W: fmt::Write>(&self, f: &mut fmt::Formatter<W>) -> fmt::Result {
        match self {
            Unreported::Unread(error) => write!(f, "the plan cannot be read: {error}"),
            Unreported::Unwritten(error) => write!(f, "the report cannot be written: {error}"),
        }
    }
}

impl Error for Unreported {}

// All that a reader has left.
fn read_whole<R: Read>(alloc: Global, input: &mut R) -> io::Result<Vec<u8>>
    ensures { IfOk result (λ v. IfSome (R.remaining input.old) (λ bytes. v.items ≡ bytes)) }
{
    let mut bytes = Vec::new(alloc);
    input.read_to_end(&mut bytes)?;
    Ok(bytes)
}

/// Reads a plan to its end, and reports it under a name, as `report` does: all that the program
/// does with a plan. Answers what was counted; where there is no report it says why, and the front
/// of the report may have been written.
pub fn report_from<R: Read, W: Write>(
    alloc: Global,
    out: &mut W,
    name: &str,
    input: &mut R,
) -> Result<Account, Unreported>
    ensures verdict { IfOk result (λ a. IfSome (R.remaining input.old) (λ bytes.
        IsTrue (all_clear a) ↔ Passes (records_from bytes 0))) }
    ensures text { OnOk result (IfSome (R.remaining input.old) (λ bytes.
        Appends (W.contents out.old) (W.contents out.new) (report_text name.now bytes))) }
    ensures law { OnOk result (IfSome (R.remaining input.old) (λ bytes. (text : List ℕ)
        × Appends (W.contents out.old) (W.contents out.new) text × Tells name.now bytes text)) }
{
    match read_whole(alloc, input) {
        Err(error) => Err(Unreported::Unread(error)),
        Ok(bytes) => match report(alloc, out, name, bytes.as_slice()) {
            Err(error) => Err(Unreported::Unwritten(error)),
            Ok(account) => Ok(account),
        },
    }
}
