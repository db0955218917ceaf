ghost use Rattle.std.specs.Prelude.{
  ◌≡◌,
  ◌↔◌,
  ℕ,
  true,
  false,
  List,
  ◌++◌,
  IsTrue,
  IfOk,
  OnOk,
  string_bytes,
  codes,
};
ghost use Rattle.std.specs.List.{fold};
ghost use Rattle.std.specs.Io.KnownBytes.{Appends};
ghost use Rattle.sources.specs.Records.{records_from};
ghost use Rattle.plan.specs.Pass.{Passes};
ghost use Rattle.plan.specs.Account.{account_of, all_clear};
ghost use Rattle.plan.specs.Outcome.{and_reason, report_text, verdict_line, OneLine, Tells};

use crate::account::{Account, check};
use crate::text::write_account;
use std::alloc::{AllocError, Global};
use std::fmt::Write as _;
use std::io;
use std::io::Write as _;

// `plan failed`, and the reasons of which there is any, each with how many there are of it.
fn failed(alloc: Global, reasons: &[(usize, &str)]) -> Result<String, AllocError>
    ensures { IfOk result (λ s.
        string_bytes s ≡ fold and_reason (codes "plan failed") reasons.now) }
{
    let mut line = String::from_str(alloc, "plan failed")?;
    let mut mark = ": ";
    for &(count, reason) in reasons {
        if count != 0 {
            write!(line, "{mark}{reason} {count}")?;
            mark = ", ";
        }
    }
    Ok(line)
}

/// The one line that planners read: `plan passed`, or `plan failed` and why, as in
/// `plan failed: overlaps 1, gaps of ten minutes or more 2`. An error is want of memory alone.
#[tactic(auto, unfolding(crate::specs::Outcome::failed_line))]
pub fn verdict(alloc: Global, account: Account) -> Result<String, AllocError>
    ensures line { IfOk result (λ s. string_bytes s ≡ verdict_line account) }
    ensures single { IfOk result (λ s. OneLine (string_bytes s)) }
    ensures law { IfOk result (λ s.
        (all_clear account ≡ true → string_bytes s ≡ codes "plan passed")
        × (all_clear account ≡ false →
        (why : List ℕ) × (string_bytes s ≡ codes "plan failed" ++ why))) }
{
    if account.passed() {
        return String::from_str(alloc, "plan passed");
    }
    failed(
        alloc,
        &[
            (account.faults, "faulty records"),
            (account.overlaps, "overlaps"),
            (account.out_of_order, "bays out of order"),
            (account.long_gaps, "gaps of ten minutes or more"),
        ],
    )
}

/// Checks a plan from its record bytes, and writes all that is to be said of it: the plan's name,
/// its blocks, its faulty records, every two neighbouring blocks of a bay, and the verdict as the
/// last line. Under the name `tuesday.plan` a plan of three blocks begins with
/// `plan: tuesday.plan, 36 bytes` and `blocks: 3`, a line each.
///
/// What is written grows with the plan; what is held in memory grows with its bays. An error is
/// want of memory or the writer's own; then the front of the report may have been written.
pub fn report<W: io::Write>(
    alloc: Global,
    out: &mut W,
    name: &str,
    bytes: &[u8],
) -> io::Result<Account>
    ensures counts { IfOk result (λ a. a ≡ account_of (records_from bytes.now 0)) }
    ensures verdict { IfOk result (λ a. IsTrue (all_clear a) ↔ Passes (records_from bytes.now 0)) }
    ensures text { OnOk result (Appends (W.contents out.old) (W.contents out.new)
        (report_text name.now bytes.now)) }
    ensures law { OnOk result ((text : List ℕ)
        × Appends (W.contents out.old) (W.contents out.new) text × Tells name.now bytes.now text) }
{
    let account = check(alloc, bytes)?;
    let line = verdict(alloc, account)?;
    let size = bytes.len();
    writeln!(out, "plan: {name}, {size} bytes")?;
    write_account(alloc, out, bytes, account)?;
    writeln!(out, "{line}")?;
    Ok(account)
}
