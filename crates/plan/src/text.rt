ghost use Rattle.std.specs.Prelude.{◌≡◌, Some, IfOk, OnOk};
ghost use Rattle.std.specs.Io.KnownBytes.{Appends};
ghost use Rattle.laws.specs.Items.{items as items_of, faults as faults_of};
ghost use Rattle.sources.specs.Records.{records_from};
ghost use Rattle.plan.specs.Text.{
  block_line,
  fault_line,
  joint_line,
  laid_lines,
  blocks_line,
  blocks_text,
  faults_text,
  joints_text,
  account_text,
};

use crate::account::Account;
use crate::bays::{Bays, Laid};
use crate::columns::{Bay, Stay, Taken};
use crate::seam::{Joint, Seam};
use sources::{Block, Cause, Records};
use std::alloc::Global;
use std::io::Write as _;
use std::{fmt, io};
use steps::{Answer, Fault, Source};

// The line of a block.
#[derive(Clone, Copy)]
struct BlockLine(Block);

impl fmt::Display for BlockLine {
    ghost output = { λ l. Some (block_line l.0) };

    fn fmt<W: fmt::Write>(&self, f: &mut fmt::Formatter<W>) -> fmt::Result {
        let (bay, stay) = (Bay(self.0.bay), Stay(self.0));
        writeln!(f, "  {bay}  {stay}")
    }
}

// The line of a faulty record.
#[derive(Clone, Copy)]
struct FaultLine(Fault);

impl fmt::Display for FaultLine {
    ghost output = { λ l. Some (fault_line l.0) };

    #[tactic(auto, using(crate::proofs::ColumnsLemmas::in_column))]
    fn fmt<W: fmt::Write>(&self, f: &mut fmt::Formatter<W>) -> fmt::Result {
        let (place, cause) = (self.0.place, self.0.cause);
        let words = Cause::words_of(cause);
        writeln!(f, "  byte {place:>7}  cause {cause}: {words}")
    }
}

// The line of two blocks that were laid side by side.
#[derive(Clone, Copy)]
struct JointLine(Joint);

impl fmt::Display for JointLine {
    ghost output = { λ l. Some (joint_line l.0) };

    #[tactic(auto, using(crate::proofs::ColumnsLemmas::in_column))]
    fn fmt<W: fmt::Write>(&self, f: &mut fmt::Formatter<W>) -> fmt::Result {
        let Joint {
            first,
            second,
            until,
            seam,
        } = self.0;
        let (bay, other) = (Bay(first.bay), second.bay);
        let (stay, next) = (Stay(first), Stay(second));
        let taken = Taken {
            end: first.end,
            until,
        };
        match seam {
            Seam::BayOutOfOrder => {
                writeln!(f, "  {bay}  is followed by bay {other}: out of order")
            }
            Seam::Overlap(minutes) => writeln!(
                f,
                "  {bay}  {stay}  then {next}  starts {minutes} min too early{taken}"
            ),
            Seam::Gap(minutes) => writeln!(
                f,
                "  {bay}  {stay}  then {next}  {minutes:>4} min unassigned{taken}"
            ),
        }
    }
}

// The lines of one more block, of what it was laid beside.
#[derive(Clone, Copy)]
struct LaidLines(Laid);

impl fmt::Display for LaidLines {
    ghost output = { λ l. Some (laid_lines l.0) };

    fn fmt<W: fmt::Write>(&self, f: &mut fmt::Formatter<W>) -> fmt::Result {
        if let Some(joint) = self.0.descent {
            let line = JointLine(joint);
            write!(f, "{line}")?;
        }
        if let Some(joint) = self.0.pair {
            let line = JointLine(joint);
            write!(f, "{line}")?;
        }
        Ok(())
    }
}

// A line for every block.
fn write_blocks<W: io::Write>(out: &mut W, bytes: &[u8]) -> io::Result<()>
    ensures { OnOk result (Appends (W.contents out.old) (W.contents out.new)
        (blocks_text (items_of (records_from bytes.now 0)))) }
{
    let mut records = Records::new(bytes);
    loop {
        match records.next() {
            Ok(Answer::Item(block)) => {
                let line = BlockLine(block);
                write!(out, "{line}")?;
            }
            Ok(Answer::End) => return Ok(()),
            Err(_) => {}
        }
    }
}

// A line for every faulty record.
fn write_faults<W: io::Write>(out: &mut W, bytes: &[u8]) -> io::Result<()>
    ensures { OnOk result (Appends (W.contents out.old) (W.contents out.new)
        (faults_text (faults_of (records_from bytes.now 0)))) }
{
    let mut records = Records::new(bytes);
    loop {
        match records.next() {
            Ok(Answer::Item(_)) => {}
            Ok(Answer::End) => return Ok(()),
            Err(fault) => {
                let line = FaultLine(fault);
                write!(out, "{line}")?;
            }
        }
    }
}

// A line for every two neighbouring blocks of a bay, and for every bay out of order.
fn write_neighbours<W: io::Write>(alloc: Global, out: &mut W, bytes: &[u8]) -> io::Result<()>
    ensures { OnOk result (Appends (W.contents out.old) (W.contents out.new)
        (joints_text (items_of (records_from bytes.now 0)))) }
{
    let mut records = Records::new(bytes);
    let mut bays = Bays::new(alloc);
    loop {
        match records.next() {
            Ok(Answer::Item(block)) => {
                let lines = LaidLines(bays.lay(block)?);
                write!(out, "{lines}")?;
            }
            Ok(Answer::End) => return Ok(()),
            Err(_) => {}
        }
    }
}

// How many blocks there are.
fn write_block_count<W: io::Write>(out: &mut W, blocks: usize) -> io::Result<()>
    ensures { OnOk result (Appends (W.contents out.old) (W.contents out.new) (blocks_line blocks)) }
{
    if blocks == 0 {
        writeln!(out, "no blocks")
    } else {
        writeln!(out, "blocks: {blocks}")
    }
}

/// Writes what a plan holds and how its blocks lie, without the plan's name and the verdict: a line
/// for each block, for each faulty record, for each two neighbours of a bay and for each bay out of
/// order, with how many there are. `account` has to be the plan's own.
///
/// An error is the writer's, or want of memory for a bay; then the front may have been written.
pub fn write_account<W: io::Write>(
    alloc: Global,
    out: &mut W,
    bytes: &[u8],
    account: Account,
) -> io::Result<()>
    ensures { OnOk result (Appends (W.contents out.old) (W.contents out.new)
        (account_text (records_from bytes.now 0) account)) }
{
    let (blocks, faults, pairs) = (account.blocks, account.faults, account.pairs);
    write_block_count(out, blocks)?;
    write_blocks(out, bytes)?;
    writeln!(out, "faulty records: {faults}")?;
    write_faults(out, bytes)?;
    writeln!(out, "neighbours")?;
    write_neighbours(alloc, out, bytes)?;
    writeln!(out, "pairs: {pairs}")
}
