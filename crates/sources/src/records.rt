ghost use Rattle.std.specs.Prelude.{◌≡◌, []};
ghost use Rattle.steps.specs.Below.{lone};
ghost use Rattle.sources.specs.Frame.{Reads};
ghost use Rattle.sources.specs.Records.{record_step, records_from};

use crate::block::Block;
use crate::cause::Cause;
use crate::frame::{Frames, Record, word_of};
use steps::{Answer, Fault, Source};

// The kind of a record that holds a block.
const BLOCK: u16 = 0x0010;

/// Blocks read from record bytes: a block for each right record, and a fault for each bad one.
///
/// A block is a record of kind 0x0010 with a payload of four two-byte numbers, low byte first: bus,
/// bay, start minute, end minute. A fault has origin 1, the causes 1 to 5 (`Cause`), and as place
/// the first byte of its record.
#[derive(Drop)]
pub struct Records<'a> {
    frames: Frames<'a>,
}

impl<'a> Records<'a> {
    /// The blocks of these bytes. `08 00 10 00 07 00 02 00 68 01 72 01` are bus 7 at bay 2 from
    /// minute 360 to 370. No bytes are no blocks.
    pub fn new(bytes: &'a [u8]) -> Self
        ensures ahead { ⟦<Records<'a> as Source>⟧.ahead result ≡ records_from bytes.now 0 }
        ensures law { Reads record_step 0 bytes.now (⟦<Records<'a> as Source>⟧.ahead result) }
    {
        Records {
            frames: Frames::new(bytes),
        }
    }
}

// The block that a record holds, or what is wrong with it.
fn read_block(found: Record) -> Result<Block, Fault>
    ensures { result ≡ record_step found.entry.at found.entry.kind found.entry.payload.now }
{
    if found.kind != BLOCK {
        return Err(Cause::OtherKind.fault_at(found.at));
    }
    let [b0, b1, y0, y1, s0, s1, e0, e1] = found.payload else {
        return Err(Cause::OtherLength.fault_at(found.at));
    };
    let block = Block {
        bus: word_of(*b0, *b1),
        bay: word_of(*y0, *y1),
        start: word_of(*s0, *s1),
        end: word_of(*e0, *e1),
    };
    if !block.has_right_minutes() {
        return Err(Cause::WrongMinutes.fault_at(found.at));
    }
    Ok(block)
}

impl<'a> Source for Records<'a> {
    type Item = Block;

    ghost ahead = { λ s. records_from s.frames.bytes.now s.frames.at };

    ghost loans = { λ _. [] };

    ghost bottom = { λ s. lone (records_from s.frames.bytes.now s.frames.at) };

    #[tactic(auto, using(steps::proofs::Below::lone_drew))]
    fn next(&mut self) -> Result<Answer<Block>, Fault> {
        if self.frames.is_over() {
            return Ok(Answer::End);
        }
        let record = self.frames.take()?;
        read_block(record).map(Answer::Item)
    }
}
