ghost use Rattle.std.specs.Prelude.{◌≡◌, Some};
ghost use Rattle.sources.specs.Cause.{
  cause_number,
  CauseOf,
  cause_text,
  no_cause_text,
  number_text,
  record_fault_text,
};
ghost use Rattle.sources.specs.Frame.{broken};

use std::error::Error;
use std::fmt;
use steps::Fault;

/// What is wrong with the record of a block, by the number that its fault has as cause.
///
/// They are looked for in this order. A cause prints its words: `Cause::CutPayload` prints
/// `payload cut short`.
#[derive(Clone, Copy, PartialEq, Eq, Debug)]
pub enum Cause {
    /// 1: fewer than four bytes are left. Nothing is ahead after it.
    CutHeader = 1,
    /// 2: fewer bytes are left than the header tells. Nothing is ahead after it.
    CutPayload = 2,
    /// 3: the record holds no block. The next record is ahead after it.
    OtherKind = 3,
    /// 4: its payload is not of eight bytes. The next record is ahead after it.
    OtherLength = 4,
    /// 5: the block does not end after its start, or ends after minute 1,440, which is midnight.
    /// The next record is ahead after it.
    WrongMinutes = 5,
}

/// A number that no cause has. It prints the number: `no cause has the number 6`.
#[derive(Clone, Copy, PartialEq, Eq, Debug)]
pub struct UnknownCause(pub u16);

/// A fault of `Records`, told for those who read it beside the bytes: `record at byte 24, cause 5:
/// end not after start, or after midnight`.
///
/// The words are those of blocks' records: a source of another kind has causes of its own, and its
/// faults print as `Fault` does, without this. A number that no cause of a block's record has is
/// told as `unknown`. A fault that no source met names no record, and prints as `Fault` does:
/// `fault of a key kind, cause 7`.
#[derive(Clone, Copy, PartialEq, Eq, Debug)]
pub struct RecordFault(pub Fault);

impl Cause {
    /// The fault of a record that begins at this byte, counted from 0: cause 5 at byte 24 is the
    /// fault 1, 5, 24.
    pub fn fault_at(self, place: usize) -> Fault
        ensures { result ≡ broken (cause_number self) place }
    {
        Fault {
            origin: Fault::SOURCE,
            cause: self as u16,
            place: place as u64,
        }
    }

    /// What is wrong, in words: of `Cause::CutPayload` it is `payload cut short`.
    pub fn words(self) -> &'static str
        ensures { result.now ≡ cause_text self }
    {
        match self {
            Cause::CutHeader => "fewer than four bytes left",
            Cause::CutPayload => "payload cut short",
            Cause::OtherKind => "another kind of record",
            Cause::OtherLength => "payload not of eight bytes",
            Cause::WrongMinutes => "end not after start, or after midnight",
        }
    }

    /// The words of the cause that has this number, and `unknown` where none has: of 2 it is
    /// `payload cut short`.
    pub fn words_of(number: u16) -> &'static str
        ensures { result.now ≡ number_text number }
    {
        match Cause::try_from(number) {
            Ok(cause) => cause.words(),
            Err(UnknownCause(_)) => "unknown",
        }
    }
}

impl TryFrom<u16> for Cause {
    type Error = UnknownCause;

    ghost try_from_gives = { CauseOf };

    fn try_from(number: u16) -> Result<Self, UnknownCause> {
        match number {
            1 => Ok(Cause::CutHeader),
            2 => Ok(Cause::CutPayload),
            3 => Ok(Cause::OtherKind),
            4 => Ok(Cause::OtherLength),
            5 => Ok(Cause::WrongMinutes),
            _ => Err(UnknownCause(number)),
        }
    }
}

impl fmt::Display for Cause {
    ghost output = { λ c. Some (cause_text c) };

    fn fmt<W: fmt::Write>(&self, f: &mut fmt::Formatter<W>) -> fmt::Result {
        let words = self.words();
        write!(f, "{words}")
    }
}

impl Error for Cause {}

impl fmt::Display for UnknownCause {
    ghost output = { λ e. Some (no_cause_text e.0) };

    fn fmt<W: fmt::Write>(&self, f: &mut fmt::Formatter<W>) -> fmt::Result {
        let number = self.0;
        write!(f, "no cause has the number {number}")
    }
}

impl Error for UnknownCause {}

impl fmt::Display for RecordFault {
    ghost output = { λ r. Some (record_fault_text r.0) };

    fn fmt<W: fmt::Write>(&self, f: &mut fmt::Formatter<W>) -> fmt::Result {
        let fault = self.0;
        if fault.origin != Fault::SOURCE {
            return write!(f, "{fault}");
        }
        let (place, cause, words) = (fault.place, fault.cause, Cause::words_of(fault.cause));
        write!(f, "record at byte {place}, cause {cause}: {words}")
    }
}

impl Error for RecordFault {}
