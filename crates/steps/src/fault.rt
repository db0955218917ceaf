ghost use Rattle.std.specs.Prelude.{Some};
ghost use Rattle.std.specs.Fmt.{DisplaysOnOk, DisplaysStyledOnOk, formatter_spec};
ghost use Rattle.steps.specs.Fault.{origin_text, fault_text, ToldApart};

use std::error::Error;
use std::fmt;

/// What went wrong: who met it, why, and where.
///
/// All three are plain numbers, since every adapter hands a fault up as it came, also one with
/// numbers of its maker's own. It prints what it holds: `fault of a source, cause 5, at byte 24`,
/// `fault of a predicate, cause 7`. The place is told where a source met the fault, and where it is
/// not 0. So two faults that differ print different texts.
#[derive(Clone, Copy, PartialEq, Eq, Debug)]
pub struct Fault {
    /// Who met it: `SOURCE`, `PREDICATE`, `KEY` or `JOINING`, the numbers 1 to 4.
    pub origin: u8,
    /// Why, by a number that whoever met it fixes; for records it is 1 to 5.
    pub cause: u16,
    /// The first byte of the faulty record, counted from 0. Only sources tell it, others give 0.
    pub place: u64,
}

impl Fault {
    /// The origin of a source's fault.
    pub const SOURCE: u8 = 1;

    /// The origin of a predicate's fault.
    pub const PREDICATE: u8 = 2;

    /// The origin of a key kind's fault.
    pub const KEY: u8 = 3;

    /// The origin of a joining's fault.
    pub const JOINING: u8 = 4;
}

// Who met a fault, in words.
#[derive(Clone, Copy)]
struct Origin(u8);

impl fmt::Display for Origin {
    ghost output = { λ o. Some (origin_text o.0) };

    fn fmt<W: fmt::Write>(&self, f: &mut fmt::Formatter<W>) -> fmt::Result {
        match self.0 {
            Fault::SOURCE => write!(f, "a source"),
            Fault::PREDICATE => write!(f, "a predicate"),
            Fault::KEY => write!(f, "a key kind"),
            Fault::JOINING => write!(f, "a joining"),
            other => write!(f, "origin {other}"),
        }
    }
}

impl fmt::Display for Fault {
    ghost output = { λ e. Some (fault_text e) };

    #[tactic(auto, using(crate::proofs::FaultLemmas::told_apart))]
    fn fmt<W: fmt::Write>(&self, f: &mut fmt::Formatter<W>) -> fmt::Result
        ensures writes { DisplaysOnOk W.write_str_gives f.old result
            (⟦<Fault as fmt::Display>⟧.output self.now) f.new }
        ensures styled { DisplaysStyledOnOk W.write_str_gives f.old result
            (⟦<Fault as fmt::Display>⟧.styled_output self.now (formatter_spec f.old)) f.new }
        // two faults that differ print different texts
        ensures law { ToldApart }
    {
        let (origin, cause, place) = (Origin(self.origin), self.cause, self.place);
        write!(f, "fault of {origin}, cause {cause}")?;
        if self.origin == Fault::SOURCE || place != 0 {
            write!(f, ", at byte {place}")?;
        }
        Ok(())
    }
}

impl Error for Fault {}
