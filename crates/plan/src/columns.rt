// The parts that the lines of an account are made of. Each tells by itself what it shows, as specs/
// says it.
ghost use Rattle.std.specs.Prelude.{Some};
ghost use Rattle.plan.specs.Columns.{clock, bay_text, stay, taken_text};

use sources::Block;
use std::fmt;

// A minute of the day, as hh:mm; minute 1,440 is 24:00.
#[derive(Clone, Copy)]
struct Clock(u16);

impl fmt::Display for Clock {
    ghost output = { λ t. Some (clock t.0) };

    #[tactic(auto, using(crate::proofs::ColumnsLemmas::with_zero))]
    fn fmt<W: fmt::Write>(&self, f: &mut fmt::Formatter<W>) -> fmt::Result {
        let (hours, minutes) = (self.0 / 60, self.0 % 60);
        write!(f, "{hours:02}:{minutes:02}")
    }
}

/// The number of a bay, right-aligned in five places: `bay     2`.
#[derive(Clone, Copy)]
pub struct Bay(pub u16);

impl fmt::Display for Bay {
    ghost output = { λ b. Some (bay_text b.0) };

    #[tactic(auto, using(crate::proofs::ColumnsLemmas::in_column))]
    fn fmt<W: fmt::Write>(&self, f: &mut fmt::Formatter<W>) -> fmt::Result {
        let number = self.0;
        write!(f, "bay {number:>5}")
    }
}

/// The bus of a block, right-aligned in five places, and from when to when it is charged:
/// `bus     7  06:00-06:10`.
#[derive(Clone, Copy)]
pub struct Stay(pub Block);

impl fmt::Display for Stay {
    ghost output = { λ s. Some (stay s.0) };

    #[tactic(auto, using(crate::proofs::ColumnsLemmas::in_column))]
    fn fmt<W: fmt::Write>(&self, f: &mut fmt::Formatter<W>) -> fmt::Result {
        let bus = self.0.bus;
        let (start, end) = (Clock(self.0.start), Clock(self.0.end));
        write!(f, "bus {bus:>5}  {start}-{end}")
    }
}

/// Until when a bay is taken, where that is not the end of the block that is shown:
/// ` (bay taken until 08:00)`; else nothing.
#[derive(Clone, Copy)]
pub struct Taken {
    /// The end of the block that is shown, in minutes of the day.
    pub end: u16,
    /// The minute until which its bay is taken.
    pub until: u16,
}

impl fmt::Display for Taken {
    ghost output = { λ t. Some (taken_text t.end t.until) };

    fn fmt<W: fmt::Write>(&self, f: &mut fmt::Formatter<W>) -> fmt::Result {
        if self.end == self.until {
            return Ok(());
        }
        let until = Clock(self.until);
        write!(f, " (bay taken until {until})")
    }
}
