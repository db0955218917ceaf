ghost use Rattle.std.specs.Prelude.{◌≡◌};
ghost use Rattle.replay.specs.declared.flaw.Flaw.TheVariants.{Memory};

use std::alloc::{AllocError, AllocFailed};
use std::num::{ParseIntError, TryFromIntError};
use std::{fmt, io};

/// Why a scenario was not played to its end.
#[derive(Debug, Drop)]
pub enum Flaw {
    /// The line is not of a form that the program knows.
    Form,
    /// There was no memory for what was read or written.
    Memory,
    /// The answers were not taken.
    Output(io::Error),
}

impl From<AllocError> for Flaw {
    ghost from_gives = { λ _ flaw. flaw ≡ Memory };

    fn from(_error: AllocError) -> Flaw {
        Flaw::Memory
    }
}

impl<T: Drop> From<AllocFailed<T>> for Flaw {
    ghost from_gives = { λ _ flaw. flaw ≡ Memory };

    fn from(_error: AllocFailed<T>) -> Flaw {
        Flaw::Memory
    }
}

// Text is written to strings only, so that a failed write is a lack of memory.
impl From<fmt::Error> for Flaw {
    ghost from_gives = { λ _ flaw. flaw ≡ Memory };

    fn from(_error: fmt::Error) -> Flaw {
        Flaw::Memory
    }
}

// A word that is no number, or too large a one, is none that the form has.
impl From<ParseIntError> for Flaw {
    fn from(_error: ParseIntError) -> Flaw {
        Flaw::Form
    }
}

impl From<TryFromIntError> for Flaw {
    fn from(_error: TryFromIntError) -> Flaw {
        Flaw::Form
    }
}

impl From<io::Error> for Flaw {
    fn from(error: io::Error) -> Flaw {
        Flaw::Output(error)
    }
}
