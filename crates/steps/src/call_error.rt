ghost use Rattle.std.specs.Prelude.{◌≡◌, Some};
ghost use Rattle.steps.specs.declared.call_error.CallError.TheVariants.{
  Refused as refused_by,
  Broken as broken_by,
};
ghost use Rattle.steps.specs.CallError.{call_error_text};

use crate::fault::Fault;
use crate::refusal::Refusal;
use std::error::Error;
use std::fmt;

/// Why a call that may be refused and may draw gave no answer: it was refused, or a fault came up
/// from below.
///
/// Both become one by `?`. A refused call changed nothing; after a fault the call may be made
/// again. It prints what it holds: `refused (6): a tee's step needs a draw and its store is full`,
/// or `fault of a source, cause 5, at byte 24`.
#[derive(Clone, Copy, PartialEq, Eq, Debug)]
pub enum CallError {
    /// The arguments were wrong, or there was no place.
    Refused(Refusal),
    /// A fault came up, with its three numbers as they came.
    Broken(Fault),
}

impl From<Refusal> for CallError {
    ghost from_gives = { λ n r. r ≡ refused_by n };

    fn from(refusal: Refusal) -> CallError {
        CallError::Refused(refusal)
    }
}

impl From<Fault> for CallError {
    ghost from_gives = { λ f r. r ≡ broken_by f };

    fn from(fault: Fault) -> CallError {
        CallError::Broken(fault)
    }
}

impl fmt::Display for CallError {
    ghost output = { λ e. Some (call_error_text e) };

    fn fmt<W: fmt::Write>(&self, f: &mut fmt::Formatter<W>) -> fmt::Result {
        match self {
            CallError::Refused(refusal) => write!(f, "{refusal}"),
            CallError::Broken(fault) => write!(f, "{fault}"),
        }
    }
}

impl Error for CallError {}
