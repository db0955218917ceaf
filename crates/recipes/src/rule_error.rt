ghost use Rattle.std.specs.Prelude.{◌≡◌, Some};
ghost use Rattle.recipes.specs.declared.rule_error.RuleError.TheVariants.{
  Broken as broken_by,
  Refused as refused_by,
  Memory as wanting,
};
ghost use Rattle.recipes.specs.RuleError.{rule_error_of, rule_error_text};
ghost use Rattle.std.specs.declared.alloc.AllocError.{AllocError as OfMemory};

use std::alloc::{AllocError, AllocFailed};
use std::error::Error;
use std::fmt;
use steps::{CallError, Fault, MakingError, Refusal};

/// Why a rule that makes a list gave none: a fault came up from below, a call was refused, or
/// memory was wanting. Each becomes one by `?`. It prints what it holds, as `CallError` does.
#[derive(Clone, Copy, PartialEq, Eq, Debug)]
pub enum RuleError {
    /// The fault, as it came.
    Broken(Fault),
    /// The refusal of a making or a call.
    Refused(Refusal),
    /// There is no memory for the list.
    Memory(AllocError),
}

impl From<Fault> for RuleError {
    ghost from_gives = { λ f r. r ≡ broken_by f };

    fn from(fault: Fault) -> RuleError {
        RuleError::Broken(fault)
    }
}

impl From<Refusal> for RuleError {
    ghost from_gives = { λ n r. r ≡ refused_by n };

    fn from(refusal: Refusal) -> RuleError {
        RuleError::Refused(refusal)
    }
}

impl<S: Drop> From<MakingError<S>> for RuleError {
    ghost from_gives = { λ e r. r ≡ refused_by e.refusal };

    fn from(error: MakingError<S>) -> RuleError {
        RuleError::Refused(error.refusal)
    }
}

impl From<AllocError> for RuleError {
    ghost from_gives = { λ e r. r ≡ wanting e };

    fn from(error: AllocError) -> RuleError {
        RuleError::Memory(error)
    }
}

impl<T: Drop> From<AllocFailed<T>> for RuleError {
    ghost from_gives = { λ _ r. (e : OfMemory) × (r ≡ wanting e) };

    fn from(failed: AllocFailed<T>) -> RuleError {
        RuleError::Memory(failed.into())
    }
}

impl From<CallError> for RuleError {
    ghost from_gives = { λ e r. r ≡ rule_error_of e };

    fn from(error: CallError) -> RuleError {
        match error {
            CallError::Broken(fault) => RuleError::Broken(fault),
            CallError::Refused(refusal) => RuleError::Refused(refusal),
        }
    }
}

impl fmt::Display for RuleError {
    ghost output = { λ e. Some (rule_error_text e) };

    fn fmt<W: fmt::Write>(&self, f: &mut fmt::Formatter<W>) -> fmt::Result {
        match self {
            RuleError::Broken(fault) => write!(f, "{fault}"),
            RuleError::Refused(refusal) => write!(f, "{refusal}"),
            RuleError::Memory(_) => write!(f, "no memory for the list"),
        }
    }
}

impl Error for RuleError {}
