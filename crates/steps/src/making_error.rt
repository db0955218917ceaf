ghost use Rattle.std.specs.Prelude.{◌≡◌, Some};
ghost use Rattle.steps.specs.declared.call_error.CallError.TheVariants.{Refused as refused_by};
ghost use Rattle.steps.specs.Refusals.{refusal_text};

use crate::call_error::CallError;
use crate::refusal::Refusal;
use std::error::Error;
use std::fmt;

/// Why a making gave nothing: its refusal, and the source that was given to it, as it was.
///
/// An islice refuses by 5, a tee by 8. It becomes a `CallError` by `?`, which lets the source go,
/// and prints what the refusal prints.
#[derive(Drop)]
pub struct MakingError<S> {
    /// Why it was refused.
    pub refusal: Refusal,
    /// The source, of which nothing was drawn.
    pub source: S,
}

impl<S: Drop> From<MakingError<S>> for CallError {
    ghost from_gives = { λ e r. r ≡ refused_by e.refusal };

    fn from(error: MakingError<S>) -> CallError {
        CallError::Refused(error.refusal)
    }
}

impl<S> fmt::Display for MakingError<S> {
    ghost output = { λ e. Some (refusal_text e.refusal) };

    fn fmt<W: fmt::Write>(&self, f: &mut fmt::Formatter<W>) -> fmt::Result {
        let refusal = self.refusal;
        write!(f, "{refusal}")
    }
}

// By hand, since a source need not be one that prints.
impl<S> fmt::Debug for MakingError<S> {
    ghost debug_output = { λ e. Some (refusal_text e.refusal) };

    fn fmt<W: fmt::Write>(&self, f: &mut fmt::Formatter<W>) -> fmt::Result {
        write!(f, "{self}")
    }
}

impl<S: Drop> Error for MakingError<S> {}
