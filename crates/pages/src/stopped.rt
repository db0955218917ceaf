// The one error of the examples.

use std::io;
use steps::{CallError, Fault, MakingError, Refusal};

/// Why an example was not played to its end: a call gave no answer, or standard output took no
/// text.
///
/// Each error of the library becomes it by `?`.
#[derive(Debug, Drop)]
pub(crate) enum Stopped {
    Call(CallError),
    Output(io::Error),
}

impl From<CallError> for Stopped {
    fn from(error: CallError) -> Stopped {
        Stopped::Call(error)
    }
}

impl From<Fault> for Stopped {
    fn from(fault: Fault) -> Stopped {
        Stopped::Call(CallError::Broken(fault))
    }
}

impl From<Refusal> for Stopped {
    fn from(refusal: Refusal) -> Stopped {
        Stopped::Call(CallError::Refused(refusal))
    }
}

impl<S: Drop> From<MakingError<S>> for Stopped {
    fn from(error: MakingError<S>) -> Stopped {
        Stopped::from(error.refusal)
    }
}

impl From<io::Error> for Stopped {
    fn from(error: io::Error) -> Stopped {
        Stopped::Output(error)
    }
}
