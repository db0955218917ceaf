// What every part of the library speaks of: answers, faults and refusals, sources of items,
// and the predicates, key kinds and joinings that adapters ask.

#![tactic(auto)]

mod answer;
mod call_error;
mod each_step;
mod fault;
mod lent;
mod making_error;
mod refusal;
mod rule;
mod run;
mod source;

pub use answer::{Answer, Step};
pub use call_error::CallError;
pub use each_step::Steps;
pub use fault::Fault;
pub use making_error::MakingError;
pub use refusal::Refusal;
pub use rule::{Joining, Keying, Predicate};
pub use run::collect;
pub use source::Source;
