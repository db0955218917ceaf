// The sources: a list of any element, a range of numbers, blocks read from record bytes, and a list
// of steps that may hold faults.

#![tactic(auto)]

mod block;
mod cause;
mod frame;
mod list;
mod range;
mod records;
mod script;

pub use block::Block;
pub use cause::{Cause, RecordFault, UnknownCause};
pub use frame::{Frames, Record, word_of};
pub use list::List;
pub use range::Range;
pub use records::Records;
pub use script::Script;
