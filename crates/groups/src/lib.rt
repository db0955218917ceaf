// groupby: runs of items with equal keys, each given as a group, and the items of a group as a
// source.

#![tactic(auto)]

mod groupby;
mod grouper;
mod history;

pub use groupby::GroupBy;
pub use grouper::Grouper;
pub use history::{Ask, Call, Told, every_history, run};
