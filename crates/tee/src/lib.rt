// Several branches over one source, which see the same items, each at its own pace. What is drawn
// is stored in a store that every step lends, so that a tee needs no memory of its own.

#![tactic(auto)]

mod history;
mod tee;

pub use history::{Ask, Call, Told, every_history, run};
pub use tee::{MOST_BRANCHES, Tee};
