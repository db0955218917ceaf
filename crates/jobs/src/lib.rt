// Jobs: what to enumerate, read from record bytes, and the text that answers them.

#![tactic(auto)]

mod job;
mod lengths;

pub use job::{MOST_INPUT, MOST_TEXT, answer};
