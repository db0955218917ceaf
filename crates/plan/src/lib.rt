// The plan checker: blocks and faulty records read from a plan, every two neighbouring blocks of a
// bay laid side by side, and whether the plan passes.

#![tactic(auto)]

mod account;
mod bays;
mod columns;
mod input;
mod outcome;
mod pass;
mod seam;
mod text;

pub use account::{Account, check};
pub use input::{Unreported, report_from};
pub use outcome::{report, verdict};
pub use pass::passes;
