// What adapters ask of items: predicates, key kinds and joinings.

#![tactic(auto)]

mod combined;
mod joining;
mod key;
mod predicate;

pub use combined::{Both, Either, Not};
pub use joining::{Larger, Sum};
pub use key::{Bay, BayAndBus, Bus, Itself, Minutes, Start};
pub use predicate::{AtLeast, Below, Equals, IsTrue, LastsAtLeast, NonZero};
