// Combinations, and combinations with replacement.

#![tactic(auto)]

mod climbing;
mod combinations;
mod replacement;
mod state;

pub use combinations::Combinations;
pub use replacement::CombinationsWithReplacement;
