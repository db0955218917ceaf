// Permutations.

#![tactic(auto)]

mod cycles;
mod permutations;
mod state;

pub use permutations::Permutations;
