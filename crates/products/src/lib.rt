// Products of pools.

#![tactic(auto)]

mod counter;
mod pools;
mod product;

pub use product::{Product, pool_by_pool};
