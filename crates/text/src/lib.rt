// Text that is written into lent bytes, without a heap: literal bytes, numbers in decimal, numbers
// padded to a width.

#![tactic(auto)]

mod writer;

pub use writer::{write_bytes, write_number, write_padded};
