// The adapters: each takes one source or two, and is a source again.

#![tactic(auto)]

mod accumulate;
mod chain;
mod compress;
mod dropwhile;
mod finish;
mod islice;
mod keys;
mod pairwise;
mod takewhile;
mod zip_longest;

pub use accumulate::Accumulate;
pub use chain::{Chain, Stage};
pub use compress::Compress;
pub use dropwhile::DropWhile;
pub use islice::{Islice, MAXSIZE, consume};
pub use keys::Keys;
pub use pairwise::Pairwise;
pub use takewhile::TakeWhile;
pub use zip_longest::ZipLongest;
