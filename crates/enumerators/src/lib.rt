// The one interface of the enumerators, and what is written once for all of them.

#![tactic(auto)]

mod copy;
mod enumerator;
mod history;
mod limits;
mod listing;
mod written;

pub use enumerator::Enumerator;
pub use history::{Call, every_history, every_mixed_history, run};
pub use limits::{Choice, MOST_ELEMENTS, MOST_PLACES, check_limits};
pub use listing::{MOST_LISTED, list, write_listing};
pub use written::place_by_place;
