ghost use Rattle.std.specs.Prelude.{◌≤◌, length};
ghost use Rattle.std.specs.Option.{ForSome};

use enumerators::{Choice, MOST_PLACES};

// Where an enumerator of climbing rows stands: the row that it gives next is in `indices`, an array
// since memory is fixed. It is plain, and the same for every kind; what kind its rows are of, its
// methods are told.
#[derive(Clone, Copy)]
pub(crate) struct Climbing {
    pub(crate) choice: Choice,
    pub(crate) indices: Option<[u16; MOST_PLACES]>,
    ghost room: { ForSome indices (λ xs. choice.r ≤ length xs) },
}
