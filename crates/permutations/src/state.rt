use crate::cycles::Cycles;
use enumerators::Choice;

// Where an enumerator of permutations stands: the row that it gives next is at the front of the
// indices in `cycles`, and there is nothing in `cycles` once the last row was given. A plain
// record, which its crate can copy and write back whole.
#[derive(Clone, Copy)]
pub(crate) struct Standing {
    pub(crate) choice: Choice,
    pub(crate) cycles: Option<Cycles>,
}
