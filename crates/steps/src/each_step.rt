ghost use Rattle.std.specs.Prelude.{◌≡◌};
ghost use Rattle.std.specs.Iterator.{YieldsFirst, item_count};
ghost use Rattle.steps.specs.Below.{Drew, mark_there};

use crate::answer::{Answer, Step};
use crate::source::Source;

/// The steps of a source as an iterator: an item is `Ok`, a fault `Err`, and the end `None`.
///
/// So a rule goes over a source by `for step in Steps(source)`, and has `filter`, `count`, `map`
/// and the other methods of iterators, where Python writes `for item in iterable`. Over a list of 5
/// and 9 it gives `Ok(5)`, `Ok(9)`, `None`. A fault does not end it: what stands behind comes after
/// it. A lent source is a source, so after `Steps(&mut source)` the owner goes on where the
/// iterator was left.
#[derive(Drop)]
pub struct Steps<S>(pub S);

impl<S: Source + Drop> Iterator for Steps<S>
where
    S::Item: Drop,
{
    type Item = Step<S::Item>;

    ghost next_gives = { λ s r t. YieldsFirst (λ s. S.Source.ahead s.0) s r t
        × (S.Source.loans t.0 ≡ S.Source.loans s.0)
        × Drew (S.Source.bottom s.0) (S.Source.bottom t.0) (mark_there r) };

    ghost remaining = { item_count (λ s. S.Source.ahead s.0) };

    fn next(&mut self) -> Option<Step<S::Item>> {
        match self.0.next() {
            Ok(Answer::Item(item)) => Some(Ok(item)),
            Ok(Answer::End) => None,
            Err(fault) => Some(Err(fault)),
        }
    }
}
