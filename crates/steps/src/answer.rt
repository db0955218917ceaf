ghost use Rattle.std.specs.Prelude.{◌≡◌};
ghost use Rattle.steps.specs.Steps.{answer_of, item_of};

use crate::fault::Fault;

/// What a source answers where no fault is met: an item, or the end.
///
/// It stands beside `Option` on purpose: there is one answer for the items of sources, adapters,
/// tees and groups and for the rows of enumerators, and a rule reads `End` where the page says end.
/// `item` makes an `Option` of it, `From` the other way.
#[derive(Clone, Copy, PartialEq, Eq, Debug)]
pub enum Answer<T> {
    /// The next item.
    Item(T),
    /// Nothing is ahead; Python raises `StopIteration` there. The next call says it again.
    End,
}

impl<T> Answer<T> {
    /// The item, or `None` at the end: of `Answer::Item(5)` it is `Some(5)`.
    pub fn item(self) -> Option<T>
        ensures { result ≡ item_of self }
    {
        match self {
            Answer::Item(item) => Some(item),
            Answer::End => None,
        }
    }
}

impl<T> From<Option<T>> for Answer<T> {
    ghost from_gives = { λ o r. r ≡ answer_of o };

    fn from(item: Option<T>) -> Answer<T> {
        match item {
            Some(item) => Answer::Item(item),
            None => Answer::End,
        }
    }
}

/// One of the steps that a source has ahead: an item, or a fault.
pub type Step<T> = Result<T, Fault>;
