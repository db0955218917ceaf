ghost use Rattle.std.specs.Prelude.{◌≡◌, Some};
ghost use Rattle.steps.specs.Refusals.{refusal_number, refusal_words, refusal_text};

use std::error::Error;
use std::fmt;

/// Why a call was refused, which is what it answers to wrong arguments.
///
/// A refused call draws nothing, changes nothing and writes nothing. Each refusal has a number. It
/// prints the number and the rule: `refused (1): a pool above 256 elements`.
#[derive(Clone, Copy, PartialEq, Eq, Debug)]
pub enum Refusal {
    /// 1: a pool above 256 elements.
    PoolTooLong = 1,
    /// 2: more than 64 pools, or a row above 64 places.
    RowTooLong = 2,
    /// 3: a lent pool, for product the whole list, not as long as at the making.
    OtherPool = 3,
    /// 4: a lent buffer shorter than a row, a listing or a text needs.
    ShortBuffer = 4,
    /// 5: for islice not one to three arguments, a step of 0, or a number above 2^63 - 1.
    SliceArguments = 5,
    /// 6: a tee's step needs a draw and its store is full.
    StoreFull = 6,
    /// 7: a group call where 4,294,967,295 groups were given.
    TooManyGroups = 7,
    /// 8: no such branch of a tee, or more than 16 branches.
    NoBranch = 8,
    /// 9: a tee's store not as long as at the making.
    OtherStore = 9,
}

impl Refusal {
    /// The number that the refusal is known by, 1 to 9: `Refusal::ShortBuffer` has 4.
    pub fn number(self) -> u8
        ensures { result ≡ refusal_number self }
    {
        self as u8
    }
}

// The rule that was broken.
fn words(refusal: Refusal) -> &'static str
    ensures { result.now ≡ refusal_words refusal }
{
    match refusal {
        Refusal::PoolTooLong => "a pool above 256 elements",
        Refusal::RowTooLong => "more than 64 pools, or a row above 64 places",
        Refusal::OtherPool => "a lent pool not as long as at the making",
        Refusal::ShortBuffer => "a lent buffer shorter than a row, a listing or a text needs",
        Refusal::SliceArguments => {
            "islice: not one to three arguments, a step of 0, or a number above 2^63 - 1"
        }
        Refusal::StoreFull => "a tee's step needs a draw and its store is full",
        Refusal::TooManyGroups => "a group call where 4,294,967,295 groups were given",
        Refusal::NoBranch => "no such branch of a tee, or more than 16 branches",
        Refusal::OtherStore => "a tee's store not as long as at the making",
    }
}

impl fmt::Display for Refusal {
    ghost output = { λ r. Some (refusal_text r) };

    fn fmt<W: fmt::Write>(&self, f: &mut fmt::Formatter<W>) -> fmt::Result {
        let (number, words) = (self.number(), words(*self));
        write!(f, "refused ({number}): {words}")
    }
}

impl Error for Refusal {}
