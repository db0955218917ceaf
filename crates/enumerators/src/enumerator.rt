ghost use Rattle.std.specs.Prelude.{◌≡◌, ◌<◌, [], ◌∷◌, length, MatchOption};
ghost use Rattle.row_laws.specs.Calls.{
  Shown,
  Fitting,
  controller,
  leaving,
  next_elements,
  refusal_of_call,
  refusal_number_of_call,
  number_of_refusal,
  allowed,
  answer_of_call,
  if_given,
  UnlessGiven,
  first_row,
  other_rows,
  at_front,
};

use crate::copy::copy;
use steps::{Answer, Refusal};

// Refuses what a call is lent, by its lengths: first the pool is looked at, then the buffers.
fn check_lent(
    size: usize,
    width: usize,
    pool: usize,
    places: usize,
    elements: usize,
) -> Result<(), Refusal>
    ensures answer { result ≡ allowed (refusal_of_call size width pool places elements) }
    ensures number { number_of_refusal result
        ≡ refusal_number_of_call size width pool places elements }
{
    if pool != size {
        return Err(Refusal::OtherPool);
    }
    if places < width || elements < width {
        return Err(Refusal::ShortBuffer);
    }
    Ok(())
}

/// An enumerator means the list of rows ahead. Each call of `next` that is not refused gives the
/// first of them and leaves the others; with none ahead it says end, and goes on to say it.
///
/// A row is a list of places, each a position in a pool, counted from 0. Equal elements at two
/// places of a pool count twice.
///
/// Whoever adds a kind of enumerator writes `pool_len`, `row_len`, `pool_start`, `row` and
/// `advance`, and proves that what it shows fits; `next` is written once, here.
pub trait Enumerator {
    // all that it shows: the rows ahead, and what a call has to lend
    ghost shown: { Self → Shown };

    /// How many elements the lent pool has to have: 3 for `combinations 3 2`. For a product, the
    /// pools together: 5 for the pools of 2 and 3.
    fn pool_len(&self) -> usize
        ensures { result ≡ (shown self.now).size };

    /// How many places a row has: 2 for `combinations 3 2`, also once no row is left.
    fn row_len(&self) -> usize
        ensures { result ≡ (shown self.now).width };

    /// Where in the lent pool the elements of a place of a row begin: at 0 where there is one pool.
    /// For a product of the pools of 2 and 3 it is 0 for the first place and 2 for the second.
    fn pool_start(&self, place: usize) -> usize
        ensures { place < (shown self.now).width → result ≡ (shown self.now).starts place };

    /// The first row ahead, if there is one, which it keeps: `combinations 3 2` shows `0 1` when it
    /// is made, and `combinations 2 3` none.
    fn row(&self) -> Option<&[u16]>
        ensures { MatchOption result
            ((shown self.now).ahead ≡ [])
            (λ row. (shown self.now).ahead ≡ row.now ∷ other_rows (shown self.now).ahead) };

    /// Leaves the first row ahead behind, so that `combinations 3 2` goes on from `0 1` to `0 2`;
    /// changes nothing where there is none.
    fn advance(&mut self)
        ensures shows { shown self.new ≡ leaving 1 (shown self.old) }
        ensures rests { (shown self.old).ahead ≡ [] → self.new ≡ self.old };

    /// Gives the first row ahead: writes its places, and the elements of the lent pool that lie
    /// there, to the front of the buffers, and leaves the rest of them as it was. Says end where no
    /// row is left, and writes nothing.
    ///
    /// `combinations 3 2`, lent the pool `a b c`, writes `0 1` and `a b`, then `0 2` and `a c`,
    /// then `1 2` and `b c`, and then says end. Refused by 3 where the pool is not as long as at
    /// the making, then by 4 where a buffer is shorter than a row, also where no row is left; a
    /// refused call changes nothing.
    final fn next<T: Copy>(
        &mut self,
        pool: &[T],
        places: &mut [u16],
        elements: &mut [T],
    ) -> Result<Answer<()>, Refusal>
        ensures answer { result ≡ answer_of_call
            (refusal_of_call (shown self.old).size (shown self.old).width
            (length pool.now) (length places.old) (length elements.old))
            (shown self.old).ahead }
        ensures number { number_of_refusal result
            ≡ refusal_number_of_call (shown self.old).size (shown self.old).width
            (length pool.now) (length places.old) (length elements.old) }
        ensures places { places.new
            ≡ if_given result (at_front (first_row (shown self.old).ahead) places.old) places.old }
        ensures elements { elements.new
            ≡ if_given result (at_front (next_elements (shown self.old) pool.now) elements.old)
            elements.old }
        ensures shows { shown self.new
            ≡ if_given result (leaving 1 (shown self.old)) (shown self.old) }
        ensures rests { UnlessGiven result (self.new ≡ self.old) }
    {
        let width = self.row_len();
        check_lent(
            self.pool_len(),
            width,
            pool.len(),
            places.len(),
            elements.len(),
        )?;
        let Some(row) = self.row() else {
            return Ok(Answer::End);
        };
        copy(self, pool, row, elements);
        places[0..width].copy_from_slice(row);
        self.advance();
        Ok(Answer::Item(()))
    }

    // each row ahead has `width` places, its elements lie in the lent pool, and both are within the
    // limits
    ghost fits: { (s : Self) → Fitting controller (shown s) };
}
