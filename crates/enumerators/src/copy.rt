// Copying into a lent buffer.
ghost use Rattle.std.specs.Prelude.{◌≡◌, ◌+◌, ◌<◌, ◌≤◌, length};
ghost use Rattle.std.specs.List.{AllByRecursion};
ghost use Rattle.row_laws.specs.Calls.{picked, positions, at_front};

use crate::enumerator::Enumerator;

// So many places at a time are copied by a loop whose length is known when it is compiled. One that
// runs as long as the row is left by a jump that a processor foresees only in short rows.
const BLOCK: usize = 16;

// Writes the pool's elements at some places of a row, from the place `first` on, to the front of
// `elements`.
fn copy_part<E: Enumerator, T: Copy>(
    enumerator: &E,
    first: usize,
    pool: &[T],
    places: &[u16],
    elements: &mut [T],
)
    requires wide { first + length places.now ≤ (E.shown enumerator.now).width }
    requires within { AllByRecursion (λ p. p < length pool.now)
        (positions (λ k. (E.shown enumerator.now).starts (first + k)) places.now) }
    requires room { length places.now ≤ length elements.old }
    ensures { elements.new ≡ at_front
        (picked pool.now (positions (λ k. (E.shown enumerator.now).starts (first + k)) places.now))
        elements.old }
{
    for (i, place) in places.iter().enumerate() {
        elements[i] = pool[enumerator.pool_start(first + i) + *place as usize];
    }
}

// Writes the pool's elements at the places of a row, each counted from where its pool starts, to
// the front of `elements`, whatever kind of element it is.
pub(crate) fn copy<E: Enumerator, T: Copy>(
    enumerator: &E,
    pool: &[T],
    row: &[u16],
    elements: &mut [T],
)
    requires wide { length row.now ≤ (E.shown enumerator.now).width }
    requires within { AllByRecursion (λ p. p < length pool.now)
        (positions (E.shown enumerator.now).starts row.now) }
    requires room { length row.now ≤ length elements.old }
    ensures { elements.new ≡ at_front
        (picked pool.now (positions (E.shown enumerator.now).starts row.now)) elements.old }
{
    let blocks = row.len() / BLOCK;
    for block in 0..blocks {
        let first = block * BLOCK;
        let end = first + BLOCK;
        copy_part(
            enumerator,
            first,
            pool,
            &row[first..end],
            &mut elements[first..end],
        );
    }
    let first = blocks * BLOCK;
    let end = row.len();
    copy_part(
        enumerator,
        first,
        pool,
        &row[first..end],
        &mut elements[first..end],
    );
}
