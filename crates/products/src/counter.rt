ghost use Rattle.std.specs.Prelude.{
  ◌≡◌,
  ℕ,
  ◌+◌,
  ◌%◌,
  ◌<◌,
  ◌≤◌,
  true,
  false,
  ◌||◌,
  length,
  take,
  sum,
  slice_index,
};
ghost use Rattle.row_laws.specs.Calls.{controller, most_together};
ghost use Rattle.row_laws.specs.Carries.{Carried, Inside, some_empty, pool_start};

use crate::pools::Pools;
use enumerators::MOST_PLACES;

// The places of a product's row: place i runs from 0 to below lengths[i], the last the fastest.
// Lengths and places are arrays of their own, since the row is lent as a slice of its places.
// `stop` is set once no place is left to raise. A plain record, which its crate can copy and write
// back whole.
#[derive(Clone, Copy)]
pub(crate) struct Counter {
    // how many elements the pools have together
    pub(crate) size: usize,
    pub(crate) width: usize,
    // how many pools there are, of those that a place is of; the places after them are of the same
    // pools again
    pub(crate) pools: usize,
    pub(crate) lengths: [u16; MOST_PLACES],
    pub(crate) starts: [u16; MOST_PLACES],
    pub(crate) idxs: [u16; MOST_PLACES],
    pub(crate) cur: usize,
    // whether a pool is empty
    pub(crate) empty: bool,
    pub(crate) stop: bool,
    ghost few: { size ≤ most_together controller },
    ghost short: { width ≤ controller.places },
    ghost long: { width ≤ length lengths },
    ghost reach: { width ≤ length starts },
    ghost room: { width ≤ length idxs },
    ghost modest: { (k : ℕ) → k < width → slice_index lengths k ≤ controller.elements },
    ghost lying: { (k : ℕ) → k < width → slice_index starts k + slice_index lengths k ≤ size },
    ghost last: { 0 < width → cur + 1 ≡ width },
    ghost some: { pools ≤ width },
    ghost looked: { some_empty (take pools lengths) ≡ some_empty (take width lengths) },
    ghost emptied: { empty ≡ some_empty (take width lengths) },
    ghost inside: { (k : ℕ) → k < width → 0 < slice_index lengths k
        → slice_index idxs k < slice_index lengths k },
}

// Whether one of the pools is empty.
fn has_empty(lengths: &[u16]) -> bool
    ensures { result ≡ some_empty lengths.now }
{
    for length in lengths {
        if *length == 0 {
            return true;
        }
    }
    false
}

// Raises the place `cur`. One at its last element goes back to 0, and the rule applies again to the
// place before it; `false` where no place is left to raise.
fn carry(lengths: &[u16], idxs: &mut [u16], cur: usize) -> bool
    requires room { (cur < length lengths.now) × (cur < length idxs.old) }
    requires inside { (k : ℕ) → k ≤ cur → slice_index idxs.old k < slice_index lengths.now k }
    ensures long { length idxs.new ≡ length idxs.old }
    ensures raised { result ≡ true → (j : ℕ) × Carried lengths.now idxs.old idxs.new cur j }
    ensures ended { result ≡ false → (k : ℕ) → k ≤ cur
        → slice_index idxs.old k + 1 ≡ slice_index lengths.now k }
    ensures inside { (k : ℕ) → slice_index idxs.old k < slice_index lengths.now k
        → slice_index idxs.new k < slice_index lengths.now k }
{
    if idxs[cur] + 1 == lengths[cur] {
        if cur == 0 {
            return false;
        }
        idxs[cur] = 0;
        carry(lengths, idxs, cur - 1)
    } else {
        idxs[cur] += 1;
        true
    }
}

impl Counter {
    // All places at 0, and `cur` at the last of them; one below zero, by wrapping, where there is
    // none.
    pub(crate) fn new(pools: &Pools) -> Counter
        ensures size { result.size ≡ sum pools.now.lengths.now }
        ensures width { result.width ≡ pools.now.width }
        ensures lengths { (k : ℕ) → k < pools.now.width
            → slice_index result.lengths k
            ≡ slice_index pools.now.lengths.now (k % length pools.now.lengths.now) }
        ensures starts { (k : ℕ) → k < pools.now.width
            → slice_index result.starts k ≡ pool_start pools.now.lengths.now k }
        ensures zeros { (k : ℕ) → k < pools.now.width → slice_index result.idxs k ≡ 0 }
        ensures wrapped { pools.now.width ≡ 0 → result.cur ≡ usize.MAX }
        ensures started { result.stop ≡ false }
    {
        let mut lengths = [0; MOST_PLACES];
        let mut starts = [0; MOST_PLACES];
        pools.write_lengths(&mut lengths);
        pools.write_starts(&mut starts);
        Counter {
            size: pools.size(),
            width: pools.width,
            pools: pools.lengths.len().min(pools.width),
            lengths,
            starts,
            idxs: [0; MOST_PLACES],
            cur: pools.width.wrapping_sub(1),
            empty: has_empty(&lengths[0..pools.width]),
            stop: false,
        }
    }

    // Whether there is no row: the places have run out, or a pool is empty.
    pub(crate) fn is_over(&self) -> bool
        ensures { result ≡ (self.now.stop || some_empty (take self.now.width self.now.lengths)) }
    {
        self.stop || has_empty(&self.lengths[0..self.pools])
    }

    // The same, without another look at the pools.
    pub(crate) fn is_done(&self) -> bool
        ensures { result ≡ (self.now.stop || some_empty (take self.now.width self.now.lengths)) }
    {
        self.stop || self.empty
    }

    // Raises the last place, by the carry; where no place is left to raise, there is no row any
    // more.
    pub(crate) fn update_idxs(&mut self)
        requires { (self.old.stop ≡ false)
            × (Inside self.old.width self.old.lengths self.old.idxs) }
        ensures size { self.new.size ≡ self.old.size }
        ensures width { self.new.width ≡ self.old.width }
        ensures lengths { self.new.lengths ≡ self.old.lengths }
        ensures starts { self.new.starts ≡ self.old.starts }
        ensures raised { self.new.stop ≡ false → (0 < self.old.width)
            × ((j : ℕ) × Carried self.old.lengths self.old.idxs self.new.idxs self.old.cur j) }
        ensures ended { self.new.stop ≡ true → (k : ℕ) → k ≤ self.old.cur → k < self.old.width
            → slice_index self.old.idxs k + 1 ≡ slice_index self.old.lengths k }
    {
        self.stop = self.width == 0 || !carry(&self.lengths, &mut self.idxs, self.cur);
    }
}
