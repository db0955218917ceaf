ghost use Rattle.std.specs.Prelude.{
  ◌≡◌,
  ℕ,
  ◌-◌,
  ◌^◌,
  ◌<◌,
  ◌≤◌,
  length,
  MatchOption,
  slice_index,
  slice_set,
};
ghost use Rattle.row_laws.specs.Calls.{controller};
ghost use Rattle.row_laws.specs.Cycles.{Cycling, CyclesStepped, rotated};

use enumerators::{Choice, MOST_ELEMENTS, MOST_PLACES};

// What the rows are made from. The row stands at the front of `indices`, which holds every place of
// the pool; `cycles` has for each place of the row how often it can still be exchanged.
#[derive(Clone, Copy)]
pub(crate) struct Cycles {
    pub(crate) indices: [u16; MOST_ELEMENTS],
    pub(crate) cycles: [u16; MOST_PLACES],
    ghost whole: { length indices ≡ controller.elements },
}

impl Cycles {
    // There is no row of more places than there are elements.
    pub(crate) fn first(choice: Choice) -> Option<Cycles>
        ensures { MatchOption result (choice.n < choice.r) (λ c. (choice.r ≤ choice.n)
            × ((k : ℕ) → k < controller.elements → slice_index c.indices k ≡ k)
            × ((k : ℕ) → k < controller.places → slice_index c.cycles k ≡ choice.n - k)) }
    {
        if choice.r > choice.n {
            return None;
        }
        let mut indices = [0; MOST_ELEMENTS];
        let mut cycles = [0; MOST_PLACES];
        begin(choice.n, &mut indices, &mut cycles);
        Some(Cycles { indices, cycles })
    }
}

// All places in rising order, and n, n - 1, n - 2 and so on: before the first row every place can
// still be exchanged with all behind it.
pub(crate) fn begin(n: usize, indices: &mut [u16], cycles: &mut [u16])
    requires small { (n < 2 ^ 16) × (length indices.old ≤ 2 ^ 16)
        × (length cycles.old ≤ 2 ^ 16) }
    ensures indices { (k : ℕ) → k < length indices.old → slice_index indices.new k ≡ k }
    ensures cycles { (k : ℕ) → k < length cycles.old → slice_index cycles.new k ≡ n - k }
    ensures long { length indices.new ≡ length indices.old }
    ensures counters { length cycles.new ≡ length cycles.old }
{
    for (i, index) in indices.iter_mut().enumerate() {
        *index = i as u16;
    }
    for (i, cycle) in cycles.iter_mut().enumerate() {
        // in 16 bits, of which a processor subtracts eight at once
        *cycle = (n as u16).saturating_sub(i as u16);
    }
}

// Counts the last cycle down, and moves left where a counter runs out; `false` where all of them
// did.
pub(crate) fn step(n: usize, r: usize, indices: &mut [u16], cycles: &mut [u16]) -> bool
    requires fitting { r ≤ n }
    requires room { n ≤ length indices.old }
    requires counters { r ≤ length cycles.old }
    requires small { n < 2 ^ 16 }
    requires cycling { Cycling n r indices.old cycles.old }
    ensures stepped { CyclesStepped n r indices.old indices.new cycles.new result }
    ensures long { length indices.new ≡ length indices.old }
{
    let mut i = r;
    loop {
        if i == 0 {
            break false;
        }
        i -= 1;
        cycles[i] -= 1;
        let cycle = cycles[i] as usize;
        if cycle > 0 {
            indices.swap(i, n - cycle);
            break true;
        }
        rotate(n, i, indices, cycles);
    }
}

// A counter that has run out starts again, and the index at `i` moves behind all others, so that
// they are back in rising order from there on.
#[tactic(auto, using(row_laws::proofs::Cycles::rotated_is))]
fn rotate(n: usize, i: usize, indices: &mut [u16], cycles: &mut [u16])
    requires room { (i < n) × (n ≤ length indices.old) }
    requires counters { i < length cycles.old }
    requires small { n < 2 ^ 16 }
    ensures indices { indices.new ≡ rotated i n indices.old }
    ensures cycles { cycles.new ≡ slice_set cycles.old i (n - i) }
{
    indices[i..n].rotate_left(1);
    cycles[i] = (n - i) as u16;
}
