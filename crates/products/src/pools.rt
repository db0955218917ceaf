ghost use Rattle.std.specs.Prelude.{
  ◌≡◌,
  ℕ,
  ◌*◌,
  ◌%◌,
  ◌<◌,
  ◌≤◌,
  min,
  false,
  length,
  sum,
  None,
  MatchResult,
  slice_index,
};
ghost use Rattle.row_laws.specs.Calls.{
  some_above,
  controller,
  most_together,
  refusal_of_making,
  Unmade,
};
ghost use Rattle.row_laws.specs.Carries.{pool_start};

use enumerators::check_limits;
use steps::Refusal;

// How long the pools are, and how many places a row has, where a making accepts them.
#[derive(Clone, Copy)]
pub(crate) struct Pools<'a> {
    pub(crate) lengths: &'a [usize],
    pub(crate) width: usize,
    ghost small: { some_above controller.elements lengths.now ≡ false },
    ghost total: { sum lengths.now ≤ most_together controller },
    ghost short: { width ≤ controller.places },
    ghost some: { 0 < width → 0 < length lengths.now },
    ghost whole: { 0 < width → length lengths.now ≤ width },
}

impl<'a> Pools<'a> {
    // Pools of these lengths, `repeat` times over; refused where they pass the limits.
    pub(crate) fn new(lengths: &'a [usize], repeat: u32) -> Result<Pools<'a>, Refusal>
        ensures { MatchResult result
            (λ p. (refusal_of_making controller lengths.now (length lengths.now * repeat) ≡ None)
            × (p.lengths.now ≡ lengths.now) × (p.width ≡ length lengths.now * repeat))
            (λ refusal. Unmade controller lengths.now (length lengths.now * repeat) refusal) }
    {
        let width = row_length(lengths.len(), repeat);
        check_limits(lengths, width)?;
        Ok(Pools { lengths, width })
    }

    // How many elements the pools have together.
    pub(crate) fn size(&self) -> usize
        ensures is { result ≡ sum self.now.lengths.now }
        ensures fits { result ≤ most_together controller }
    {
        total(self.lengths)
    }

    // Writes the length of the pool that each place is of, the pools coming again and again.
    pub(crate) fn write_lengths(&self, lengths: &mut [u16])
        requires { self.now.width ≤ length lengths.old }
        ensures long { length lengths.new ≡ length lengths.old }
        ensures at { (k : ℕ) → k < self.now.width
            → slice_index lengths.new k
            ≡ slice_index self.now.lengths.now (k % length self.now.lengths.now) }
    {
        for (i, length) in lengths[0..self.width].iter_mut().enumerate() {
            *length = self.lengths[i % self.lengths.len()] as u16;
        }
    }

    // Writes where the pool of each place starts in the list that holds the pools one after
    // another.
    pub(crate) fn write_starts(&self, starts: &mut [u16])
        requires { self.now.width ≤ length starts.old }
        ensures long { length starts.new ≡ length starts.old }
        ensures at { (k : ℕ) → k < self.now.width
            → slice_index starts.new k ≡ pool_start self.now.lengths.now k }
    {
        for (i, start) in starts[0..self.width].iter_mut().enumerate() {
            *start = total(&self.lengths[0..i % self.lengths.len()]) as u16;
        }
    }
}

// How many places a row has; more than any limit where that does not fit.
fn row_length(pools: usize, repeat: u32) -> usize
    ensures { result ≡ min (pools * repeat) usize.MAX }
{
    pools.saturating_mul(repeat as usize)
}

// How many elements some pools have together.
fn total(lengths: &[usize]) -> usize
    requires { sum lengths.now ≤ most_together controller }
    ensures { result ≡ sum lengths.now }
{
    lengths.iter().sum()
}
