// What a making accepts. The numbers of the limits stand here and in the types of the large states
// alone.
ghost use Rattle.std.specs.Prelude.{◌≡◌, ◌≤◌, [], ◌∷◌, None, MatchResult};
ghost use Rattle.row_laws.specs.Calls.{
  some_above,
  controller,
  refusal_of_making,
  refusal_number_of_making,
  Unmade,
  MakingLaw,
  number_of_refusal,
  allowed,
};

use steps::Refusal;

/// The most elements of a pool: a making with a longer one is refused by 1.
pub const MOST_ELEMENTS: usize = 256;

/// The most pools, and the most places of a row: a making with more is refused by 2.
pub const MOST_PLACES: usize = 64;

// Whether one of the pools has more elements than a pool may have.
fn has_long_pool(lengths: &[usize]) -> bool
    ensures { result ≡ some_above controller.elements lengths.now }
{
    lengths.iter().any(|length| *length > MOST_ELEMENTS)
}

/// Refuses pools of these lengths, or rows of so many places, where they pass the limits: by 1
/// where a pool is too long, each of them looked at; then by 2 where there are too many pools or a
/// row has too many places. Pools of 256 and 1 and rows of 64 places are accepted; pools of 1 and
/// 257 and rows of 65 are refused by 1, and a pool of 3 and rows of 65 by 2.
#[tactic(auto, using(row_laws::proofs::Limits::making_law))]
pub fn check_limits(lengths: &[usize], width: usize) -> Result<(), Refusal>
    ensures answer { result ≡ allowed (refusal_of_making controller lengths.now width) }
    ensures number { number_of_refusal result
        ≡ refusal_number_of_making controller lengths.now width }
    ensures law { MakingLaw controller lengths.now width result }
{
    if has_long_pool(lengths) {
        return Err(Refusal::PoolTooLong);
    }
    if lengths.len() > MOST_PLACES || width > MOST_PLACES {
        return Err(Refusal::RowTooLong);
    }
    Ok(())
}

/// A pool of `n` elements and rows of `r` places, where a making accepts them.
#[derive(Clone, Copy)]
pub struct Choice {
    /// How many elements the pool has.
    pub n: usize,
    /// How many places a row has; it may be more than there are elements.
    pub r: usize,
    ghost few: { n ≤ controller.elements },
    ghost short: { r ≤ controller.places },
}

impl Choice {
    /// Refused by 1 where the pool has more than 256 elements, and then by 2 where a row has more
    /// than 64 places: 256 and 64 are accepted, 257 and 65 are refused by 1, 3 and 65 by 2.
    pub fn new(n: usize, r: usize) -> Result<Choice, Refusal>
        ensures { MatchResult result
            (λ choice. (refusal_of_making controller (n ∷ []) r ≡ None)
            × (choice.n ≡ n) × (choice.r ≡ r))
            (λ refusal. Unmade controller (n ∷ []) r refusal) }
    {
        check_limits(&[n], r)?;
        Ok(Choice { n, r })
    }
}
