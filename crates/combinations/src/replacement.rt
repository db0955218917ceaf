ghost use Rattle.std.specs.Prelude.{◌≡◌, [], ◌∷◌, MatchResult, refl};
ghost use Rattle.row_laws.specs.Calls.{Unmade, controller};
ghost use Rattle.row_laws.specs.Makings.{Made, replacement_making};
ghost use Rattle.row_laws.specs.History.{Life};
ghost use Rattle.row_laws.specs.Lawful.{ReplacementRow};
ghost use Rattle.row_laws.specs.Lists.{replacement_rows};
ghost use Rattle.row_laws.specs.Climbs.{nothing_above};
ghost use Rattle.row_laws.proofs.Families.{replacements_listed};
ghost use Rattle.row_laws.proofs.Climbing.{replacement_climbs, replacement_taken, never_above};
ghost use Rattle.row_laws.proofs.Standing.{replacements_fit};
ghost use Rattle.enumerators.specs.History.{memories};
ghost use Rattle.combinations.specs.Standing.{Climbs, shown_by};

use crate::climbing::Climb;
use crate::state::Climbing;
use enumerators::{Call, Enumerator, run};
use steps::Refusal;

// Each place may be the same as the one before it.
pub(crate) struct Level;

impl Climb for Level {
    ghost above = { nothing_above };

    ghost lawful = { ReplacementRow };

    ghost rows = { replacement_rows };

    ghost from_zero = { refl };

    ghost unfalling = { never_above };

    ghost listed = { replacements_listed };

    ghost climbs = { replacement_climbs };

    ghost taken = { replacement_taken };

    fn lift(_place: usize) -> usize {
        0
    }
}

/// The combinations of `r` from a pool of `n` elements, each of which may come again: the rows of
/// `r` places below `n` that never fall, in lexicographic order.
///
/// `replacement 2 2` gives `0 0`, `0 1`, `1 1`; `replacement 0 1` none; `replacement 0 0` the empty
/// row.
#[derive(Drop)]
pub struct CombinationsWithReplacement {
    climbing: Climbing,
    ghost unfalling: { Climbs nothing_above climbing },
}

impl CombinationsWithReplacement {
    /// Stands before the first row. Refused by 1 where the pool has more than 256 elements, and
    /// then by 2 where a row has more than 64 places, also where there is no row.
    pub fn new(n: usize, r: usize) -> Result<CombinationsWithReplacement, Refusal>
        ensures { MatchResult result
            (λ e. Made controller (ReplacementRow n r) (replacement_making n r 0)
            (⟦<CombinationsWithReplacement as Enumerator>⟧.shown e))
            (λ refusal. Unmade controller (n ∷ []) r refusal) }
    {
        Ok(CombinationsWithReplacement {
            climbing: Climbing::new::<Level>(n, r)?,
        })
    }

    /// Makes the enumerator, and then all the calls on it, and tells how many they were: a history
    /// since the making. Refused as `new` is, with no call made.
    pub fn run_calls<T: Copy>(n: usize, r: usize, calls: &mut [Call<T>]) -> Result<usize, Refusal>
        ensures { MatchResult result
            (λ count. Life controller (ReplacementRow n r) (replacement_making n r 0)
            (memories calls.old) (memories calls.new) count)
            (λ refusal. Unmade controller (n ∷ []) r refusal × (calls.new ≡ calls.old)) }
    {
        let mut enumerator = CombinationsWithReplacement::new(n, r)?;
        Ok(run(&mut enumerator, calls))
    }
}

impl Enumerator for CombinationsWithReplacement {
    ghost shown = { λ s. shown_by replacement_rows s.climbing };

    fn pool_len(&self) -> usize {
        self.climbing.choice.n
    }

    fn row_len(&self) -> usize {
        self.climbing.choice.r
    }

    fn pool_start(&self, _place: usize) -> usize {
        0
    }

    fn row(&self) -> Option<&[u16]> {
        self.climbing.row::<Level>()
    }

    fn advance(&mut self) {
        if !self.climbing.is_over() {
            self.climbing.advance::<Level>();
        }
    }

    ghost fits = { λ s. replacements_fit s.climbing.choice.n s.climbing.choice.r
        s.climbing.choice.few s.climbing.choice.short s.climbing.indices };
}
