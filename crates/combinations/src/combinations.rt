ghost use Rattle.std.specs.Prelude.{◌≡◌, [], ◌∷◌, MatchResult, refl};
ghost use Rattle.row_laws.specs.Calls.{Unmade, controller};
ghost use Rattle.row_laws.specs.Makings.{Made, combination_making};
ghost use Rattle.row_laws.specs.History.{Life};
ghost use Rattle.row_laws.specs.Lawful.{CombinationRow};
ghost use Rattle.row_laws.specs.Lists.{combination_rows};
ghost use Rattle.row_laws.specs.Climbs.{its_number};
ghost use Rattle.row_laws.proofs.Families.{combinations_listed};
ghost use Rattle.row_laws.proofs.Climbing.{combination_climbs, combination_taken};
ghost use Rattle.row_laws.proofs.Standing.{combinations_fit};
ghost use Rattle.enumerators.specs.History.{memories};
ghost use Rattle.combinations.specs.Standing.{Climbs, shown_by};

use crate::climbing::Climb;
use crate::state::Climbing;
use enumerators::{Call, Enumerator, run};
use steps::Refusal;

// Each place lies above the one before it.
pub(crate) struct Rising;

impl Climb for Rising {
    ghost above = { its_number };

    ghost lawful = { CombinationRow };

    ghost rows = { combination_rows };

    ghost from_zero = { refl };

    ghost unfalling = { λ i k l. l };

    ghost listed = { combinations_listed };

    ghost climbs = { combination_climbs };

    ghost taken = { combination_taken };

    fn lift(place: usize) -> usize {
        place
    }
}

/// The combinations of `r` from a pool of `n` elements: the rows of `r` rising places below `n`, in
/// lexicographic order. No element of the pool comes twice in a row.
///
/// `combinations 3 2` gives `0 1`, `0 2`, `1 2`; `combinations 2 3` none; `combinations 3 0` the
/// empty row.
#[derive(Drop)]
pub struct Combinations {
    climbing: Climbing,
    ghost rising: { Climbs its_number climbing },
}

impl Combinations {
    /// Stands before the first row. Refused by 1 where the pool has more than 256 elements, and
    /// then by 2 where a row has more than 64 places, also where there is no row.
    pub fn new(n: usize, r: usize) -> Result<Combinations, Refusal>
        ensures { MatchResult result
            (λ e. Made controller (CombinationRow n r) (combination_making n r 0)
            (⟦<Combinations as Enumerator>⟧.shown e))
            (λ refusal. Unmade controller (n ∷ []) r refusal) }
    {
        Ok(Combinations {
            climbing: Climbing::new::<Rising>(n, r)?,
        })
    }

    /// Makes the enumerator, and then all the calls on it, and tells how many they were: a history
    /// since the making. Refused as `new` is, with no call made.
    pub fn run_calls<T: Copy>(n: usize, r: usize, calls: &mut [Call<T>]) -> Result<usize, Refusal>
        ensures { MatchResult result
            (λ count. Life controller (CombinationRow n r) (combination_making n r 0)
            (memories calls.old) (memories calls.new) count)
            (λ refusal. Unmade controller (n ∷ []) r refusal × (calls.new ≡ calls.old)) }
    {
        let mut enumerator = Combinations::new(n, r)?;
        Ok(run(&mut enumerator, calls))
    }
}

impl Enumerator for Combinations {
    ghost shown = { λ s. shown_by combination_rows s.climbing };

    fn pool_len(&self) -> usize {
        self.climbing.choice.n
    }

    fn row_len(&self) -> usize {
        self.climbing.choice.r
    }

    fn pool_start(&self, _place: usize) -> usize {
        0
    }

    fn row(&self) -> Option<&[u16]> {
        self.climbing.row::<Rising>()
    }

    fn advance(&mut self) {
        if !self.climbing.is_over() {
            self.climbing.advance::<Rising>();
        }
    }

    ghost fits = { λ s. combinations_fit s.climbing.choice.n s.climbing.choice.r
        s.climbing.choice.few s.climbing.choice.short s.climbing.indices };
}
