ghost use Rattle.std.specs.Prelude.{◌≡◌, ◌≤◌, [], ◌∷◌, option_map, MatchResult};
ghost use Rattle.std.specs.Option.{ForSome};
ghost use Rattle.row_laws.specs.Calls.{Unmade, controller};
ghost use Rattle.row_laws.specs.Makings.{Made, permutation_making};
ghost use Rattle.row_laws.specs.History.{Life};
ghost use Rattle.row_laws.specs.Standing.{one_pool};
ghost use Rattle.row_laws.specs.Lawful.{PermutationRow};
ghost use Rattle.row_laws.specs.Lists.{permutation_rows};
ghost use Rattle.row_laws.specs.Cycles.{Cycling, row_length};
ghost use Rattle.row_laws.proofs.Standing.{permutations_fit};
ghost use Rattle.enumerators.specs.History.{memories};

use crate::cycles::{Cycles, step};
use crate::state::Standing;
use enumerators::{Call, Choice, Enumerator, run};
use steps::Refusal;

/// The permutations of `r` from a pool of `n` elements: the rows of `r` places below `n` that all
/// differ, in lexicographic order. An absent `r` is `n`.
///
/// `permutations 3 2` gives `0 1`, `0 2`, `1 0`, `1 2`, `2 0`, `2 1`; `permutations 2` gives `0 1`,
/// `1 0`; `permutations 2 3` none; `permutations 0 0` the empty row.
#[derive(Drop)]
pub struct Permutations {
    standing: Standing,
    ghost fitting: { ForSome standing.cycles (λ _. standing.choice.r ≤ standing.choice.n) },
    ghost cycling: { ForSome standing.cycles
        (λ c. Cycling standing.choice.n standing.choice.r c.indices c.cycles) },
}

impl Permutations {
    /// Stands before the first row. Refused by 1 where the pool has more than 256 elements, and
    /// then by 2 where a row has more than 64 places: 65 elements with no `r` are refused by 2.
    pub fn new(n: usize, r: Option<usize>) -> Result<Permutations, Refusal>
        ensures { MatchResult result
            (λ e. Made controller (PermutationRow n (row_length n r))
            (permutation_making n (row_length n r) 0)
            (⟦<Permutations as Enumerator>⟧.shown e))
            (λ refusal. Unmade controller (n ∷ []) (row_length n r) refusal) }
    {
        let choice = Choice::new(n, r.unwrap_or(n))?;
        Ok(Permutations {
            standing: Standing {
                choice,
                cycles: Cycles::first(choice),
            },
        })
    }

    /// Makes the permutations, and then all the calls on them, and tells how many they were: a
    /// history since the making. Refused as `new` is, with no call made.
    pub fn run_calls<T: Copy>(
        n: usize,
        r: Option<usize>,
        calls: &mut [Call<T>],
    ) -> Result<usize, Refusal>
        ensures { MatchResult result
            (λ count. Life controller (PermutationRow n (row_length n r))
            (permutation_making n (row_length n r) 0)
            (memories calls.old) (memories calls.new) count)
            (λ refusal. Unmade controller (n ∷ []) (row_length n r) refusal
            × (calls.new ≡ calls.old)) }
    {
        let mut enumerator = Permutations::new(n, r)?;
        Ok(run(&mut enumerator, calls))
    }
}

impl Enumerator for Permutations {
    ghost shown = { λ s. one_pool (permutation_rows s.standing.choice.n s.standing.choice.r)
        s.standing.choice.n s.standing.choice.r (option_map (λ c. c.indices) s.standing.cycles) };

    fn pool_len(&self) -> usize {
        self.standing.choice.n
    }

    fn row_len(&self) -> usize {
        self.standing.choice.r
    }

    fn pool_start(&self, _place: usize) -> usize {
        0
    }

    fn row(&self) -> Option<&[u16]> {
        let cycles = self.standing.cycles.as_ref()?;
        Some(&cycles.indices[0..self.standing.choice.r])
    }

    fn advance(&mut self) {
        let choice = self.standing.choice;
        let Some(at) = &mut self.standing.cycles else {
            return;
        };
        if !step(choice.n, choice.r, &mut at.indices, &mut at.cycles) {
            self.standing.cycles = None;
        }
    }

    ghost fits = { λ s. permutations_fit s.standing.choice.n s.standing.choice.r
        s.standing.choice.few s.standing.choice.short
        (option_map (λ c. c.indices) s.standing.cycles) };
}
