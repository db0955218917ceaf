ghost use Rattle.std.specs.Prelude.{
  ◌≡◌,
  ◌++◌,
  ◌≤◌,
  [],
  ◌∷◌,
  map,
  length,
  vec_items,
  None,
  IfOk,
};
ghost use Rattle.row_laws.specs.Calls.{controller, picked, refusal_number_of_making};
ghost use Rattle.row_laws.specs.Lists.{combination_rows};
ghost use Rattle.recipes.specs.Lists.{refusal_of, OnFault};
ghost use Rattle.recipes.specs.Subsets.{subset_rows, AllSubsets};

use crate::rule_error::RuleError;
use combinations::Combinations;
use enumerators::{Enumerator, MOST_PLACES, check_limits};
use std::alloc::Global;
use steps::Answer;

// Puts the combinations of r elements behind the rows. Each row is written to the front of a buffer
// and copied from there.
fn push_combinations<T: Copy>(
    alloc: Global,
    pool: &[T],
    r: usize,
    rows: &mut Vec<Vec<T>>,
) -> Result<(), RuleError>
where
    requires { r ≤ length pool.now }
    ensures answer { IfOk result (λ _. map vec_items rows.new.items ≡ map vec_items rows.old.items
        ++ map (picked pool.now) (combination_rows (length pool.now) r)) }
    ensures number { length pool.now ≤ controller.places → refusal_of result ≡ None }
    ensures fault { OnFault result (λ _. ⊥) }
{
    let mut chosen = Combinations::new(pool.len(), r)?;
    let mut places = [0; MOST_PLACES];
    let mut elements = Vec::new(alloc);
    elements.extend_from_slice(pool)?;
    while let Answer::Item(()) = chosen.next(pool, &mut places, elements.as_mut_slice())? {
        let mut row = Vec::new(alloc);
        row.extend_from_slice(&elements[0..r])?;
        rows.push(row)?;
    }
    Ok(())
}

/// All subsets of a pool, those of fewer elements first, each in the order of the pool.
///
/// ```python
/// def powerset(iterable):
///     s = list(iterable)
///     return chain.from_iterable(combinations(s, r) for r in range(len(s)+1))
/// ```
///
/// Of 1, 2 and 3 they are `[]`, `[1]`, `[2]`, `[3]`, `[1, 2]`, `[1, 3]`, `[2, 3]` and `[1, 2, 3]`.
///
/// Refused by 1 where the pool has more than 256 elements, and then by 2 where it has more than 64.
/// A pool of n elements has 2^n subsets, so most machines want memory before that.
#[tactic(auto, using(crate::proofs::SubsetLemmas::all_subsets))]
pub fn powerset<T: Copy>(alloc: Global, pool: &[T]) -> Result<Vec<Vec<T>>, RuleError>
where
    ensures answer { IfOk result (λ v. map vec_items v.items
        ≡ map (picked pool.now) (subset_rows (length pool.now))) }
    ensures law { AllSubsets (length pool.now) (subset_rows (length pool.now)) }
    ensures number { refusal_of result
        ≡ refusal_number_of_making controller (length pool.now ∷ []) (length pool.now) }
    ensures fault { OnFault result (λ _. ⊥) }
{
    check_limits(&[pool.len()], pool.len())?;
    let mut rows = Vec::new(alloc);
    for r in 0..pool.len() + 1 {
        push_combinations(alloc, pool, r, &mut rows)?;
    }
    Ok(rows)
}
