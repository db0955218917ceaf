// What combinations and combinations with replacement have in common: rows whose places climb.
ghost use Rattle.std.specs.Prelude.{
  ◌≡◌,
  ℕ,
  ◌+◌,
  ◌-◌,
  ◌^◌,
  ◌<◌,
  ◌≤◌,
  ◌&&◌,
  nat_lt,
  nat_le,
  List,
  [],
  ◌∷◌,
  length,
  take,
  MatchOption,
  MatchResult,
  ◌≢◌,
  slice_index,
  false,
  is_none,
};
ghost use Rattle.row_laws.specs.Calls.{Unmade, controller, leaving, other_rows};
ghost use Rattle.row_laws.specs.Makings.{Made, one_pool_making};
ghost use Rattle.row_laws.specs.Climbs.{ClimbingRow, ClimbStepped};
ghost use Rattle.row_laws.specs.Listed.{Listed};
ghost use Rattle.combinations.specs.Standing.{Climbs, shown_by};

use crate::state::Climbing;
use enumerators::{Choice, MOST_PLACES};
use std::array::from_fn;
use steps::Refusal;

// A kind of climbing rows: how far each place has to lie above the first one. Rows that rise have
// to reach one more at each place, rows that never fall need not.
pub(crate) trait Climb {
    // how far the place of this number has to lie above the first one
    ghost above: { ℕ → ℕ };

    // what a row of `r` places below `n` is
    ghost lawful: { ℕ → ℕ → List ℕ → Type 0 };

    // the list of all such rows
    ghost rows: { ℕ → ℕ → List (List ℕ) };

    fn lift(place: usize) -> usize
        ensures is { result ≡ above place }
        ensures slow { result ≤ place };

    // nothing at the first place, and never less at a later one
    ghost from_zero: { above 0 ≡ 0 };

    ghost unfalling: { (i k : ℕ) → i ≤ k → above i ≤ above k };

    // the list holds the rows of the law, in order
    ghost listed: { (n r : ℕ) → Listed (lawful n r) r (rows n r) };

    // a row is lawful where its places climb so, and only there
    ghost climbs: { (n r : ℕ) (row : List ℕ) → lawful n r row → ClimbingRow n r above row };

    ghost taken: { (n r : ℕ) (xs : List ℕ) → r ≤ length xs → ClimbingRow n r above xs
        → lawful n r (take r xs) };
}

// There is no row where the last place does not fit though all are as low as they can be.
fn has_no_row<K: Climb>(choice: Choice) -> bool
    ensures { result ≡ (nat_lt 0 choice.r && nat_le choice.n (K.above (choice.r - 1))) }
{
    choice.r > 0 && K::lift(choice.r - 1) >= choice.n
}

// Each place as low as it can be, where there is a row.
fn first_row<K: Climb>(choice: Choice) -> Option<[u16; MOST_PLACES]>
    ensures { MatchOption result ((0 < choice.r) × (choice.n ≤ K.above (choice.r - 1)))
        (λ xs. (0 < choice.r → K.above (choice.r - 1) < choice.n) × (length xs ≡ controller.places)
        × ((k : ℕ) → k < controller.places → slice_index xs k ≡ K.above k)) }
{
    if has_no_row::<K>(choice) {
        return None;
    }
    Some(from_fn(|place| K::lift(place) as u16))
}

// The last place that is not at its highest, if there is one: the places behind it still have to
// fit below `n`.
fn pivot<K: Climb>(n: usize, r: usize, indices: &[u16]) -> Option<usize>
    requires room { r ≤ length indices.now }
    requires small { (n < 2 ^ 16) × (r < 2 ^ 16) }
    ensures { MatchOption result
        ((k : ℕ) → k < r → slice_index indices.now k + K.above (r - 1) + 1 ≡ n + K.above k)
        (λ i. (i < r) × (slice_index indices.now i + K.above (r - 1) + 1 ≢ n + K.above i)
        × ((k : ℕ) → i < k → k < r
        → slice_index indices.now k + K.above (r - 1) + 1 ≡ n + K.above k)) }
{
    (0..r).rev().find(|&i| indices[i] as usize + K::lift(r - 1) + 1 != n + K::lift(i))
}

// Raises the place `i` by one, and sets each place to its right as low as it then can be.
fn raise<K: Climb>(r: usize, indices: &mut [u16], i: usize)
    requires place { (i < r) × (r ≤ length indices.old) }
    requires small { slice_index indices.old i + r < 2 ^ 16 }
    ensures long { length indices.new ≡ length indices.old }
    ensures front { (k : ℕ) → k < i → slice_index indices.new k ≡ slice_index indices.old k }
    ensures low { (k : ℕ) → i ≤ k → k < r
        → slice_index indices.new k + K.above i ≡ slice_index indices.old i + 1 + K.above k }
{
    let raised = indices[i] + 1;
    for (behind, index) in indices[i..r].iter_mut().enumerate() {
        *index = raised + (K::lift(i + behind) - K::lift(i)) as u16;
    }
}

// Goes on to the row after this one; `false` where there is none.
fn step<K: Climb>(n: usize, r: usize, indices: &mut [u16]) -> bool
    requires room { r ≤ length indices.old }
    requires small { n + r < 2 ^ 16 }
    requires climbs { ClimbingRow n r K.above indices.old }
    ensures stepped { ClimbStepped n r K.above (K.lawful n r) indices.old indices.new result }
    ensures long { length indices.new ≡ length indices.old }
{
    let Some(i) = pivot::<K>(n, r, indices) else {
        return false;
    };
    raise::<K>(r, indices, i);
    true
}

// The same over the large array.
fn step_large<K: Climb>(choice: Choice, indices: &mut [u16; MOST_PLACES]) -> bool
    requires { ClimbingRow choice.n choice.r K.above indices.old }
    ensures stepped { ClimbStepped choice.n choice.r K.above (K.lawful choice.n choice.r)
        indices.old indices.new result }
    ensures long { length indices.new ≡ controller.places }
{
    step::<K>(choice.n, choice.r, indices)
}

impl Climbing {
    // Stands at the first of the climbing rows of `r` places from a pool of `n` elements.
    pub(crate) fn new<K: Climb>(n: usize, r: usize) -> Result<Climbing, Refusal>
        ensures { MatchResult result
            (λ s. Climbs K.above s
            × Made controller (K.lawful n r) (one_pool_making (K.rows n r) n r 0)
            (shown_by K.rows s))
            (λ refusal. Unmade controller (n ∷ []) r refusal) }
    {
        let choice = Choice::new(n, r)?;
        Ok(Climbing {
            choice,
            indices: first_row::<K>(choice),
        })
    }

    // Whether no row is left.
    pub(crate) fn is_over(&self) -> bool
        ensures { result ≡ is_none self.now.indices }
    {
        self.indices.is_none()
    }

    // The row at which it stands, if one is left.
    pub(crate) fn row<K: Climb>(&self) -> Option<&[u16]>
        requires { Climbs K.above self.now }
        ensures { MatchOption result
            ((shown_by K.rows self.now).ahead ≡ [])
            (λ row. (shown_by K.rows self.now).ahead
            ≡ row.now ∷ other_rows (shown_by K.rows self.now).ahead) }
    {
        let indices = self.indices.as_ref()?;
        Some(&indices[0..self.choice.r])
    }

    // Leaves the row behind at which it stands.
    pub(crate) fn advance<K: Climb>(&mut self)
        requires { Climbs K.above self.old }
        ensures shows { shown_by K.rows self.new ≡ leaving 1 (shown_by K.rows self.old) }
        ensures climbs { Climbs K.above self.new }
        ensures stood { is_none self.old.indices ≡ false → (shown_by K.rows self.old).ahead ≢ [] }
    {
        let choice = self.choice;
        let Some(indices) = &mut self.indices else {
            return;
        };
        if !step_large::<K>(choice, indices) {
            self.indices = None;
        }
    }
}
