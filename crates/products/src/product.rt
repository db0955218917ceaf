ghost use Rattle.std.specs.Prelude.{◌≡◌, ◌*◌, length, MatchResult};
ghost use Rattle.row_laws.specs.Calls.{Unmade, controller};
ghost use Rattle.row_laws.specs.Carries.{PoolByPool, counter_shown};
ghost use Rattle.row_laws.specs.Makings.{Made, product_making};
ghost use Rattle.row_laws.specs.History.{Life};
ghost use Rattle.enumerators.specs.History.{memories};
ghost use Rattle.row_laws.specs.Lawful.{ProductRow};
ghost use Rattle.row_laws.proofs.Carries.{counter_fits};

use crate::counter::Counter;
use crate::pools::Pools;
use enumerators::{Call, Enumerator, MOST_PLACES, run};
use steps::Refusal;

/// The product of some pools, `repeat` times over: with m pools, the rows whose place i is below
/// the length of pool i mod m, in lexicographic order. The last place advances at every row, as an
/// odometer's does.
///
/// `product 1 2,2`, which is repeat 1 and two pools of 2, gives `0 0`, `0 1`, `1 0`, `1 1`, and so
/// does `product 2 2`. `product 1 -`, of no pools, gives the empty row, and `product 1 3,0` none.
#[derive(Drop)]
pub struct Product {
    // the row that `next` gives stands here
    counter: Counter,
}

impl Product {
    /// Stands before the first row. Refused by 1 where a pool has more than 256 elements, and then
    /// by 2 where there are more than 64 pools or a row has more than 64 places.
    pub fn new(lengths: &[usize], repeat: u32) -> Result<Product, Refusal>
        ensures { MatchResult result
            (λ e. Made controller (ProductRow lengths.now repeat)
            (product_making lengths.now repeat 0) (⟦<Product as Enumerator>⟧.shown e))
            (λ refusal. Unmade controller lengths.now (length lengths.now * repeat) refusal) }
    {
        let pools = Pools::new(lengths, repeat)?;
        Ok(Product {
            counter: Counter::new(&pools),
        })
    }

    /// Makes the product, and then all the calls on it, and tells how many they were: a history
    /// since the making. Refused as `new` is, with no call made.
    pub fn run_calls<T: Copy>(
        lengths: &[usize],
        repeat: u32,
        calls: &mut [Call<T>],
    ) -> Result<usize, Refusal>
        ensures { MatchResult result
            (λ count. Life controller (ProductRow lengths.now repeat)
            (product_making lengths.now repeat 0) (memories calls.old) (memories calls.new) count)
            (λ refusal. Unmade controller lengths.now (length lengths.now * repeat) refusal
            × (calls.new ≡ calls.old)) }
    {
        let mut enumerator = Product::new(lengths, repeat)?;
        Ok(run(&mut enumerator, calls))
    }
}

impl Enumerator for Product {
    ghost shown = { λ s. counter_shown s.counter.width s.counter.size s.counter.starts
        s.counter.lengths s.counter.idxs s.counter.stop };

    fn pool_len(&self) -> usize {
        self.counter.size
    }

    fn row_len(&self) -> usize {
        self.counter.width
    }

    fn pool_start(&self, place: usize) -> usize {
        // without a branch: the remainder is the place itself, since no row has more places
        usize::from(self.counter.starts[place % MOST_PLACES])
    }

    fn row(&self) -> Option<&[u16]> {
        if self.counter.is_over() {
            return None;
        }
        Some(&self.counter.idxs[0..self.counter.width])
    }

    fn advance(&mut self) {
        if !self.counter.is_done() {
            self.counter.update_idxs();
        }
    }

    ghost fits = { λ s. counter_fits controller s.counter.width s.counter.size s.counter.starts
        s.counter.lengths s.counter.idxs s.counter.stop s.counter.short s.counter.few
        s.counter.long s.counter.modest s.counter.lying };
}

/// The elements of a row lie pool by pool: what stands at a place, counted from the start of its
/// pool, is the element at that place of pool i mod m, for every kind of element. With the pools
/// `a b` and `c d e`, lent as `a b c d e`, the row `1 2` has the elements `b e`. The answer is
/// always 0.
pub fn pool_by_pool<T>() -> u8
    ensures result { result ≡ 0 }
    ensures law { PoolByPool T }
{
    0
}
