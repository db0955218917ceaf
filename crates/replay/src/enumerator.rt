// Scenarios of enumerators: calls of `next`, each lent a pool and two buffers.

use crate::flaw::Flaw;
use crate::form::{lengths, number, number32, optional, triple};
use crate::play::Player;
use crate::show::{Show, show_calls};
use combinations::{Combinations, CombinationsWithReplacement};
use enumerators::{Call, Enumerator, run};
use permutations::Permutations;
use products::Product;
use std::alloc::Global;
use steps::Refusal;

// The element at the front of every pool; each of the others is one above the element before it.
const FIRST_ELEMENT: u64 = 1000;

// The most elements that an enumerator is made for, 64 pools of 256.
const LONGEST_POOL: usize = 16_384;

// What stands in the buffers before a call.
const UNTOUCHED: u16 = 7777;

impl Player {
    /// `product Q L1,L2,.. ; CALLS`
    pub fn product(&mut self, repeat: &str, pools: &str, calls: &str) -> Result<(), Flaw> {
        self.make_calls(make_product(self.alloc, repeat, pools)?, calls)
    }

    /// `combinations N R ; CALLS`
    pub fn combinations(&mut self, n: &str, r: &str, calls: &str) -> Result<(), Flaw> {
        self.make_calls(make_combinations(n, r)?, calls)
    }

    /// `replacement N R ; CALLS`
    pub fn replacement(&mut self, n: &str, r: &str, calls: &str) -> Result<(), Flaw> {
        self.make_calls(make_replacement(n, r)?, calls)
    }

    /// `permutations N R ; CALLS`, where R may be `-`
    pub fn permutations(&mut self, n: &str, r: &str, calls: &str) -> Result<(), Flaw> {
        self.make_calls(make_permutations(n, r)?, calls)
    }

    // Makes the calls on what was made, and writes a line for each.
    fn make_calls<E: Enumerator + Drop>(
        &mut self,
        made: Result<E, Refusal>,
        calls: &str,
    ) -> Result<(), Flaw> {
        let alloc = self.alloc;
        let loans = read_loans(alloc, calls)?;
        let mut enumerator = match made {
            Ok(enumerator) => enumerator,
            Err(refusal) => return refusal.show(&mut self.out),
        };
        let fitting = Loan {
            pool: enumerator.pool_len(),
            places: enumerator.row_len() + 2,
            elements: enumerator.row_len() + 2,
        };
        let mut calls: Vec<Call<u64>> = loans
            .iter()
            .map(|loan| lend(alloc, loan.unwrap_or(fitting)))
            .try_collect(alloc)?;
        run(&mut enumerator, calls.as_mut_slice());
        show_calls(calls.as_slice(), &mut self.out)
    }
}

/// What `product Q L1,L2,..` makes, or its refusal.
pub fn make_product(
    alloc: Global,
    repeat: &str,
    pools: &str,
) -> Result<Result<Product, Refusal>, Flaw> {
    let repeat = number32(repeat)?;
    let lengths = lengths(alloc, pools)?;
    Ok(Product::new(lengths.as_slice(), repeat))
}

/// What `combinations N R` makes, or its refusal.
pub fn make_combinations(n: &str, r: &str) -> Result<Result<Combinations, Refusal>, Flaw> {
    Ok(Combinations::new(number(n)? as usize, number(r)? as usize))
}

/// What `replacement N R` makes, or its refusal.
pub fn make_replacement(
    n: &str,
    r: &str,
) -> Result<Result<CombinationsWithReplacement, Refusal>, Flaw> {
    Ok(CombinationsWithReplacement::new(number(n)? as usize, number(r)? as usize))
}

/// What `permutations N R` makes, or its refusal.
pub fn make_permutations(n: &str, r: &str) -> Result<Result<Permutations, Refusal>, Flaw> {
    let n = number(n)? as usize;
    let r = optional(r, "-")?.map(|r| r as usize);
    Ok(Permutations::new(n, r))
}

// How much a call is lent.
#[derive(Clone, Copy)]
struct Loan {
    pool: usize,
    places: usize,
    elements: usize,
}

// The loans of calls, one to a word.
fn read_loans(alloc: Global, part: &str) -> Result<Vec<Option<Loan>>, Flaw> {
    part.split(' ').map(read_loan).try_collect(alloc)
}

// `n:P:A:E`, or `n` for what fits.
fn read_loan(word: &str) -> Result<Option<Loan>, Flaw> {
    if word == "n" {
        return Ok(None);
    }
    let numbers = word.strip_prefix("n:").ok_or(Flaw::Form)?;
    let (pool, places, elements) = triple(numbers)?;
    Ok(Some(Loan {
        pool: number(pool)? as usize,
        places: number(places)? as usize,
        elements: number(elements)? as usize,
    }))
}

// A call that is still to be made. A pool that is longer than any enumerator was made for is cut
// there, since it is refused whatever its length.
fn lend(alloc: Global, loan: Loan) -> Result<Call<u64>, Flaw> {
    let elements = loan.pool.min(LONGEST_POOL + 1);
    let pool = (FIRST_ELEMENT..FIRST_ELEMENT + elements as u64).collect(alloc)?;
    Ok(Call {
        pool,
        places: vec![in alloc; UNTOUCHED; loan.places]?,
        elements: vec![in alloc; u64::from(UNTOUCHED); loan.elements]?,
        answer: None,
    })
}
