// The four enumerators.

use crate::stopped::Stopped;
use combinations::{Combinations, CombinationsWithReplacement};
use enumerators::Enumerator;
use permutations::Permutations;
use products::Product;
use steps::Answer;

pub(crate) fn combinations(rt: &HostRuntime) -> Result<(), Stopped> {
    let pool = [7, 8, 9];
    let (mut places, mut pair) = ([0; 2], [0; 2]);
    let mut rows = Combinations::new(pool.len(), 2)?;
    for _ in 0..u64::MAX {
        let Answer::Item(()) = rows.next(&pool, &mut places, &mut pair)? else {
            break;
        };
        println!(rt; "{} {}", pair[0], pair[1])?;
    }
    Ok(())
}

pub(crate) fn combinations_refused(rt: &HostRuntime) -> Result<(), Stopped> {
    let (mut places, mut pair) = ([0; 2], [0; 2]);
    if let Err(refusal) = Combinations::new(257, 2) {
        println!(rt; "{refusal}")?;
    }
    let mut rows = Combinations::new(3, 2)?;
    println!(rt; "{:?}", rows.next(&[7, 8], &mut places, &mut pair))?;
    println!(rt; "{:?}", rows.next(&[7, 8, 9], &mut places, &mut pair[0..1]))?;
    println!(rt; "{:?}", rows.next(&[7, 8, 9], &mut places, &mut pair))?;
    println!(rt; "{} {}", pair[0], pair[1])?;
    Ok(())
}

pub(crate) fn combinations_with_replacement(rt: &HostRuntime) -> Result<(), Stopped> {
    let pool = [7, 8];
    let (mut places, mut pair) = ([0; 2], [0; 2]);
    let mut rows = CombinationsWithReplacement::new(pool.len(), 2)?;
    for _ in 0..u64::MAX {
        let Answer::Item(()) = rows.next(&pool, &mut places, &mut pair)? else {
            break;
        };
        println!(rt; "{} {}", pair[0], pair[1])?;
    }
    Ok(())
}

pub(crate) fn permutations(rt: &HostRuntime) -> Result<(), Stopped> {
    let pool = [7, 8, 9];
    let (mut places, mut order) = ([0; 3], [0; 3]);
    let mut rows = Permutations::new(pool.len(), None)?;
    for _ in 0..u64::MAX {
        let Answer::Item(()) = rows.next(&pool, &mut places, &mut order)? else {
            break;
        };
        println!(rt; "{} {} {}", order[0], order[1], order[2])?;
    }
    Ok(())
}

pub(crate) fn product(rt: &HostRuntime) -> Result<(), Stopped> {
    // the buses 7 and 8, and behind them the bays 1, 2 and 3
    let pools = [7, 8, 1, 2, 3];
    let (mut places, mut pair) = ([0; 2], [0; 2]);
    let mut rows = Product::new(&[2, 3], 1)?;
    for _ in 0..u64::MAX {
        let Answer::Item(()) = rows.next(&pools, &mut places, &mut pair)? else {
            break;
        };
        println!(rt; "bus {} at bay {}", pair[0], pair[1])?;
    }
    Ok(())
}

pub(crate) fn product_without_a_pool(rt: &HostRuntime) -> Result<(), Stopped> {
    let mut rows = Product::new(&[2], 2)?;
    for _ in 0..u64::MAX {
        let Some(row) = rows.row() else {
            break;
        };
        println!(rt; "{row:?}")?;
        rows.advance();
    }
    Ok(())
}
