// How sources, adapters, enumerators and tees are owned. Every function here is accepted as it
// stands; the edits listed in the folder ownership/ turn one line each, and the compiler has to
// refuse each of them. Every type has functions of its own and not one generic one, since what has
// to be refused is a copy or a second use of that type.

#![tactic(auto)]

use adapters::{
    Accumulate, Chain, Compress, DropWhile, Islice, Keys, Pairwise, TakeWhile, ZipLongest,
};
use combinations::{Combinations, CombinationsWithReplacement};
use enumerators::{Enumerator, list};
use groups::{GroupBy, Grouper};
use permutations::Permutations;
use products::Product;
use rules::{Below, Itself, Sum};
use sources::{List, Range, Records, Script};
use steps::{Answer, CallError, MakingError, Refusal, Source};
use tee::Tee;

/// Gives a range to a takewhile: it cannot be stepped after that.
pub fn over_takewhile(mut from_takewhile: Range) -> TakeWhile<Range, Below> {
    let mut over = TakeWhile::new(Below { limit: 5 }, from_takewhile);
    let _ = over.next(); // takewhile
    over
}

/// Gives a range to a dropwhile: it cannot be stepped after that.
pub fn over_dropwhile(mut from_dropwhile: Range) -> DropWhile<Range, Below> {
    let mut over = DropWhile::new(Below { limit: 5 }, from_dropwhile);
    let _ = over.next(); // dropwhile
    over
}

/// Gives a range to an accumulate: it cannot be stepped after that.
pub fn over_accumulate(mut from_accumulate: Range) -> Accumulate<Range, Sum> {
    let mut over = Accumulate::new(from_accumulate, Sum, None);
    let _ = over.next(); // accumulate
    over
}

/// Gives a range to a pairwise: it cannot be stepped after that.
pub fn over_pairwise(mut from_pairwise: Range) -> Pairwise<Range> {
    let mut over = Pairwise::new(from_pairwise);
    let _ = over.next(); // pairwise
    over
}

/// Gives two ranges to a chain: neither of them can be stepped after that.
pub fn over_chain(mut chain_first: Range, mut chain_second: Range) -> Chain<Range, Range> {
    let mut over = Chain::new(chain_first, chain_second);
    let _ = over.next(); // chain
    over
}

/// Gives two ranges to a compress: neither of them can be stepped after that.
pub fn over_compress(
    mut compress_items: Range,
    mut compress_selectors: Range,
) -> Compress<Range, Range, Below> {
    let mut over = Compress::new(compress_items, compress_selectors, Below { limit: 5 });
    let _ = over.next(); // compress
    over
}

/// Gives two ranges to a zip_longest: neither of them can be stepped after that.
pub fn over_zip_longest(mut zip_left: Range, mut zip_right: Range) -> ZipLongest<Range, Range> {
    let mut over = ZipLongest::new(zip_left, zip_right, 0, 0);
    let _ = over.next(); // zip_longest
    over
}

/// Gives a range to a groupby: it cannot be stepped after that.
pub fn over_groupby(mut from_groupby: Range) -> GroupBy<Range, Itself> {
    let mut over = GroupBy::new(from_groupby, Itself);
    let _ = over.group(); // groupby
    over
}

/// Lends a groupby for a group's items: while these are in use, no group can be called for.
pub fn over_grouper(mut lent_groups: GroupBy<Range, Itself>) -> GroupBy<Range, Itself> {
    let mut over = Grouper::new(&mut lent_groups, 1);
    let _ = over.next(); // grouper
    lent_groups
}

/// Gives a range to a keys: it cannot be stepped after that.
pub fn over_keys(mut from_keys: Range) -> Keys<Range, Itself> {
    let mut over = Keys::new(from_keys, Itself);
    let _ = over.next(); // keys
    over
}

/// Gives a range to an islice: it cannot be stepped after that.
pub fn over_islice(mut from_islice: Range) -> Result<Islice<Range>, MakingError<Range>> {
    let mut over = Islice::new(from_islice, &[Some(3)])?;
    let _ = over.next(); // islice
    Ok(over)
}

/// Lends a range to a takewhile: while that is in use, the range cannot be stepped beside it.
pub fn lent(source: &mut Range) {
    let mut over = TakeWhile::new(Below { limit: 5 }, &mut *source);
    let _ = over.next(); // lent
    let _ = source.next();
}

/// Gives a range to a tee: it cannot be stepped after that.
pub fn over_tee(mut from_tee: Range, store: &mut [u64]) -> Result<Answer<u64>, CallError> {
    let mut over = Tee::new(from_tee, None, store.len())?;
    over.step(0, store) // tee
}

/// Lends a range to a tee: while that is in use, the range cannot be stepped beside it.
pub fn lent_to_tee(lent_range: &mut Range, store: &mut [u64]) -> Result<Answer<u64>, CallError> {
    let mut over = Tee::new(&mut *lent_range, None, store.len())?;
    let first = over.step(0, store); // lent to a tee
    let _ = lent_range.next();
    first
}

/// Hands on a list of numbers, which is neither cloned nor used twice.
pub fn keep_list<'a>(one_list: List<'a, u64>) -> List<'a, u64> {
    let kept = one_list;
    kept
}

/// Hands on a range, which is neither cloned nor used twice.
pub fn keep_range(one_range: Range) -> Range {
    let kept = one_range;
    kept
}

/// Hands on a source of records, which is neither cloned nor used twice.
pub fn keep_records<'a>(one_records: Records<'a>) -> Records<'a> {
    let kept = one_records;
    kept
}

/// Hands on a script, which is neither cloned nor used twice.
pub fn keep_script<'a>(one_script: Script<'a, u64>) -> Script<'a, u64> {
    let kept = one_script;
    kept
}

/// Hands on a takewhile, which is neither cloned nor used twice.
pub fn keep_takewhile(one_takewhile: TakeWhile<Range, Below>) -> TakeWhile<Range, Below> {
    let kept = one_takewhile;
    kept
}

/// Hands on a dropwhile, which is neither cloned nor used twice.
pub fn keep_dropwhile(one_dropwhile: DropWhile<Range, Below>) -> DropWhile<Range, Below> {
    let kept = one_dropwhile;
    kept
}

/// Hands on an accumulate, which is neither cloned nor used twice.
pub fn keep_accumulate(one_accumulate: Accumulate<Range, Sum>) -> Accumulate<Range, Sum> {
    let kept = one_accumulate;
    kept
}

/// Hands on a keys, which is neither cloned nor used twice.
pub fn keep_keys(one_keys: Keys<Range, Itself>) -> Keys<Range, Itself> {
    let kept = one_keys;
    kept
}

/// Hands on a pairwise, which is neither cloned nor used twice.
pub fn keep_pairwise(one_pairwise: Pairwise<Range>) -> Pairwise<Range> {
    let kept = one_pairwise;
    kept
}

/// Hands on a groupby, which is neither cloned nor used twice.
pub fn keep_groupby(one_groupby: GroupBy<Range, Itself>) -> GroupBy<Range, Itself> {
    let kept = one_groupby;
    kept
}

/// Hands on a source of a group's items, which is neither cloned nor used twice.
pub fn keep_grouper<'a>(one_grouper: Grouper<'a, Range, Itself>) -> Grouper<'a, Range, Itself> {
    let kept = one_grouper;
    kept
}

/// Hands on a chain, which is neither cloned nor used twice.
pub fn keep_chain(one_chain: Chain<Range, Range>) -> Chain<Range, Range> {
    let kept = one_chain;
    kept
}

/// Hands on an islice, which is neither cloned nor used twice.
pub fn keep_islice(one_islice: Islice<Range>) -> Islice<Range> {
    let kept = one_islice;
    kept
}

/// Hands on a compress, which is neither cloned nor used twice.
pub fn keep_compress(one_compress: Compress<Range, Range, Below>) -> Compress<Range, Range, Below> {
    let kept = one_compress;
    kept
}

/// Hands on a zip_longest, which is neither cloned nor used twice.
pub fn keep_zip_longest(one_zip_longest: ZipLongest<Range, Range>) -> ZipLongest<Range, Range> {
    let kept = one_zip_longest;
    kept
}

/// Hands on a tee, which is neither cloned nor used twice.
pub fn keep_tee(one_tee: Tee<Range>) -> Tee<Range> {
    let kept = one_tee;
    kept
}

/// Hands on a product, which is neither cloned nor used twice.
pub fn keep_product(one_product: Product) -> Product {
    let kept = one_product;
    kept
}

/// Hands on an enumerator of combinations, which is neither cloned nor used twice.
pub fn keep_combinations(one_combinations: Combinations) -> Combinations {
    let kept = one_combinations;
    kept
}

/// Hands on an enumerator with replacement, which is neither cloned nor used twice.
pub fn keep_replacement(
    one_replacement: CombinationsWithReplacement,
) -> CombinationsWithReplacement {
    let kept = one_replacement;
    kept
}

/// Hands on an enumerator of permutations, which is neither cloned nor used twice.
pub fn keep_permutations(one_permutations: Permutations) -> Permutations {
    let kept = one_permutations;
    kept
}

/// Lists a product, which is used up by its listing.
pub fn list_product(mut listed_product: Product, buffer: &mut [u8]) -> Result<usize, Refusal> {
    listed_product.advance();
    let count = list(listed_product, buffer)?; // product
    Ok(count)
}

/// Lists an enumerator of combinations, which is used up by its listing.
pub fn list_combinations(
    mut listed_combinations: Combinations,
    buffer: &mut [u8],
) -> Result<usize, Refusal> {
    listed_combinations.advance();
    let count = list(listed_combinations, buffer)?; // combinations
    Ok(count)
}

/// Lists an enumerator with replacement, which is used up by its listing.
pub fn list_replacement(
    mut listed_replacement: CombinationsWithReplacement,
    buffer: &mut [u8],
) -> Result<usize, Refusal> {
    listed_replacement.advance();
    let count = list(listed_replacement, buffer)?; // with replacement
    Ok(count)
}

/// Lists an enumerator of permutations, which is used up by its listing.
pub fn list_permutations(
    mut listed_permutations: Permutations,
    buffer: &mut [u8],
) -> Result<usize, Refusal> {
    listed_permutations.advance();
    let count = list(listed_permutations, buffer)?; // permutations
    Ok(count)
}
