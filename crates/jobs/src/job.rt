ghost use Rattle.std.specs.Prelude.{
  ◌≡◌,
  ◌+◌,
  ◌*◌,
  ◌≤◌,
  [],
  ◌∷◌,
  ◌++◌,
  length,
  take,
  decimal,
  Ok,
};
ghost use Rattle.sources.specs.Frame.{framed};
ghost use Rattle.row_laws.specs.Calls.{at_front};
ghost use Rattle.row_laws.specs.Lists.{
  product_rows,
  combination_rows,
  replacement_rows,
  permutation_rows,
};
ghost use Rattle.jobs.specs.Job.{words, Listed, JobListed, job_step, job_of, answer_text, Answers};

use crate::lengths::write_words;
use combinations::{Combinations, CombinationsWithReplacement};
use enumerators::list;
use permutations::Permutations;
use products::Product;
use sources::{Cause, Frames, Record, word_of};
use steps::{CallError, Refusal};
use text::{write_bytes, write_number};

/// The most bytes that are read of an input: a record that goes on behind them is cut short.
pub const MOST_INPUT: usize = 4096;

/// The most bytes that answer a job: the room of a listing of a hundred rows of 64 places and its
/// last line.
pub const MOST_TEXT: usize = 25_605;

// The most lengths that a job of a product holds.
const MOST_LENGTHS: usize = (MOST_INPUT - 6) / 2;

// The kinds of a job's record.
const PRODUCT: u16 = 1;

const COMBINATIONS: u16 = 2;

const REPLACEMENT: u16 = 3;

const PERMUTATIONS: u16 = 4;

// Lists a product of pools whose lengths stand in some bytes.
fn list_product(lengths: &[u8], repeat: u16, text: &mut [u8]) -> Result<usize, Refusal>
    requires room { 25605 ≤ length text.old }
    requires few { length lengths.now ≤ 4090 }
    ensures { Listed (words lengths.now) (length (words lengths.now) * repeat)
        (product_rows (words lengths.now) repeat) result text.old text.new }
{
    let mut numbers = [0; MOST_LENGTHS];
    let count = write_words(lengths, &mut numbers);
    list(Product::new(&numbers[0..count], u32::from(repeat))?, text)
}

// Lists combinations.
fn list_combinations(n: u16, r: u16, text: &mut [u8]) -> Result<usize, Refusal>
    requires room { 25605 ≤ length text.old }
    ensures { Listed (n ∷ []) r (combination_rows n r) result text.old text.new }
{
    list(Combinations::new(usize::from(n), usize::from(r))?, text)
}

// Lists combinations with replacement.
fn list_replacement(n: u16, r: u16, text: &mut [u8]) -> Result<usize, Refusal>
    requires room { 25605 ≤ length text.old }
    ensures { Listed (n ∷ []) r (replacement_rows n r) result text.old text.new }
{
    list(
        CombinationsWithReplacement::new(usize::from(n), usize::from(r))?,
        text,
    )
}

// Lists permutations.
fn list_permutations(n: u16, r: u16, text: &mut [u8]) -> Result<usize, Refusal>
    requires room { 25605 ≤ length text.old }
    ensures { Listed (n ∷ []) r (permutation_rows n r) result text.old text.new }
{
    list(
        Permutations::new(usize::from(n), Some(usize::from(r)))?,
        text,
    )
}

// Lists what a record asks for.
fn list_job(job: Record, text: &mut [u8]) -> Result<usize, CallError>
    requires room { 25605 ≤ length text.old }
    requires few { length job.payload.now ≤ 4092 }
    ensures { JobListed (job_step job.entry.at job.entry.kind job.entry.payload.now)
        result text.old text.new }
{
    let length_fault = Cause::OtherLength.fault_at(job.at);
    if job.kind == PRODUCT {
        return match job.payload {
            [q0, q1, lengths @ ..] if lengths.len() % 2 == 0 => {
                Ok(list_product(lengths, word_of(*q0, *q1), text)?)
            }
            _ => Err(length_fault.into()),
        };
    }
    if job.kind < PRODUCT || job.kind > PERMUTATIONS {
        return Err(Cause::OtherKind.fault_at(job.at).into());
    }
    let [n0, n1, r0, r1] = job.payload else {
        return Err(length_fault.into());
    };
    let (n, r) = (word_of(*n0, *n1), word_of(*r0, *r1));
    Ok(match job.kind {
        COMBINATIONS => list_combinations(n, r, text)?,
        REPLACEMENT => list_replacement(n, r, text)?,
        _ => list_permutations(n, r, text)?,
    })
}

// Lists the job at the front of some bytes.
fn list_first(bytes: &[u8], text: &mut [u8]) -> Result<usize, CallError>
    requires room { 25605 ≤ length text.old }
    requires few { length bytes.now ≤ 4096 }
    ensures { JobListed (job_of (framed bytes.now)) result text.old text.new }
{
    let job = Frames::new(bytes).take()?;
    list_job(job, text)
}

// Writes a word and a number behind it, as a line.
fn write_labelled(text: &mut [u8], label: &[u8], number: u64) -> Result<usize, Refusal>
    requires room { length label.now + 21 ≤ length text.old }
    ensures end { result ≡ Ok (length (label.now ++ (decimal number ++ (10 ∷ [])))) }
    ensures writes { text.new ≡ at_front (label.now ++ (decimal number ++ (10 ∷ []))) text.old }
{
    let digits_at = write_bytes(text, 0, label)?;
    let feed_at = write_number(text, digits_at, number)?;
    write_bytes(text, feed_at, b"\n")
}

/// Answers an input with its text, and tells how many bytes that is; the rest of the buffer is as
/// it was.
///
/// The first 4,096 bytes count. They hold a job: a record of kind 1 (product: two bytes of repeat,
/// then two for each length), 2 (combinations), 3 (with replacement) or 4 (permutations: two bytes
/// of n, two of r). Bytes behind the record are not looked at. The text is the listing; or `fault`,
/// a space, the cause and a line feed; or `refused`, a space, the refusal's number and a line feed.
/// The bytes `04 00 02 00 03 00 02 00` make `0 1`, `0 2`, `1 2` and `end`, a line each.
///
/// Cause 1 is fewer than four bytes, 2 a payload that is cut short, 3 another kind, 4 a payload of
/// another length than four bytes, or for product an odd one or none; refusals are those of the
/// making, 1 and then 2.
pub fn answer(input: &[u8], text: &mut [u8; MOST_TEXT]) -> usize
    ensures count { result ≡ length (answer_text input.now) }
    ensures writes { text.new ≡ at_front (answer_text input.now) text.old }
    ensures law { Answers (take 4096 input.now) (take result text.new) }
{
    let bytes = &input[0..input.len().min(MOST_INPUT)];
    match list_first(bytes, text) {
        Ok(count) => count,
        Err(CallError::Broken(fault)) => {
            write_labelled(text, b"fault ", u64::from(fault.cause)).unwrap()
        }
        Err(CallError::Refused(refusal)) => {
            write_labelled(text, b"refused ", u64::from(refusal.number())).unwrap()
        }
    }
}
