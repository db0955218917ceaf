// The listing of an enumerator. Its text is written by stepping rows, without a pool, whoever holds
// the enumerator. What a listing writes at most is looked at once, before the first byte; so none
// of the writes below it is refused.
ghost use Rattle.std.specs.Prelude.{
  ◌≡◌,
  ◌+◌,
  ◌*◌,
  ◌≤◌,
  max,
  length,
  take,
  Ok,
  IfOk,
  IfErr,
};
ghost use Rattle.std.specs.List.{flat_map};
ghost use Rattle.steps.specs.Refusals.{refusal_number};
ghost use Rattle.text.specs.Writer.{written};
ghost use Rattle.row_laws.specs.Calls.{leaving, at_front};
ghost use Rattle.row_laws.specs.Listing.{
  row_text,
  spaced,
  row_line,
  line,
  last_text,
  listing,
  least_buffer,
  if_listed,
  answer_of_listing,
  Lists,
};

use crate::enumerator::Enumerator;
use steps::Refusal;
use text::{write_bytes, write_number};

/// The most rows that a listing shows.
pub const MOST_LISTED: usize = 100;

// The least buffer for a listing of rows of so many places, in bytes: a place takes three digits
// and a byte behind them, and a row of no places its line feed; `more` and its line feed come last.
fn least_room(width: usize) -> usize
    requires { width ≤ 64 }
    ensures { result ≡ least_buffer width }
{
    MOST_LISTED * (4 * width).max(1) + 5
}

// Writes a space and a place behind it.
fn write_other_place(buffer: &mut [u8], at: usize, place: u16) -> Result<usize, Refusal>
    requires room { at + length (spaced place) ≤ length buffer.old }
    ensures end { result ≡ Ok (at + length (spaced place)) }
    ensures writes { buffer.new ≡ written at (spaced place) buffer.old }
{
    let after = write_bytes(buffer, at, b" ")?;
    write_number(buffer, after, u64::from(place))
}

// Writes the places of a row, with single spaces between them.
fn write_places(buffer: &mut [u8], start: usize, row: &[u16]) -> Result<usize, Refusal>
    requires room { start + length (row_text row.now) ≤ length buffer.old }
    ensures end { result ≡ Ok (start + length (row_text row.now)) }
    ensures writes { buffer.new ≡ written start (row_text row.now) buffer.old }
{
    let [first, others @ ..] = row else {
        return Ok(start);
    };
    let mut at = write_number(buffer, start, u64::from(*first))?;
    for place in others {
        at = write_other_place(buffer, at, *place)?;
    }
    Ok(at)
}

// Writes the line of a row.
fn write_row(buffer: &mut [u8], start: usize, row: &[u16]) -> Result<usize, Refusal>
    requires room { start + length (row_line row.now) ≤ length buffer.old }
    ensures end { result ≡ Ok (start + length (row_line row.now)) }
    ensures writes { buffer.new ≡ written start (row_line row.now) buffer.old }
{
    let at = write_places(buffer, start, row)?;
    write_bytes(buffer, at, b"\n")
}

// Writes the line of the first row ahead and leaves the row behind; with none ahead it writes
// nothing.
fn write_next<E: Enumerator>(
    enumerator: &mut E,
    buffer: &mut [u8],
    at: usize,
) -> Result<usize, Refusal>
    requires room { at + max 1 (4 * (E.shown enumerator.old).width) ≤ length buffer.old }
    ensures end { result
        ≡ Ok (at + length (flat_map row_line (take 1 (E.shown enumerator.old).ahead))) }
    ensures writes { buffer.new
        ≡ written at (flat_map row_line (take 1 (E.shown enumerator.old).ahead)) buffer.old }
    ensures shows { E.shown enumerator.new ≡ leaving 1 (E.shown enumerator.old) }
{
    let Some(row) = enumerator.row() else {
        return Ok(at);
    };
    let end = write_row(buffer, at, row)?;
    enumerator.advance();
    Ok(end)
}

// Writes the last line, by whether a row is left.
fn write_last<E: Enumerator>(enumerator: &E, buffer: &mut [u8], at: usize) -> Result<usize, Refusal>
    requires room { at + 5 ≤ length buffer.old }
    ensures end { result ≡ Ok (at + length (line (last_text (E.shown enumerator.now).ahead))) }
    ensures writes { buffer.new
        ≡ written at (line (last_text (E.shown enumerator.now).ahead)) buffer.old }
{
    match enumerator.row() {
        Some(_) => write_bytes(buffer, at, b"more\n"),
        None => write_bytes(buffer, at, b"end\n"),
    }
}

// Writes the lines of as many rows as a listing shows, and leaves these rows behind.
fn write_rows<E: Enumerator>(enumerator: &mut E, buffer: &mut [u8]) -> Result<usize, Refusal>
    requires room { least_buffer (E.shown enumerator.old).width ≤ length buffer.old }
    ensures end { result
        ≡ Ok (0 + length (flat_map row_line (take 100 (E.shown enumerator.old).ahead))) }
    ensures writes { buffer.new
        ≡ written 0 (flat_map row_line (take 100 (E.shown enumerator.old).ahead)) buffer.old }
    ensures shows { E.shown enumerator.new ≡ leaving 100 (E.shown enumerator.old) }
{
    let mut at = 0;
    for _row in 0..MOST_LISTED {
        at = write_next(enumerator, buffer, at)?;
    }
    Ok(at)
}

/// Writes the listing of the rows ahead to the front of a lent buffer, and leaves the listed rows
/// behind: at most 100 rows, each with its places in decimal, single spaces between them, and a
/// line feed; then `end`, or `more` where a row is left, and a line feed.
///
/// Answers how many bytes it wrote; the rest of the buffer is as it was. A buffer of less than
/// 100 × max(1, 4 × row length) + 5 bytes is refusal 4, before a byte is written.
pub fn write_listing<E: Enumerator>(enumerator: &mut E, buffer: &mut [u8]) -> Result<usize, Refusal>
    ensures answer { result ≡ answer_of_listing
        (E.shown enumerator.old).width (length buffer.old) (E.shown enumerator.old).ahead }
    ensures number { IfErr result (λ refusal. refusal_number refusal ≡ 4) }
    ensures writes { buffer.new ≡ if_listed (E.shown enumerator.old).width (length buffer.old)
        (at_front (listing (E.shown enumerator.old).ahead) buffer.old) buffer.old }
    ensures fits { IfOk result (λ count. count ≤ length buffer.old) }
    ensures law { IfOk result (λ count.
        Lists (E.shown enumerator.old).ahead (take count buffer.new)) }
    ensures shows { E.shown enumerator.new
        ≡ if_listed (E.shown enumerator.old).width (length buffer.old)
        (leaving 100 (E.shown enumerator.old)) (E.shown enumerator.old) }
{
    if buffer.len() < least_room(enumerator.row_len()) {
        return Err(Refusal::ShortBuffer);
    }
    let at = write_rows(enumerator, buffer)?;
    write_last(enumerator, buffer, at)
}

/// The listing of an enumerator that is given away, and so used up, refused or not: to step on,
/// make a new one. The text, the answer and the refusal are those of `write_listing`; of the
/// combinations of 2 from 3 it writes `0 1`, `0 2`, `1 2` and `end`, a line each.
pub fn list<E: Enumerator + Drop>(mut enumerator: E, buffer: &mut [u8]) -> Result<usize, Refusal>
    ensures answer { result ≡ answer_of_listing
        (E.shown enumerator).width (length buffer.old) (E.shown enumerator).ahead }
    ensures number { IfErr result (λ refusal. refusal_number refusal ≡ 4) }
    ensures writes { buffer.new ≡ if_listed (E.shown enumerator).width (length buffer.old)
        (at_front (listing (E.shown enumerator).ahead) buffer.old) buffer.old }
    ensures fits { IfOk result (λ count. count ≤ length buffer.old) }
    ensures law { IfOk result (λ count. Lists (E.shown enumerator).ahead (take count buffer.new)) }
{
    write_listing(&mut enumerator, buffer)
}
