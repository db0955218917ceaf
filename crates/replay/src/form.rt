// The pieces that scenarios are made of: words, numbers, steps and bytes.
ghost use Rattle.replay.specs.Forms.{Spelled, HexDigit};

use crate::flaw::Flaw;
use std::alloc::{AllocError, Global};
use steps::{Fault, Step};

/// The parts of a line.
pub fn parts<'a>(alloc: Global, line: &'a str) -> Result<Vec<&'a str>, AllocError> {
    line.split(" ; ").collect(alloc)
}

/// The words of a part. An empty word is none that any form has.
pub fn words<'a>(alloc: Global, part: &'a str) -> Result<Vec<&'a str>, AllocError> {
    part.split(' ').collect(alloc)
}

/// The number that decimal digits spell, where 64 bits hold it; a sign is none of them.
pub fn number(word: &str) -> Result<u64, Flaw>
    ensures { Spelled 64 word.now result }
{
    match word.as_bytes() {
        [b'0'..=b'9', ..] => Ok(word.parse::<u64>()?),
        _ => Err(Flaw::Form),
    }
}

/// The same where 32 bits hold it.
pub fn number32(word: &str) -> Result<u32, Flaw>
    ensures { Spelled 32 word.now result }
{
    Ok(u32::try_from(number(word)?)?)
}

fn number16(word: &str) -> Result<u16, Flaw>
    ensures { Spelled 16 word.now result }
{
    Ok(u16::try_from(number(word)?)?)
}

fn number8(word: &str) -> Result<u8, Flaw>
    ensures { Spelled 8 word.now result }
{
    Ok(u8::try_from(number(word)?)?)
}

/// A number, or nothing where the word is the mark of an absent one.
pub fn optional(word: &str, mark: &str) -> Result<Option<u64>, Flaw> {
    if word == mark {
        return Ok(None);
    }
    Ok(Some(number(word)?))
}

// The values of a list, each read from a word; `-` alone is the empty list.
fn listed<T: Drop, F: FnMut(&str) -> Result<T, Flaw>>(
    alloc: Global,
    list: &str,
    separator: char,
    read: F,
) -> Result<Vec<T>, Flaw>
    requires { (state : F) (word : _) → F.pre state word }
{
    if list == "-" {
        return Ok(Vec::new(alloc));
    }
    list.split(separator).map(read).try_collect(alloc)
}

/// The entries between commas, each a number or `_` for an absent one.
pub fn entries(alloc: Global, word: &str) -> Result<Vec<Option<u64>>, Flaw> {
    listed(alloc, word, ',', |entry| optional(entry, "_"))
}

/// The lengths of pools between commas.
pub fn lengths(alloc: Global, word: &str) -> Result<Vec<usize>, Flaw> {
    listed(alloc, word, ',', |length| Ok(number(length)? as usize))
}

/// The steps that a source has ahead, one to a word.
pub fn steps(alloc: Global, part: &str) -> Result<Vec<Step<u64>>, Flaw> {
    listed(alloc, part, ' ', step)
}

// An item is a number, a fault three numbers after `!`.
fn step(word: &str) -> Result<Step<u64>, Flaw> {
    match word.strip_prefix('!') {
        Some(numbers) => Ok(Err(fault(numbers)?)),
        None => Ok(Ok(number(word)?)),
    }
}

fn fault(numbers: &str) -> Result<Fault, Flaw> {
    let (origin, cause, place) = triple(numbers)?;
    Ok(Fault {
        origin: number8(origin)?,
        cause: number16(cause)?,
        place: number(place)?,
    })
}

/// Three words with colons between them.
pub fn triple<'a>(numbers: &'a str) -> Result<(&'a str, &'a str, &'a str), Flaw> {
    let (first, rest) = numbers.split_once(':').ok_or(Flaw::Form)?;
    let (second, third) = rest.split_once(':').ok_or(Flaw::Form)?;
    Ok((first, second, third))
}

/// The bytes that pairs of hexadecimal digits spell; `-` alone for none.
pub fn bytes(alloc: Global, word: &str) -> Result<Vec<u8>, Flaw> {
    match word {
        "-" => Ok(Vec::new(alloc)),
        "" => Err(Flaw::Form),
        // told before there is memory for any of the bytes
        _ if word.len() % 2 != 0 => Err(Flaw::Form),
        _ => word.as_bytes().chunks(2).map(byte).try_collect(alloc),
    }
}

fn byte(pair: &[u8]) -> Result<u8, Flaw> {
    match pair {
        [high, low] => Ok(16 * digit(*high)? + digit(*low)?),
        _ => Err(Flaw::Form),
    }
}

// The value of a hexadecimal digit, in either case.
fn digit(byte: u8) -> Result<u8, Flaw>
    ensures { HexDigit byte result }
{
    Ok(char::from(byte).to_digit(16).ok_or(Flaw::Form)? as u8)
}
