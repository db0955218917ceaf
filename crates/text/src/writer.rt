// Each function writes its text from a place of lent bytes on and answers the place behind it. The
// bytes before the text and behind it stay as they were. Where the text does not fit between the
// place and the end of the bytes, the call is refused and writes nothing.
ghost use Rattle.std.specs.Prelude.{◌≡◌, ◌-◌, ◌≤◌, length, replicate, decimal, IfErr};
ghost use Rattle.steps.specs.Refusals.{refusal_number};
ghost use Rattle.text.specs.Writer.{written, place_behind, if_room, padded};

use itoa::Buffer;
use steps::Refusal;

// The place behind a text of some bytes. The sum may pass what a place can be: then no buffer has
// the room.
fn end_of(at: usize, size: usize, room: usize) -> Result<usize, Refusal>
    ensures { result ≡ place_behind at size room }
{
    match at.checked_add(size) {
        Some(end) if end <= room => Ok(end),
        _ => Err(Refusal::ShortBuffer),
    }
}

/// Writes literal bytes: `b"end\n"` at 0 makes `end\n..` of a buffer `......`, and answers 4.
///
/// Refused by 4 where the text does not fit: a buffer of 3 bytes stays as it was.
pub fn write_bytes(buffer: &mut [u8], at: usize, text: &[u8]) -> Result<usize, Refusal>
    ensures answer { result ≡ place_behind at (length text.now) (length buffer.old) }
    ensures number { IfErr result (λ refusal. refusal_number refusal ≡ 4) }
    ensures writes { buffer.new ≡ if_room at text.now buffer.old }
{
    let end = end_of(at, text.len(), buffer.len())?;
    buffer[at..end].copy_from_slice(text);
    Ok(end)
}

/// Writes a number in decimal, without leading zeros: 205 at 1 makes `.205..` of a buffer `......`,
/// and answers 4.
///
/// Refused by 4 where the digits do not fit: at 4 the same buffer stays as it was.
pub fn write_number(buffer: &mut [u8], at: usize, number: u64) -> Result<usize, Refusal>
    ensures answer { result ≡ place_behind at (length (decimal number)) (length buffer.old) }
    ensures number { IfErr result (λ refusal. refusal_number refusal ≡ 4) }
    ensures writes { buffer.new ≡ if_room at (decimal number) buffer.old }
{
    let mut digits = Buffer::new();
    write_bytes(buffer, at, digits.format(number).as_bytes())
}

// Fills the bytes from a place up to another with spaces.
fn fill_spaces(buffer: &mut [u8], at: usize, end: usize)
    requires order { at ≤ end }
    requires room { end ≤ length buffer.old }
    ensures { buffer.new ≡ written at (replicate (end - at) 32) buffer.old }
{
    buffer[at..end].fill(b' ');
}

/// Writes a number with spaces before it up to a width in bytes, and a longer number whole: 7 to a
/// width of 3 at 1 makes `.  7..` of a buffer `......`, and answers 4.
///
/// Refused by 4 where the spaces and digits do not fit together: at 4 the same buffer stays as it
/// was.
#[tactic(auto, using(crate::proofs::WriterLemmas::padded_length))]
pub fn write_padded(
    buffer: &mut [u8],
    at: usize,
    width: usize,
    number: u64,
) -> Result<usize, Refusal>
    ensures answer { result ≡ place_behind at (length (padded width number)) (length buffer.old) }
    ensures number { IfErr result (λ refusal. refusal_number refusal ≡ 4) }
    ensures writes { buffer.new ≡ if_room at (padded width number) buffer.old }
{
    let mut digits = Buffer::new();
    let digits = digits.format(number).as_bytes();
    let end = end_of(at, width.max(digits.len()), buffer.len())?;
    let start = end - digits.len();
    fill_spaces(buffer, at, start);
    write_bytes(buffer, start, digits)
}
