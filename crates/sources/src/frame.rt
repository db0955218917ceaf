ghost use Rattle.std.specs.Prelude.{
  ◌≡◌,
  ◌+◌,
  ◌≤◌,
  ℕ,
  length,
  drop,
  IsTrue,
  ◌↔◌,
  IfOk,
  IfErr,
  Ok,
  Err,
};
ghost use Rattle.sources.specs.Frame.{word, broken, framed};

use crate::cause::Cause;
use steps::Fault;

/// A record in lent bytes: where it begins, its kind, and its payload.
///
/// `04 00 02 00 03 00 02 00` at the front of the bytes is a record at byte 0, of kind 2, with the
/// payload `03 00 02 00`.
#[derive(Clone, Copy)]
pub struct Record<'a> {
    /// Its first byte, counted from 0.
    pub at: usize,
    /// Its kind: 0x0010 is a block.
    pub kind: u16,
    /// Its payload, at most 65,535 bytes.
    pub payload: &'a [u8],
}

/// Lent bytes that are taken record after record.
///
/// A record is a two-byte payload length, a two-byte kind and the payload, low byte first. What a
/// payload means is for the reader of its kind to say.
#[derive(Drop)]
pub struct Frames<'a> {
    bytes: &'a [u8],
    // where the next record begins, which its fault tells
    at: usize,
    ghost within: { at ≤ length bytes.now },
}

/// The number in two bytes, the low one first: `word_of(0x68, 1)` is 360.
pub fn word_of(low: u8, high: u8) -> u16
    ensures { result ≡ word low high }
{
    u16::from_le_bytes([low, high])
}

impl<'a> Frames<'a> {
    /// The records of these bytes, the first of them at byte 0.
    pub fn new(bytes: &'a [u8]) -> Self
        ensures holds { (result.bytes ≡ bytes.entry) × (result.at ≡ 0) }
    {
        Frames { bytes, at: 0 }
    }

    /// Whether no bytes are left, so that no record can be taken.
    pub fn is_over(&self) -> bool
        ensures { IsTrue result ↔ (length self.now.bytes.now ≤ self.now.at) }
    {
        self.at >= self.bytes.len()
    }

    /// Takes the next record. Fewer than four bytes are cause 1 and a payload cut short is cause 2,
    /// each a source's fault at the byte where the record begins; nothing is left after these.
    /// `04 00 02 00 03 00 02 00` is a record of kind 2 with four bytes of payload.
    pub fn take(&mut self) -> Result<Record<'a>, Fault>
        ensures taken { IfOk result (λ r. (r.at ≡ self.old.at)
            × (framed (drop self.old.at self.old.bytes.now) ≡ Ok (record {
              kind = r.kind;
              payload = r.payload.now;
              behind = drop self.new.at self.old.bytes.now;
            }))
            × (self.new.at ≡ self.old.at + 4 + length r.payload.now)) }
        ensures faulty { IfErr result (λ f. ((cause : ℕ) × (f ≡ broken cause self.old.at)
            × (framed (drop self.old.at self.old.bytes.now) ≡ Err cause))
            × (self.new.at ≡ length self.old.bytes.now)) }
        ensures bytes { self.new.bytes ≡ self.old.bytes }
    {
        let at = self.at;
        let [l0, l1, k0, k1, rest @ ..] = &self.bytes[at..] else {
            self.at = self.bytes.len();
            return Err(Cause::CutHeader.fault_at(at));
        };
        let len = word_of(*l0, *l1) as usize;
        if rest.len() < len {
            self.at = self.bytes.len();
            return Err(Cause::CutPayload.fault_at(at));
        }
        self.at = at + 4 + len;
        Ok(Record {
            at,
            kind: word_of(*k0, *k1),
            payload: &rest[0..len],
        })
    }
}
