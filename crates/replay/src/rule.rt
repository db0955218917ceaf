// The predicates and key kinds that scenarios name.
ghost use Rattle.std.specs.Prelude.{◌≡◌, ◌%◌, ◌<◌, Ok};
ghost use Rattle.replay.specs.Guards.{no_answer as no_answer_of, guarded};
ghost use Rattle.replay.specs.Origins.{guarded_origin};
ghost use Rattle.std.proofs.Common.{rules};

use crate::flaw::Flaw;
use crate::form::number;
use rules::{Below, NonZero};
use steps::{Fault, Keying, Predicate};

// What a rule of this origin meets at its bad item.
fn no_answer(origin: u8) -> Fault
    ensures { result ≡ no_answer_of origin }
{
    Fault {
        origin,
        cause: 1,
        place: 0,
    }
}

/// A rule that meets a fault at one item, if there is such, whatever it would say of it.
#[derive(Clone, Copy)]
pub struct Guarded<R> {
    bad: Option<u64>,
    rule: R,
}

impl<P: Predicate<u64>> Predicate<u64> for Guarded<P> {
    ghost says = { λ p n. guarded 2 p.bad n (P.Predicate.says p.rule n) };

    ghost origin = { λ s a f e. guarded_origin 2 s.bad a (P.Predicate.says s.rule a) f
        (P.Predicate.origin s.rule a f) e };

    fn test(&self, item: u64) -> Result<bool, Fault> {
        if self.bad == Some(item) {
            return Err(no_answer(Fault::PREDICATE));
        }
        self.rule.test(item)
    }
}

impl<K: Keying<u64>> Keying<u64> for Guarded<K> {
    type Key = K::Key;

    ghost key = { λ k n. guarded 3 k.bad n (K.Keying.key k.rule n) };

    ghost origin = { λ s a f e. guarded_origin 3 s.bad a (K.Keying.key s.rule a) f
        (K.Keying.origin s.rule a f) e };

    fn key_of(&self, item: u64) -> Result<K::Key, Fault> {
        if self.bad == Some(item) {
            return Err(no_answer(Fault::KEY));
        }
        self.rule.key_of(item)
    }
}

/// The key of a number is its remainder by a modulus.
#[derive(Clone, Copy)]
pub struct Remainder {
    modulus: u64,
    ghost positive: { 0 < modulus },
}

impl Keying<u64> for Remainder {
    type Key = u64;

    ghost key = { λ k n. Ok (n % k.modulus) };

    ghost origin = { Prim.search rules };

    fn key_of(&self, item: u64) -> Result<u64, Fault> {
        Ok(item % self.modulus)
    }
}

/// `below:LIMIT` or `below:LIMIT:BAD`.
pub fn read_below(word: &str) -> Result<Guarded<Below>, Flaw> {
    let numbers = word.strip_prefix("below:").ok_or(Flaw::Form)?;
    let (limit, bad) = read_bad(numbers)?;
    let limit = number(limit)?;
    Ok(Guarded {
        bad,
        rule: Below { limit },
    })
}

/// `nonzero` or `nonzero:BAD`.
pub fn read_nonzero(word: &str) -> Result<Guarded<NonZero>, Flaw> {
    match read_bad(word)? {
        ("nonzero", bad) => Ok(Guarded { bad, rule: NonZero }),
        _ => Err(Flaw::Form),
    }
}

/// `mod:M` or `mod:M:BAD`, with an M above 0.
pub fn read_remainder(word: &str) -> Result<Guarded<Remainder>, Flaw> {
    let numbers = word.strip_prefix("mod:").ok_or(Flaw::Form)?;
    let (modulus, bad) = read_bad(numbers)?;
    let modulus = number(modulus)?;
    if modulus == 0 {
        return Err(Flaw::Form);
    }
    Ok(Guarded {
        bad,
        rule: Remainder { modulus },
    })
}

// What stands in front of `:BAD`, and the number there, if there is one.
fn read_bad<'a>(word: &'a str) -> Result<(&'a str, Option<u64>), Flaw> {
    match word.split_once(':') {
        Some((front, bad)) => Ok((front, Some(number(bad)?))),
        None => Ok((word, None)),
    }
}
