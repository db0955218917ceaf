// What a call of `next` writes.
ghost use Rattle.std.specs.Prelude.{◌≡◌};
ghost use Rattle.row_laws.specs.Written.{PlaceByPlace};

use crate::enumerator::Enumerator;

/// A row that is given is written place by place: its places to the front of the one buffer, and to
/// the front of the other, for each of them, the element that lies there in the lent pool, counted
/// from where the pool of the place starts. The row `0 2` over `a b c` writes `0 2` and `a c`, and
/// nothing behind them. The answer is always 0.
pub fn place_by_place<E: Enumerator, T: Copy>() -> u8
    ensures result { result ≡ 0 }
    ensures law { PlaceByPlace E.shown T }
{
    0
}
