// The key "the item itself" is written once for every kind of item. This is what it says at the two
// kinds that rules ask about.
ghost use Rattle.std.specs.Prelude.{◌≡◌, nat_eq};
ghost use Rattle.rules.specs.Key.{same_block};

use rules::Itself;
use sources::Block;
use steps::Keying;

/// Whether two numbers are the same key: 5 and 5 are, 5 and 6 are not.
pub fn is_same_number(a: u64, b: u64) -> bool
    ensures { result ≡ nat_eq a b }
{
    match (Itself.key_of(a), Itself.key_of(b)) {
        (Ok(a), Ok(b)) => a == b,
        _ => false,
    }
}

/// Whether two blocks are the same key: where all four of their numbers are the same.
pub fn is_same_block(one: Block, other: Block) -> bool
    ensures { result ≡ same_block one other }
{
    match (Itself.key_of(one), Itself.key_of(other)) {
        (Ok(one), Ok(other)) => one == other,
        _ => false,
    }
}
