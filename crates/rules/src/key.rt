ghost use Rattle.std.specs.Prelude.{Ok};
ghost use Rattle.sources.specs.Block.{minutes_of};
ghost use Rattle.rules.specs.Key.{bay_and_bus};
ghost use Rattle.std.proofs.Common.{rules};

use sources::Block;
use steps::{Fault, Keying};

/// The key of an item is the item itself, whatever kind of item it is, as where Python's groupby is
/// given no key. It meets no fault.
#[derive(Clone, Copy, PartialEq, Eq, Debug)]
pub struct Itself;

impl<T: Eq + Drop> Keying<T> for Itself {
    type Key = T;

    ghost key = { λ _ item. Ok item };

    ghost origin = { Prim.search rules };

    fn key_of(&self, item: T) -> Result<T, Fault> {
        Ok(item)
    }
}

/// The key of a block is its bay. It meets no fault.
#[derive(Clone, Copy, PartialEq, Eq, Debug)]
pub struct Bay;

impl Keying<Block> for Bay {
    type Key = u16;

    ghost key = { λ _ b. Ok b.bay };

    ghost origin = { Prim.search rules };

    fn key_of(&self, item: Block) -> Result<u16, Fault> {
        Ok(item.bay)
    }
}

/// The key of a block is its bus. It meets no fault.
#[derive(Clone, Copy, PartialEq, Eq, Debug)]
pub struct Bus;

impl Keying<Block> for Bus {
    type Key = u16;

    ghost key = { λ _ b. Ok b.bus };

    ghost origin = { Prim.search rules };

    fn key_of(&self, item: Block) -> Result<u16, Fault> {
        Ok(item.bus)
    }
}

/// The key of a block is the minute of the day that it starts at. It meets no fault.
#[derive(Clone, Copy, PartialEq, Eq, Debug)]
pub struct Start;

impl Keying<Block> for Start {
    type Key = u16;

    ghost key = { λ _ b. Ok b.start };

    ghost origin = { Prim.search rules };

    fn key_of(&self, item: Block) -> Result<u16, Fault> {
        Ok(item.start)
    }
}

/// The key of a block is how long it lasts, in minutes: 10 for a block from minute 360 to 370. It
/// meets no fault.
#[derive(Clone, Copy, PartialEq, Eq, Debug)]
pub struct Minutes;

impl Keying<Block> for Minutes {
    type Key = u16;

    ghost key = { λ _ b. Ok (minutes_of b) };

    ghost origin = { Prim.search rules };

    fn key_of(&self, item: Block) -> Result<u16, Fault> {
        Ok(item.minutes())
    }
}

/// The key of a block is its bay and its bus, in this order. It meets no fault.
#[derive(Clone, Copy, PartialEq, Eq, Debug)]
pub struct BayAndBus;

impl Keying<Block> for BayAndBus {
    type Key = (u16, u16);

    ghost key = { λ _ b. Ok (bay_and_bus b) };

    ghost origin = { Prim.search rules };

    fn key_of(&self, item: Block) -> Result<(u16, u16), Fault> {
        Ok((item.bay, item.bus))
    }
}
