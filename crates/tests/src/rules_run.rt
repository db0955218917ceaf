ghost use Rattle.std.specs.Prelude.{Err};
ghost use Rattle.std.proofs.Common.{rules};

use rules::{AtLeast, Below, Both, Bus, Either, Equals, IsTrue, Minutes, NonZero, Not, Start};
use sources::Block;
use steps::{Fault, Keying, Predicate};

// Meets a fault at every item.
#[derive(Clone, Copy)]
struct Broken;

const BROKEN: Fault = Fault {
    origin: Fault::PREDICATE,
    cause: 7,
    place: 0,
};

impl Predicate<u64> for Broken {
    ghost says = { λ _ _. Err (record { origin = 2; cause = 7; place = 0 }) };

    ghost origin = { Prim.search rules };

    fn test(&self, _item: u64) -> Result<bool, Fault> {
        Err(BROKEN)
    }
}

// Bus 7 at bay 2, 06:00 to 06:10.
const BLOCK: Block = Block {
    bus: 7,
    bay: 2,
    start: 360,
    end: 370,
};

#[test]
fn predicates_of_one_item(rt: HostRuntime) {
    assert_eq!(rt; AtLeast { limit: 8 }.test(7), Ok(false));
    assert_eq!(rt; AtLeast { limit: 8 }.test(8), Ok(true));
    assert_eq!(rt; NonZero.test(0), Ok(false));
    assert_eq!(rt; NonZero.test(1), Ok(true));
    assert_eq!(rt; IsTrue.test(true), Ok(true));
    assert_eq!(rt; IsTrue.test(false), Ok(false));
    assert_eq!(rt; Equals { to: 7u64 }.test(7), Ok(true));
    assert_eq!(rt; Equals { to: 7u64 }.test(8), Ok(false));
    assert_eq!(rt; Equals { to: BLOCK }.test(BLOCK), Ok(true));
    assert_eq!(rt;
        Equals { to: BLOCK }.test(Block { bay: 3, ..BLOCK }),
        Ok(false)
    );
}

#[test]
fn predicates_of_predicates(rt: HostRuntime) {
    let (low, high) = (Below { limit: 5 }, AtLeast { limit: 8 });
    assert_eq!(rt; Not(low).test(4), Ok(false));
    assert_eq!(rt; Not(low).test(5), Ok(true));
    assert_eq!(rt; Both(Not(low), Not(high)).test(4), Ok(false));
    assert_eq!(rt; Both(Not(low), Not(high)).test(5), Ok(true));
    assert_eq!(rt; Both(Not(low), Not(high)).test(8), Ok(false));
    assert_eq!(rt; Either(low, high).test(4), Ok(true));
    assert_eq!(rt; Either(low, high).test(5), Ok(false));
    assert_eq!(rt; Either(low, high).test(8), Ok(true));
}

#[test]
fn a_second_predicate_is_asked_where_needed(rt: HostRuntime) {
    let low = Below { limit: 5 };
    assert_eq!(rt; Not(Broken).test(4), Err(BROKEN));
    assert_eq!(rt; Both(low, Broken).test(4), Err(BROKEN));
    assert_eq!(rt; Both(low, Broken).test(5), Ok(false));
    assert_eq!(rt; Both(Broken, low).test(5), Err(BROKEN));
    assert_eq!(rt; Either(low, Broken).test(4), Ok(true));
    assert_eq!(rt; Either(low, Broken).test(5), Err(BROKEN));
    assert_eq!(rt; Either(Broken, low).test(4), Err(BROKEN));
}

#[test]
fn keys_of_a_block(rt: HostRuntime) {
    assert_eq!(rt; Bus.key_of(BLOCK), Ok(7));
    assert_eq!(rt; Start.key_of(BLOCK), Ok(360));
    assert_eq!(rt; Minutes.key_of(BLOCK), Ok(10));
    assert_eq!(rt; Minutes.key_of(Block { end: 350, ..BLOCK }), Ok(0));
}

#[test]
fn minutes_to_a_later_block(rt: HostRuntime) {
    assert_eq!(rt;
        BLOCK.minutes_until(&Block {
            start: 379,
            ..BLOCK
        }),
        Some(9)
    );
    assert_eq!(rt;
        BLOCK.minutes_until(&Block {
            start: 370,
            ..BLOCK
        }),
        Some(0)
    );
    assert!(rt;
        BLOCK
            .minutes_until(&Block {
                start: 369,
                ..BLOCK
            })
            .is_none()
    );
}
