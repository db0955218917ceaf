// The faults that tests put in a source's way.

use steps::Fault;

// A record of another kind at byte 40.
pub(crate) const BROKEN: Fault = Fault {
    origin: Fault::SOURCE,
    cause: 3,
    place: 40,
};

// A key kind that has no key for an item.
pub(crate) const NO_KEY: Fault = Fault {
    origin: Fault::KEY,
    cause: 1,
    place: 0,
};
