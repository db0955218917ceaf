// What jobs are played with.

use enumerators::MOST_PLACES;
use std::alloc::Global;

/// What a job is given, made before any clock runs: numbers from 0 up, as many as it reaches, and
/// buffers for a row. The buffers come from outside the functions that are timed, so that the
/// compiler leaves out no write to them.
#[derive(Clone, Copy)]
pub(crate) struct Setting<'a> {
    pub(crate) alloc: Global,
    pub(crate) numbers: &'a [u64],
    pub(crate) elements: [u64; MOST_PLACES],
    pub(crate) places: [u16; MOST_PLACES],
}

impl<'a> Setting<'a> {
    pub(crate) fn new(alloc: Global, numbers: &'a [u64]) -> Setting<'a> {
        Setting {
            alloc,
            numbers,
            elements: [0; MOST_PLACES],
            places: [0; MOST_PLACES],
        }
    }
}
