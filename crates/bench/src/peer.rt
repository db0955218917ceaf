// The peers in this program, and how they are timed.

use crate::job::{Job, Over};
use crate::setting::Setting;
use crate::tally::Tally;
use crate::{items, kit_items, kit_rows, rows};
use std::io;
use std::time::{Duration, Instant};

/// Whose iterators a job is played on: this library's, or the kit's `itertools` with those of std.
#[derive(Clone, Copy)]
pub(crate) enum Peer {
    Foimukad,
    Kit,
}

pub(crate) const PEERS: [Peer; 2] = [Peer::Foimukad, Peer::Kit];

// How many times each job is timed; the fastest counts.
const ROUNDS: u64 = 5;

// No clock tells that the program has run for so many seconds.
const NEVER: u64 = 1_000_000_000;

impl Peer {
    pub(crate) fn name(self) -> &'static str {
        match self {
            Peer::Foimukad => "Foimukad",
            Peer::Kit => "kit",
        }
    }
}

/// Plays a job.
pub(crate) fn play(setting: &mut Setting, peer: Peer, job: Job) -> Tally {
    let numbers = setting.numbers;
    match (peer, job) {
        (Peer::Foimukad, Job::Rows(job)) => rows::play(setting, job),
        (Peer::Foimukad, Job::Items(job)) => match job.over {
            Over::Range => items::over_ranges(job),
            Over::List => items::over_lists(numbers, job),
        },
        (Peer::Kit, Job::Rows(job)) => kit_rows::play(setting.alloc, job),
        (Peer::Kit, Job::Items(job)) => match job.over {
            Over::Range => kit_items::over_ranges(job),
            Over::List => kit_items::over_lists(numbers, job),
        },
    }
}

fn nanos(time: Duration) -> u64 {
    let seconds = time.as_secs().wrapping_mul(1_000_000_000);
    seconds.wrapping_add(u64::from(time.subsec_nanos()))
}

/// Plays a job some times over, and tells how many nanoseconds the fastest round took. Each round
/// is given a 0 that comes from the clock, so that the compiler cannot take one round for another.
pub(crate) fn measure(
    rt: &HostRuntime,
    setting: &mut Setting,
    peer: Peer,
    job: Job,
) -> io::Result<(Tally, u64)> {
    let begun = Instant::now(rt)?;
    let mut best = u64::MAX;
    let mut tally = Tally::new();
    for _ in 0..ROUNDS {
        let nothing = u32::from(begun.elapsed(rt)?.as_secs() > NEVER);
        let start = Instant::now(rt)?;
        tally = play(setting, peer, job.plus(nothing));
        best = best.min(nanos(start.elapsed(rt)?));
    }
    Ok((tally, best))
}
