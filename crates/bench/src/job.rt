// The jobs, and how lines of text name them.

use std::alloc::{AllocError, Global};

/// The kinds of enumerators.
#[derive(Clone, Copy)]
pub(crate) enum Kind {
    Product,
    Combinations,
    Replacement,
    Permutations,
}

/// What stands over the numbers: nothing, one of the eight adapters, or a stack of six.
#[derive(Clone, Copy)]
pub(crate) enum Adapter {
    Alone,
    TakeWhile,
    DropWhile,
    Islice,
    Compress,
    Accumulate,
    Chain,
    ZipLongest,
    Pairwise,
    Six,
}

/// Where the numbers come from.
#[derive(Clone, Copy)]
pub(crate) enum Over {
    Range,
    List,
}

/// The first rows of `places` places over a pool of so many numbers, at most `most` of them.
#[derive(Clone, Copy)]
pub(crate) struct Rows {
    pub(crate) kind: Kind,
    pub(crate) pool: u32,
    pub(crate) places: u32,
    pub(crate) most: u64,
}

/// An adapter over so many numbers.
#[derive(Clone, Copy)]
pub(crate) struct Items {
    pub(crate) over: Over,
    pub(crate) adapter: Adapter,
    pub(crate) count: u32,
}

#[derive(Clone, Copy)]
pub(crate) enum Job {
    Rows(Rows),
    Items(Items),
}

impl Job {
    /// The job that a line names, if it names one: `KIND POOL PLACES MOST`, or `range` or `list`,
    /// then `ADAPTER COUNT`.
    pub(crate) fn read(alloc: Global, line: &str) -> Result<Option<Job>, AllocError> {
        let words: Vec<&str> = line.split(' ').collect(alloc)?;
        Ok(match words.as_slice() {
            [kind, pool, places, most] => read_rows(kind, pool, places, most),
            [over, adapter, count] => read_items(over, adapter, count),
            _ => None,
        })
    }

    /// How many numbers the job's pool or lists have at most.
    pub(crate) fn reach(self) -> u64 {
        match self {
            Job::Rows(rows) => u64::from(rows.pool),
            Job::Items(items) => 3 * u64::from(items.count),
        }
    }

    /// The same job where `nothing` is 0.
    pub(crate) fn plus(self, nothing: u32) -> Job {
        match self {
            Job::Rows(rows) => Job::Rows(Rows {
                pool: rows.pool.wrapping_add(nothing),
                ..rows
            }),
            Job::Items(items) => Job::Items(Items {
                count: items.count.wrapping_add(nothing),
                ..items
            }),
        }
    }
}

fn read_rows(kind: &str, pool: &str, places: &str, most: &str) -> Option<Job> {
    let kind = match kind {
        "product" => Kind::Product,
        "combinations" => Kind::Combinations,
        "replacement" => Kind::Replacement,
        "permutations" => Kind::Permutations,
        _ => return None,
    };
    Some(Job::Rows(Rows {
        kind,
        pool: pool.parse().ok()?,
        places: places.parse().ok()?,
        most: most.parse().ok()?,
    }))
}

fn read_items(over: &str, adapter: &str, count: &str) -> Option<Job> {
    let over = match over {
        "range" => Over::Range,
        "list" => Over::List,
        _ => return None,
    };
    let adapter = match adapter {
        "alone" => Adapter::Alone,
        "takewhile" => Adapter::TakeWhile,
        "dropwhile" => Adapter::DropWhile,
        "islice" => Adapter::Islice,
        "compress" => Adapter::Compress,
        "accumulate" => Adapter::Accumulate,
        "chain" => Adapter::Chain,
        "zip_longest" => Adapter::ZipLongest,
        "pairwise" => Adapter::Pairwise,
        "six" => Adapter::Six,
        _ => return None,
    };
    Some(Job::Items(Items {
        over,
        adapter,
        count: count.parse().ok()?,
    }))
}

/// The first numbers of a list, so many of them; none where it has fewer.
pub(crate) fn first<T>(numbers: &[T], count: usize) -> &[T] {
    numbers.get(0..count).unwrap_or(&[])
}
