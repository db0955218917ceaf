// Plays jobs, read from standard input one to a line, on this library and on the kit's iterators,
// and prints a line for each: the peer, the job, how many rows or items it made and their checksum.
// With `--measure` each job is timed, and the line ends with the nanoseconds of its fastest round.
// With `--sizes` the bytes of the states are printed in place of it. bench/jobs.txt has the form of
// a job.

#![tactic(auto)]

mod items;
mod job;
mod kit_items;
mod kit_rows;
mod odd;
mod peer;
mod rows;
mod setting;
mod sizes;
mod tally;

use crate::job::Job;
use crate::peer::{PEERS, measure, play};
use crate::setting::Setting;
use anyhow::{Context, bail};
use std::alloc::Global;
use std::env;
use std::io::{BufRead, BufReader};

// What the program is asked for.
enum Task {
    Sums,
    Times,
    Sizes,
}

fn main(rt: HostRuntime) -> anyhow::Result<()> {
    let alloc = rt.alloc();
    match asked(&rt, alloc)? {
        Task::Sums => play_all(&rt, alloc, false),
        Task::Times => play_all(&rt, alloc, true),
        Task::Sizes => Ok(sizes::show_all(&rt)?),
    }
}

fn asked(rt: &HostRuntime, alloc: Global) -> anyhow::Result<Task> {
    let mut args = env::args(rt)?.skip(1);
    let Some(word) = args.next() else {
        return Ok(Task::Sums);
    };
    match word.as_str() {
        "--measure" => Ok(Task::Times),
        "--sizes" => Ok(Task::Sizes),
        _ => bail!(format!(in alloc; "{word}: usage: bench [--measure | --sizes] < JOBS")?),
    }
}

fn play_all(rt: &HostRuntime, alloc: Global, measured: bool) -> anyhow::Result<()> {
    for line in BufReader::new(alloc, rt.stdin())?.split(alloc, b'\n') {
        let line = line?;
        if !matches!(line.as_slice(), [] | [b'#', ..]) {
            let text = std::str::from_utf8(line.as_slice()).context("a job in other letters")?;
            run(rt, alloc, text, measured)?;
        }
    }
    Ok(())
}

// Plays one job on each peer.
fn run(rt: &HostRuntime, alloc: Global, line: &str, measured: bool) -> anyhow::Result<()> {
    let Some(job) = Job::read(alloc, line)? else {
        bail!(format!(in alloc; "no such job: {line}")?);
    };
    let numbers = numbers(alloc, job.reach())?;
    let mut setting = Setting::new(alloc, numbers.as_slice());
    for peer in PEERS {
        let name = peer.name();
        if measured {
            let (tally, nanos) = measure(rt, &mut setting, peer, job)?;
            let (units, sum) = (tally.units, tally.sum);
            println!(rt; "{name}\t{line}\t{units}\t{sum}\t{nanos}")?;
        } else {
            let tally = play(&mut setting, peer, job);
            let (units, sum) = (tally.units, tally.sum);
            println!(rt; "{name}\t{line}\t{units}\t{sum}")?;
        }
    }
    Ok(())
}

// The numbers from 0 to below a stop.
fn numbers(alloc: Global, stop: u64) -> anyhow::Result<Vec<u64>> {
    let mut list = Vec::new(alloc);
    for number in 0..stop {
        list.push(number)?;
    }
    Ok(list)
}
