//! Does the jobs that users of the library wait for, on texts that it makes from a seed, and prints a
//! digest of all that came out; or repeats one call on the text on standard input, and prints the time.
#![tactic(auto)]

mod broken;
mod changed;
mod digest;
mod document;
mod edited;
mod job;
mod opening;
mod outside;
mod positions;
mod random;
mod sums;
mod typing;
mod walking;
mod work;

use digest::Outcome;
use job::jobs_named;
use std::time::Instant;
use std::{env, io};
use work::{Subject, Work};

const USAGE: &str =
    "usage: typst_workloads typing|blocks|broken|walking|opening|outside|positions|sums|all SEED ROUNDS [check]\n       typst_workloads lines|parse|parse-code|parse-math|html|edit N";

/// Without words it prints which ones it takes.
fn main(rt: HostRuntime) -> anyhow::Result<()> {
    let words: Vec<String> = env::args(&rt)?.skip(1).collect(rt.alloc())?;
    match words.as_slice() {
        [] => Ok(println!(rt; "{USAGE}")?),
        [work, rounds] => repeat(&rt, work.as_str(), rounds.as_str()),
        [jobs, seed, rounds] => do_jobs(&rt, jobs.as_str(), seed.as_str(), rounds.as_str(), false),
        [jobs, seed, rounds, check] if check.as_str() == "check" => {
            do_jobs(&rt, jobs.as_str(), seed.as_str(), rounds.as_str(), true)
        }
        _ => anyhow::bail!("{USAGE}"),
    }
}

/// Does the jobs of a name on so many rounds of inputs, and prints how many results were held against
/// newly made ones, how many agreed, and where it isn't only a check the digest of all results. Where a
/// result differs, it ends with an error.
fn do_jobs(
    rt: &HostRuntime,
    name: &str,
    seed: &str,
    rounds: &str,
    is_check: bool,
) -> anyhow::Result<()> {
    let seed = seed.parse::<u64>()?;
    let rounds = rounds.parse::<usize>()?;
    let jobs = jobs_named(name);
    if jobs.is_empty() {
        anyhow::bail!("{USAGE}");
    }
    let mut all_agree = true;
    for (name, job) in jobs {
        let outcome = job.run(rt.alloc(), seed, rounds)?;
        report(rt, *name, &outcome, is_check)?;
        all_agree = all_agree && outcome.differing.is_none();
    }
    if !all_agree {
        anyhow::bail!("some results differ from those made in another way");
    }
    Ok(())
}

/// Does the work of a name so many times on the text on standard input, and prints
/// `WORD bytes B checksum C` on standard output and the nanoseconds of a round on standard error.
fn repeat(rt: &HostRuntime, word: &str, rounds: &str) -> anyhow::Result<()> {
    let Some(work) = Work::from_word(word) else {
        anyhow::bail!("{USAGE}");
    };
    let rounds = rounds.parse::<u64>()?;
    let text = io::read_to_string(rt.alloc(), rt.reader())?;
    let bytes = text.len();
    let mut subject = work.subject(rt.alloc(), text)?;
    let (checksum, nanoseconds) = timed(rt, &mut subject, rounds)?;
    println!(rt; "{word} bytes {bytes} checksum {checksum}")?;
    eprintln!(rt; "{nanoseconds}")?;
    Ok(())
}

/// The checksum of so many rounds, and the nanoseconds of one.
fn timed(rt: &HostRuntime, subject: &mut Subject, rounds: u64) -> anyhow::Result<(u64, u128)> {
    let start = Instant::now(rt)?;
    let mut checksum = 0u64;
    for _ in 0..rounds {
        checksum = checksum.rotate_left(1) ^ subject.round(rt.alloc())?;
    }
    let nanoseconds = start.elapsed(rt)?.as_nanos() / u128::from(rounds.max(1));
    Ok((checksum, nanoseconds))
}

/// Prints what came of a job, and on standard error what differed.
fn report(rt: &HostRuntime, word: &str, outcome: &Outcome, is_check: bool) -> anyhow::Result<()> {
    let (held, agreed) = (outcome.held, outcome.agreed);
    print!(rt; "{word} held {held} agreed {agreed}")?;
    if !is_check {
        let digest = outcome.digest.value;
        print!(rt; " digest {digest}")?;
    }
    println!(rt; "")?;
    if let Some(what) = outcome.differing {
        eprintln!(rt; "{word}: {agreed} of {held} agree, and the first that doesn't is {what}")?;
    }
    Ok(())
}
