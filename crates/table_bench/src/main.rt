// Does one kind of work on a table of three columns, so that it can be timed.
//
// The arguments are the work, the number of rows, and how often it is done (once, if not given).
#![tactic(auto)]

mod table;
mod work;

use anyhow::bail;
use std::alloc::Global;
use std::env;
use work::Work;

// The work of a word, on so many rows, done so many times.
fn run(rt: &impl Print, alloc: Global, word: &str, rows: &str, times: &str) -> anyhow::Result<()> {
    let Some(work) = Work::of_word(word) else {
        bail!("the work is build, share, slice, filter, filter_all, vstack or vstack_empty");
    };
    let made = table::make(alloc, rows.parse()?)?;
    let done = work::repeat(alloc, work, &made, times.parse()?)?;
    println!(rt;
        "{} rows, checksum {}",
        done.height(),
        table::checksum(&done)
    )?;
    Ok(())
}

fn main(rt: HostRuntime) -> anyhow::Result<()> {
    let alloc = rt.alloc();
    let mut words = Vec::new(alloc);
    for word in env::args(&rt)?.skip(1) {
        words.push(word)?;
    }
    match words.as_slice() {
        [word, rows] => run(&rt, alloc, word.as_str(), rows.as_str(), "1"),
        [word, rows, times] => run(&rt, alloc, word.as_str(), rows.as_str(), times.as_str()),
        _ => bail!("give the work and the number of rows"),
    }
}
