// Computes a filter over a table of numbers, over whole tables and in pieces by one worker, so that both can be timed.
//
// The arguments are the number of rows and the most rows of a piece: each way is then gone once. Behind them a way, `plain` or
// `pieces`, and a number of times may stand: that way alone is then gone so many times.
#![tactic(auto)]

mod query;
mod table;
mod ways;

use anyhow::{Result, bail};
use ps_options::options::Options;
use std::alloc::Global;
use std::env;
use ways::{Way, repeat};

fn options(rows: usize) -> Result<Options> {
    match Options::new(1, rows, 1, 0) {
        Some(options) => Ok(options),
        None => bail!("a morsel has 1 to 1048576 rows"),
    }
}

fn show(
    rt: &impl Print,
    alloc: Global,
    word: &str,
    rows: u32,
    options: &Options,
    times: u32,
) -> Result<()> {
    let Some(way) = Way::of_word(word) else {
        bail!("no way is called {word}");
    };
    let summary = repeat(alloc, way, rows, options, times)?;
    println!(rt;
        "{word}: {} rows, checksum {}",
        summary.rows, summary.checksum
    )?;
    Ok(())
}

fn main(rt: HostRuntime) -> Result<()> {
    let alloc = rt.alloc();
    let mut words = Vec::new(alloc);
    for word in env::args(&rt)?.skip(1) {
        words.push(word)?;
    }
    match words.as_slice() {
        [rows, morsel] => {
            let (rows, options) = (rows.parse()?, options(morsel.parse()?)?);
            show(&rt, alloc, "plain", rows, &options, 1)?;
            show(&rt, alloc, "pieces", rows, &options, 1)
        }
        [rows, morsel, word, times] => {
            let options = options(morsel.parse()?)?;
            show(
                &rt,
                alloc,
                word.as_str(),
                rows.parse()?,
                &options,
                times.parse()?,
            )
        }
        _ => bail!("usage: flow_bench ROWS MORSEL_ROWS [WAY TIMES]"),
    }
}
