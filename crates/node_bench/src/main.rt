// Computes nodes and expressions over tables of numbers, so that they can be timed.
//
// The argument is the number of rows: each work is then done once. Behind it a work and a number of times may stand: that
// work alone is then done so many times.
#![tactic(auto)]

mod exprs;
mod nodes;
mod table;

use anyhow::{Result, bail};
use exprs::ExprWork;
use nodes::NodeWork;
use std::alloc::Global;
use std::env;
use table::Summary;

const WORDS: [&str; 10] = [
    "group_by_7",
    "group_by_100000",
    "distinct",
    "join",
    "sort",
    "compare",
    "cast",
    "sort_by",
    "sum",
    "n_unique",
];

// What is told of a work over so many rows, done so many times, but at least once.
fn work(alloc: Global, word: &str, rows: u32, times: u32) -> Result<Summary> {
    if let Some(work) = NodeWork::of_word(word) {
        return nodes::repeat(alloc, work, rows, times);
    }
    let Some(work) = ExprWork::of_word(word) else {
        bail!("no work is called {word}");
    };
    exprs::repeat(alloc, work, rows, times)
}

fn show(rt: &impl Print, alloc: Global, word: &str, rows: u32, times: u32) -> Result<()> {
    let summary = work(alloc, word, rows, times)?;
    println!(rt;
        "{word}: {} rows, checksum {}",
        summary.rows, summary.checksum
    )?;
    Ok(())
}

fn show_each(rt: &impl Print, alloc: Global, rows: u32) -> Result<()> {
    for word in WORDS {
        show(rt, alloc, word, rows, 1)?;
    }
    Ok(())
}

fn main(rt: HostRuntime) -> Result<()> {
    let alloc = rt.alloc();
    let mut words = Vec::new(alloc);
    for word in env::args(&rt)?.skip(1) {
        words.push(word)?;
    }
    match words.as_slice() {
        [rows] => show_each(&rt, alloc, rows.parse()?),
        [rows, word, times] => show(&rt, alloc, word.as_str(), rows.parse()?, times.parse()?),
        _ => bail!("usage: node_bench ROWS [WORK TIMES]"),
    }
}
