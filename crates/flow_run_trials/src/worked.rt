// Worked queries, driven through a world.
ghost use Rattle.flow_run_trials.specs.Ready.{IsReady};

use crate::driving::{begun, hands_in, moves, outcome};
use crate::journals::journal_text;
use crate::random::Random;
use crate::runs::{answer_at_random, graph_of, tool_pieces};
use flow_driver::{ComputePiece, Run};
use flow_moves::MoveNode;
use ps_flow::{ClaimNode, PieceNode, Record, RunNode, StoreNode};
use ps_graph::graph::Graph;
use ps_options::options::Options;
use std::alloc::Global;
use std::test::Fail;

// The rows of a column of 1, 2 and 3 that are greater than 1.
const FILTER: &str =
    r#"{"tables":[[["a","int",[1,2,3]]]],"exprs":[["col","a"],["int",1],["gt",0,1]],"nodes":[["scan",0,null],["filter",0,2],["sink",1]],"root":2}"#;

// Three rows from the third on, of six.
const SLICE: &str =
    r#"{"tables":[[["a","int",[0,1,2,3,4,5]]]],"exprs":[],"nodes":[["scan",0,null],["slice",0,2,3],["sink",1]],"root":2}"#;

// The same of sixteen.
const LONG_SLICE: &str =
    r#"{"tables":[[["a","int",[0,1,2,3,4,5,6,7,8,9,10,11,12,13,14,15]]]],"exprs":[],"nodes":[["scan",0,null],["slice",0,2,3],["sink",1]],"root":2}"#;

const JOURNAL: &str = "open 1
claim 0 0 0 0
handin 0 0 0 0 3
close 0
claim 1 0 0 0
handin 1 0 0 0 2
close 1
pull 2 0 0
close 2
end 1
open 2
";

/// Options of so many workers and rows a morsel.
pub fn options(workers: usize, rows: usize) -> Result<Options, Fail> {
    match Options::new(workers, rows, 4, 0) {
        Some(options) => Ok(options),
        None => Err(Fail::from("no options")),
    }
}

// The journal of a run by one worker, who makes the first move that there is, and hands a piece in before the next one.
fn journal_by_first<N: MoveNode + StoreNode, C: ComputePiece<N>>(
    alloc: Global,
    graph: Graph<N>,
    options: &Options,
    functions: &C,
) -> Result<String, Fail>
    requires { IsReady N.IsNew (C.told functions.now) graph }
{
    let mut run = begun(alloc, graph, options)?;
    for _step in 0..1000 {
        if hands_in(alloc, &mut run, 0, functions)? {
            continue;
        }
        if !moves(alloc, &mut run, 0, 0)? {
            return Ok(journal_text(alloc, run.journal())?);
        }
    }
    Err(Fail::from("no end"))
}

fn journal_of(alloc: Global, text: &str) -> Result<String, Fail> {
    let options = options(1, 1024)?;
    let graph = graph_of(alloc, text)?;
    journal_by_first(alloc, graph, &options, &tool_pieces())
}

#[test]
fn a_filter_has_this_journal(rt: HostRuntime) -> Result<(), Fail> {
    let journal = journal_of(rt.alloc(), FILTER)?;
    assert_eq!(rt; journal.as_str(), JOURNAL);
    Ok(())
}

// How many parts of its own the first node of a graph claims in a run to its end, and the answer behind it.
fn claims_to_end<N: MoveNode + StoreNode, C: ComputePiece<N>>(
    alloc: Global,
    graph: Graph<N>,
    options: &Options,
    functions: &C,
) -> Result<String, Fail>
    requires { IsReady N.IsNew (C.told functions.now) graph }
{
    let mut run = begun(alloc, graph, options)?;
    let Ok(()) = run.run_to_end(alloc, functions) else {
        return Err(Fail::from("no end"));
    };
    let claims = run
        .journal()
        .iter()
        .filter(|record| matches!(record, Record::Claim { node: 0, .. }))
        .count();
    let answer = outcome(alloc, &mut run)?;
    Ok(format!(in alloc; "{claims} {answer}")?)
}

fn claims_of(alloc: Global, text: &str) -> Result<String, Fail> {
    let options = options(1, 2)?;
    let graph = graph_of(alloc, text)?;
    claims_to_end(alloc, graph, &options, &tool_pieces())
}

#[test]
fn a_slice_takes_three_morsels(rt: HostRuntime) -> Result<(), Fail> {
    let alloc = rt.alloc();
    for text in [SLICE, LONG_SLICE] {
        let told = claims_of(alloc, text)?;
        assert_eq!(rt; told.as_str(), "3 a\n2\n3\n4\n");
    }
    Ok(())
}

#[test]
fn a_slice_has_its_rows(rt: HostRuntime) -> Result<(), Fail> {
    let alloc = rt.alloc();
    for seed in 0..50u64 {
        let options = options((seed % 8) as usize + 1, 2)?;
        let mut random = Random::new(seed);
        let answer = answer_at_random(alloc, LONG_SLICE, &options, &mut random)?;
        assert_eq!(rt; answer.as_str(), "a\n2\n3\n4\n", "at {seed}");
    }
    Ok(())
}
