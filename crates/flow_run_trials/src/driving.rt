// Runs under random orders of steps: moves that may be made, and pieces that are handed in, by any worker.
ghost use Rattle.std.specs.Prelude.{◌≡◌, IfOk, IfSome, None, OnOk, Some, slice_get};
ghost use Rattle.flow_run_trials.specs.Driven.{IsUnderWay};
ghost use Rattle.flow_run_trials.specs.Ready.{IsReady};
ghost use Rattle.ps_frame.specs.Functions.{Functions as FunctionsTold};

use crate::answers::{csv, error_text};
use crate::flight::Flight;
use crate::random::Random;
use flow_driver::{ComputePiece, Run};
use flow_moves::MoveNode;
use ps_flow::{ClaimNode, PieceNode, RunNode, StoreNode};
use ps_graph::graph::Graph;
use ps_options::options::Options;
use std::alloc::Global;
use std::test::Fail;
use tool_ends::csv_text::csv_text;

/// The run of a graph by these options.
pub fn begun<N: MoveNode + StoreNode>(
    alloc: Global,
    graph: Graph<N>,
    options: &Options,
) -> Result<Run<N, N::Piece>, Fail>
    requires { (F : FunctionsTold) × IsReady N.IsNew F graph }
    ensures { IfOk result (λ run. (F : FunctionsTold) → IsReady N.IsNew F graph → IsUnderWay N.Has N.Shows N.IsFor F run) }
{
    match Run::new(alloc, graph, options) {
        Ok(run) => Ok(run),
        Err(_error) => Err(Fail::from("no run")),
    }
}

/// A worker who has no piece makes a move, looked for from a node on, if there is one. Answers whether it did.
pub fn moves<N: MoveNode + StoreNode>(
    alloc: Global,
    run: &mut Run<N, N::Piece>,
    from: u32,
    worker: u32,
) -> Result<bool, Fail>
    requires { (F : FunctionsTold) × IsUnderWay N.Has N.Shows N.IsFor F run.old }
    ensures { OnOk result ((F : FunctionsTold) → IsUnderWay N.Has N.Shows N.IsFor F run.old → IsUnderWay N.Has N.Shows N.IsFor F run.new) }
{
    if !run.is_idle(worker) {
        return Ok(false);
    }
    let Some(found) = run.enabled(from) else {
        return Ok(false);
    };
    match run.make(alloc, found, worker) {
        Ok(()) => Ok(true),
        Err(_error) => Err(Fail::from("a move without memory")),
    }
}

// This worker, if it has a piece, and else some other who has one.
fn busy<N: MoveNode + StoreNode>(run: &Run<N, N::Piece>, first: u32) -> Option<u32>
    requires { (F : FunctionsTold) × IsUnderWay N.Has N.Shows N.IsFor F run.now }
    ensures { IfSome result (λ worker. (piece : N.Piece) × (slice_get run.now.pieces.items worker ≡ Some (Some piece))) }
{
    match run.piece(first) {
        Some(_piece) => Some(first),
        None => run.busy_worker(),
    }
}

/// A piece is computed and handed in, that of this worker if it has one, if any is out. Answers whether one was.
pub fn hands_in<N: MoveNode + StoreNode, C: ComputePiece<N>>(
    alloc: Global,
    run: &mut Run<N, N::Piece>,
    worker: u32,
    functions: &C,
) -> Result<bool, Fail>
    requires { IsUnderWay N.Has N.Shows N.IsFor (C.told functions.now) run.old }
    ensures { OnOk result (IsUnderWay N.Has N.Shows N.IsFor (C.told functions.now) run.new) }
{
    let Some(worker) = busy(run, worker) else {
        return Ok(false);
    };
    match run.hand_in(alloc, worker, functions) {
        Ok(()) => Ok(true),
        Err(_error) => Err(Fail::from("no memory for a piece")),
    }
}

// A step of a random worker: a move, or else a piece is handed in. Answers whether there was one.
fn step<N: MoveNode + StoreNode, C: ComputePiece<N>>(
    alloc: Global,
    run: &mut Run<N, N::Piece>,
    workers: usize,
    functions: &C,
    random: &mut Random,
) -> Result<bool, Fail>
    requires { IsUnderWay N.Has N.Shows N.IsFor (C.told functions.now) run.old }
    ensures { OnOk result (IsUnderWay N.Has N.Shows N.IsFor (C.told functions.now) run.new) }
{
    if run.has_fault() {
        return Ok(false);
    }
    let worker = u32::try_from(random.below(workers)).unwrap_or(0);
    let from = u32::try_from(random.below(64)).unwrap_or(0);
    if moves(alloc, run, from, worker)? {
        return Ok(true);
    }
    hands_in(alloc, run, worker, functions)
}

/// The table of a run that is at its end, as CSV, or the text of its fault.
pub fn outcome<N: MoveNode + StoreNode>(
    alloc: Global,
    run: &mut Run<N, N::Piece>,
) -> Result<String, Fail>
    requires { (F : FunctionsTold) × IsUnderWay N.Has N.Shows N.IsFor F run.old }
{
    if run.has_fault() {
        return match run.fault() {
            Some(error) => Ok(error_text(alloc, error)?),
            None => Err(Fail::from("a fault without an error")),
        };
    }
    if !run.finished() {
        return Ok(String::from_str(alloc, "nothing to do")?);
    }
    match run.output(alloc) {
        Ok(table) => csv(alloc, csv_text(alloc, &table)),
        Err(_error) => Err(Fail::from("no memory for the answer")),
    }
}

/// What the run of a graph comes to, under a random order of its steps. After each of them little is in flight.
pub fn random_answer<N: MoveNode + StoreNode, C: ComputePiece<N>>(
    alloc: Global,
    graph: Graph<N>,
    options: &Options,
    functions: &C,
    random: &mut Random,
) -> Result<String, Fail>
    requires { IsReady N.IsNew (C.told functions.now) graph }
{
    let workers = options.workers();
    let mut flight = Flight::new(alloc, &graph, workers.saturating_add(4))?;
    let mut run = begun(alloc, graph, options)?;
    for _step in 0..100_000 {
        if !step(alloc, &mut run, workers, functions, random)? {
            return outcome(alloc, &mut run);
        }
        if !flight.follow(run.journal()) {
            return Ok(String::from_str(alloc, "too much in flight, or a number twice")?);
        }
    }
    Ok(String::from_str(alloc, "no end")?)
}
