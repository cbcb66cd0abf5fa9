// Plans, lowered node by node.
ghost use Rattle.std.specs.Prelude.{OnOk};
ghost use Rattle.std.specs.List.{AllByRecursion};
ghost use Rattle.ps_frame.specs.Functions.{Functions};
ghost use Rattle.valid_plans.specs.Valid.{IsValidWith};
ghost use Rattle.lowering_trials.specs.Going.{IsReached, Stands};

use crate::beginnings::begun;
use crate::steps::step_stream;
use lowering_scripts::documents::{document, valid_plan};
use lowering_scripts::written::told;
use ps_document::document::Document;
use ps_frame::expr::AExpr;
use ps_fresh::lowering::Lowering;
use ps_phys::phys::PhysStream;
use pu_base::{Arena, Node};
use std::alloc::Global;
use std::test::Fail;
use valid_plans::valid::Valid;

// Far above the depth of each plan of a trial.
const DEPTH: usize = 16;

// The stream of a node with all that is below it: its inputs first, in order. Nothing is followed deeper than `depth`.
#[cycle(lowering)]
fn node_stream(
    alloc: Global,
    valid: &Valid,
    exprs: &mut Arena<AExpr>,
    low: &mut Lowering,
    node: Node,
    depth: usize,
) -> Result<PhysStream, Fail>
    requires stands { Stands valid.now exprs.old.items low.old }
    requires reached { IsReached valid.now node }
    ensures { OnOk result (Stands valid.now exprs.new.items low.new) }
{
    if depth == 0 {
        return Err(Fail::from("a plan that is too deep"));
    }
    let step = valid.ir().get(node);
    let inputs = step.inputs().to_vec(alloc)?;
    let streams = streams_of(alloc, valid, exprs, low, inputs.as_slice(), depth - 1)?;
    low.origin = node;
    step_stream(alloc, exprs, low, step, streams, valid.schema(node))
}

#[cycle(lowering)]
fn streams_of(
    alloc: Global,
    valid: &Valid,
    exprs: &mut Arena<AExpr>,
    low: &mut Lowering,
    nodes: &[Node],
    depth: usize,
) -> Result<Vec<PhysStream>, Fail>
    requires stands { Stands valid.now exprs.old.items low.old }
    requires reached { AllByRecursion (IsReached valid.now) nodes.now }
    ensures { OnOk result (Stands valid.now exprs.new.items low.new) }
{
    let mut streams = Vec::with_capacity(alloc, nodes.len())?;
    for node in nodes {
        let stream = node_stream(alloc, valid, exprs, low, *node, depth)?;
        streams.push(stream)?;
    }
    Ok(streams)
}

// What stands once all of a valid plan is lowered.
fn lowered(alloc: Global, valid: &Valid, exprs: &mut Arena<AExpr>) -> Result<String, Fail>
    requires { (F : Functions) × IsValidWith F valid.now exprs.old.items }
{
    let mut low = begun(alloc, valid, exprs)?;
    let stream = node_stream(alloc, valid, exprs, &mut low, valid.root(), DEPTH)?;
    told(alloc, exprs, &low.phys_sm, stream)
}

/// The nodes that a plan is lowered to, and what each computes: its nodes stand behind each other with spaces between
/// them, and the last one under a sink.
pub fn lowered_plan(alloc: Global, tables: &str, exprs: &str, nodes: &str) -> Result<String, Fail> {
    let Document {
        nodes,
        mut exprs,
        root,
    } = document(alloc, tables, exprs, nodes)?;
    let valid = valid_plan(alloc, root, nodes, &exprs)?;
    lowered(alloc, &valid, &mut exprs)
}
