//! The graph of the run of a plan.
ghost use Rattle.std.specs.Prelude.{◌≡◌, ◌-◌, ◌<◌, ◌^◌, Err, IfOk, IfSome, IsSome, OnErr, length};
ghost use Rattle.flow_run_trials.specs.Ready.{IsReady, IsRunOf};
ghost use Rattle.flow_runs.specs.Running.{IsNewNode};
ghost use Rattle.keyed_slots.specs.Slots.{value_at};
ghost use Rattle.ps_frame.specs.Functions.{Functions as FunctionsTold, IsLawful};
ghost use Rattle.ps_frame.specs.Trees.{tree_at};
ghost use Rattle.ps_frame.specs.declared.refusal.PolarsError.{PolarsError};
ghost use Rattle.ps_graph.specs.Shown.{IsLinked};
ghost use Rattle.ps_meaning.specs.Sound.{IsSound, all_inputs};
ghost use Rattle.ps_phys.specs.Shown.{ReadsWhatIsThere, shown};

use crate::looks::{all_stream, one_sink};
use crate::schemas::schemas_in;
use flow_runs::RunningNode;
use keyed_slots::SlotMap;
use plan_graphs::graphs::physical_plan_to_graph;
use plan_queries::query::plan_query;
use ps_document::document::Document;
use ps_frame::expr::AExpr;
use ps_frame::functions::Functions;
use ps_frame::refusal::PolarsResult;
use ps_frame::schema::Schema;
use ps_graph::graph::Graph;
use ps_nodes::flow::FlowNode;
use ps_phys::order::leaving_order;
use ps_phys::phys::{PhysNode, PhysNodeKey};
use pu_base::Arena;
use run_graphs::running_graph;
use sound_plans::plans::check_plan;
use std::alloc::Global;

/// The most nodes and inputs of a plan whose run is tried.
const MOST: usize = 1 << 20;

/// The graph of a run that a graph becomes whose nodes' tables have these schemas, if all its nodes stream and one is a sink.
fn run_of(
    alloc: Global,
    graph: Graph<FlowNode>,
    schemas: &[Schema],
) -> PolarsResult<Option<Graph<RunningNode>>>
    requires linked { IsLinked graph }
    requires schemas { length schemas.now ≡ length graph.nodes.slots }
    ensures run { IfOk result (λ o. IfSome o (IsRunOf graph schemas.now)) }
    ensures memory { OnErr result (result ≡ Err PolarsError.OutOfMemory) }
{
    if !all_stream(&graph) {
        return Ok(None);
    }
    let Some(_place) = one_sink(&graph) else {
        return Ok(None);
    };
    match running_graph(alloc, graph, schemas) {
        Ok(graph) => Ok(Some(graph)),
        Err(error) => Err(error),
    }
}

/// The graph of the run of a sound physical plan, if all its nodes stream and one is a sink.
///
/// Fails only for want of memory.
fn run_of_plan(
    alloc: Global,
    phys: &SlotMap<PhysNodeKey, PhysNode>,
    root: PhysNodeKey,
    exprs: &Arena<AExpr>,
) -> PolarsResult<Option<Graph<RunningNode>>>
    requires root { IsSome (value_at phys.now.slots root.0) }
    requires whole { ReadsWhatIsThere phys.now.slots }
    requires sound { (F : FunctionsTold) × IsSound F (shown (tree_at exprs.now.items) phys.now.slots root.0) }
    requires nodes { length (shown (tree_at exprs.now.items) phys.now.slots root.0) < 2 ^ 32 - 1 }
    requires inputs { length (all_inputs (shown (tree_at exprs.now.items) phys.now.slots root.0)) < 2 ^ 32 - 1 }
    ensures ready { IfOk result (λ o. IfSome o (λ g. (F : FunctionsTold) → IsLawful F → IsSound F (shown (tree_at exprs.now.items) phys.now.slots root.0) → IsReady IsNewNode F g)) }
    ensures memory { OnErr result (result ≡ Err PolarsError.OutOfMemory) }
{
    let order = leaving_order(alloc, phys, root)?;
    let schemas = schemas_in(alloc, phys, order.as_slice())?;
    let (graph, _keys) = physical_plan_to_graph(alloc, root, phys, exprs)?;
    run_of(alloc, graph, schemas.as_slice())
}

/// The same of any physical plan; none too where it isn't sound, or large.
fn run_if_sound<F: Functions>(
    alloc: Global,
    phys: &SlotMap<PhysNodeKey, PhysNode>,
    root: PhysNodeKey,
    functions: &F,
    exprs: &Arena<AExpr>,
) -> PolarsResult<Option<Graph<RunningNode>>>
    requires root { IsSome (value_at phys.now.slots root.0) }
    requires whole { ReadsWhatIsThere phys.now.slots }
    ensures ready { IfOk result (λ o. IfSome o (IsReady IsNewNode (F.told functions.now))) }
{
    let check = check_plan(alloc, phys, root, functions, exprs)?;
    let sound = check.is_sound;
    if !sound {
        return Ok(None);
    }
    if check.nodes > MOST || check.inputs > MOST {
        return Ok(None);
    }
    run_of_plan(alloc, phys, root, exprs)
}

/// The graph of the run of a document's plan, if it is small, all its physical nodes stream, and one is a sink.
///
/// Fails by a refusal of the plan if it isn't valid, else only for want of memory.
pub fn run_of_document<F: Functions>(
    alloc: Global,
    document: Document,
    functions: &F,
) -> PolarsResult<Option<Graph<RunningNode>>>
    ensures ready { IfOk result (λ o. IfSome o (IsReady IsNewNode (F.told functions.now))) }
{
    let Document {
        nodes,
        mut exprs,
        root,
    } = document;
    let (phys, root) = plan_query(alloc, root, nodes, &mut exprs, functions)?;
    run_if_sound(alloc, &phys, root, functions, &exprs)
}
