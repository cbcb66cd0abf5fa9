// What a node is refused for by its entry and its place in the plan.
ghost use Rattle.std.specs.Prelude.{◌≡◌, ◌≢◌, ◌≤◌, [], IfErr, IsFalse, IsTrue, OnErr, OnOk, Err, ℕ};
ghost use Rattle.pu_base.specs.declared.arena.Node.{Node};
ghost use Rattle.ps_frame.specs.Trees.{Tree};
ghost use Rattle.ps_meaning.specs.StepRefusals.{IsSinkStep, NamesMissingFunction};
ghost use Rattle.ps_meaning.specs.Steps.{function_step};
ghost use Rattle.ps_plan.specs.Entries.{entry_inputs, entry_step};
ghost use Rattle.ps_validate.specs.Fit.{IsEntryError, IsWellFormed, IsPlaceError, IsPlaced};

use crate::entries::{check_distinct, check_group_by, check_join, check_sink, check_sort};
use ps_frame::expr::What;
use ps_frame::refusal::{PolarsError, PolarsResult, Why};
use ps_meaning::options::FunctionIR;
use ps_plan::ir::IR;
use pu_base::Node;

// The error of a node without a sound form.
fn misshapen(at: Node) -> PolarsError
    ensures { result ≡ PolarsError.InvalidPlan at Why.Shape }
{
    PolarsError::InvalidPlan {
        node: at,
        why: Why::Shape,
    }
}

// Refuses a function whose number isn't below the count.
fn check_function(at: Node, function: &FunctionIR, count: usize) -> PolarsResult<()>
    ensures known { OnOk result (¬ NamesMissingFunction count (function_step function.now)) }
    ensures missing { OnErr result (NamesMissingFunction count (function_step function.now)) }
    ensures error { OnErr result (result ≡ Err (PolarsError.InvalidPlan at Why.Shape)) }
{
    match function {
        FunctionIR::User(n) if *n >= count => Err(misshapen(at)),
        FunctionIR::User(_) | FunctionIR::RowIndex { .. } => Ok(()),
    }
}

// Refuses a node without inputs.
fn check_inputs(at: Node, inputs: &[Node]) -> PolarsResult<()>
    ensures some { OnOk result (inputs.now ≢ []) }
    ensures none { OnErr result (inputs.now ≡ []) }
    ensures error { OnErr result (result ≡ Err (PolarsError.InvalidPlan at Why.Shape)) }
{
    if inputs.is_empty() {
        return Err(misshapen(at));
    }
    Ok(())
}

/// Refuses a node whose entry doesn't fit by itself, where there are `count` functions.
pub fn check_entry(at: Node, entry: &IR, count: usize) -> PolarsResult<()>
    ensures fit { OnOk result ((f : Node → Tree) → IsWellFormed count (entry_step f entry.now) (entry_inputs entry.now)) }
    ensures refused { IfErr result (λ e. (f : Node → Tree) → IsEntryError count at (entry_step f entry.now) (entry_inputs entry.now) e) }
{
    match entry {
        IR::DataFrameScan { .. }
        | IR::SimpleProjection { .. }
        | IR::Select { .. }
        | IR::HStack { .. }
        | IR::Filter { .. }
        | IR::Slice { .. }
        | IR::Cache { .. } => Ok(()),
        IR::Sink { payload, .. } => check_sink(at, *payload),
        IR::MapFunction { function, .. } => check_function(at, function, count),
        IR::Sort {
            by_column,
            sort_options,
            ..
        } => check_sort(at, by_column.as_slice(), sort_options),
        IR::Union { inputs, .. } | IR::HConcat { inputs } => check_inputs(at, inputs.as_slice()),
        IR::GroupBy { keys, .. } => check_group_by(at, keys.as_slice()),
        IR::Join {
            left_on,
            right_on,
            options,
            ..
        } => check_join(at, left_on.as_slice(), right_on.as_slice(), options),
        IR::Distinct { options, .. } => check_distinct(at, options),
        IR::LeftOut(what) => Err(PolarsError::Unsupported {
            node: at,
            what: *what,
        }),
    }
}

// Whether the entry of a node is a sink.
fn is_sink(entry: &IR) -> bool
    ensures sink { IsTrue result → (f : Node → Tree) → IsSinkStep (entry_step f entry.now) }
    ensures other { IsFalse result → (f : Node → Tree) → ¬ IsSinkStep (entry_step f entry.now) }
{
    matches!(entry, IR::Sink { .. })
}

/// Refuses a root that is no sink, and a sink below the root.
pub fn check_place(root: Node, at: Node, entry: &IR) -> PolarsResult<()>
    ensures placed { OnOk result ((f : Node → Tree) → IsPlaced root at (entry_step f entry.now)) }
    ensures refused { IfErr result (λ e. (f : Node → Tree) → IsPlaceError root at (entry_step f entry.now) e) }
{
    let is_root = at.0 == root.0;
    let is_sink = is_sink(entry);
    if is_root && !is_sink {
        return Err(PolarsError::Unsupported {
            node: at,
            what: What::RootNotSink,
        });
    }
    if !is_root && is_sink {
        return Err(misshapen(at));
    }
    Ok(())
}
