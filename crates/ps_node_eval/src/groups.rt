// The nodes that stand on keys of one table's rows.
ghost use Rattle.std.specs.Prelude.{◌≡◌, Bool, IfErr, IfOk, length};
ghost use Rattle.ps_frame.specs.Functions.{Functions};
ghost use Rattle.ps_frame.specs.Tables.{Fields};
ghost use Rattle.ps_frame.specs.Trees.{tree_at};
ghost use Rattle.ps_meaning.specs.Nodes.{GivesFrame, MayFault};
ghost use Rattle.ps_meaning.specs.Steps.{distinct_step, group_step};
ghost use Rattle.ready_steps.specs.Ready.{IsReady};

use crate::inputs::only;
use ps_frame::expr::AExpr;
use ps_frame::frame::DataFrame;
use ps_frame::refusal::PolarsResult;
use ps_frame::schema::Schema;
use ps_groups::distinct::distinct;
use ps_groups::group_by::group_by;
use ps_meaning::options::{DistinctOptions, ExprIR};
use pu_base::{Arena, Node};
use std::alloc::Global;

pub(crate) fn grouped(
    alloc: Global,
    at: Node,
    keys: &[ExprIR],
    aggs: &[ExprIR],
    slice: Option<(i64, usize)>,
    arena: &Arena<AExpr>,
    inputs: &[DataFrame],
    schema: &Schema,
) -> PolarsResult<DataFrame>
    requires ready { (maintained : Bool) × IsReady (group_step (tree_at arena.now.items) keys.now aggs.now maintained slice) inputs.now schema.now }
    requires inputs { length inputs.now ≡ 1 }
    ensures table { IfOk result (λ f. (F : Functions) (maintained : Bool) → GivesFrame F at.0 (group_step (tree_at arena.now.items) keys.now aggs.now maintained slice) inputs.now f) }
    ensures fault { IfErr result (λ e. (F : Functions) (maintained : Bool) → MayFault F at.0 (group_step (tree_at arena.now.items) keys.now aggs.now maintained slice) inputs.now e) }
{
    group_by(alloc, at, keys, aggs, slice, arena, only(inputs), schema)
}

pub(crate) fn deduplicated(
    alloc: Global,
    at: Node,
    options: &DistinctOptions,
    inputs: &[DataFrame],
) -> PolarsResult<DataFrame>
    requires ready { (s : Fields) × IsReady (distinct_step options.now) inputs.now s }
    requires inputs { length inputs.now ≡ 1 }
    ensures table { IfOk result (λ f. (F : Functions) → GivesFrame F at.0 (distinct_step options.now) inputs.now f) }
    ensures fault { IfErr result (λ e. (F : Functions) → MayFault F at.0 (distinct_step options.now) inputs.now e) }
{
    distinct(alloc, options, only(inputs))
}
