// The nodes with expressions over the rows of one table.
ghost use Rattle.std.specs.Prelude.{◌≡◌, IfErr, IfOk, length};
ghost use Rattle.ps_frame.specs.Functions.{Functions};
ghost use Rattle.ps_frame.specs.Tables.{Fields};
ghost use Rattle.ps_frame.specs.Trees.{tree_at};
ghost use Rattle.ps_meaning.specs.Nodes.{GivesFrame, MayFault};
ghost use Rattle.ps_meaning.specs.Steps.{filter as filter_step, hstack as hstack_step, named_trees, select as select_step, sort_step};
ghost use Rattle.ready_steps.specs.Ready.{IsReady};

use crate::inputs::only;
use ps_frame::expr::AExpr;
use ps_frame::frame::DataFrame;
use ps_frame::refusal::PolarsResult;
use ps_frame::schema::Schema;
use ps_meaning::options::{ExprIR, SortMultipleOptions};
use ps_rows::filter::filter;
use ps_rows::hstack::hstack;
use ps_rows::select::select;
use ps_rows::sort::sort;
use pu_base::{Arena, Node};
use std::alloc::Global;

pub(crate) fn selected(
    alloc: Global,
    at: Node,
    exprs: &[ExprIR],
    arena: &Arena<AExpr>,
    inputs: &[DataFrame],
    schema: &Schema,
) -> PolarsResult<DataFrame>
    requires ready { IsReady (select_step (named_trees (tree_at arena.now.items) exprs.now)) inputs.now schema.now }
    requires inputs { length inputs.now ≡ 1 }
    ensures table { IfOk result (λ f. (F : Functions) → GivesFrame F at.0 (select_step (named_trees (tree_at arena.now.items) exprs.now)) inputs.now f) }
    ensures fault { IfErr result (λ e. (F : Functions) → MayFault F at.0 (select_step (named_trees (tree_at arena.now.items) exprs.now)) inputs.now e) }
{
    select(alloc, at, exprs, arena, only(inputs), schema)
}

pub(crate) fn stacked(
    alloc: Global,
    at: Node,
    exprs: &[ExprIR],
    arena: &Arena<AExpr>,
    inputs: &[DataFrame],
    schema: &Schema,
) -> PolarsResult<DataFrame>
    requires ready { IsReady (hstack_step (named_trees (tree_at arena.now.items) exprs.now)) inputs.now schema.now }
    requires inputs { length inputs.now ≡ 1 }
    ensures table { IfOk result (λ f. (F : Functions) → GivesFrame F at.0 (hstack_step (named_trees (tree_at arena.now.items) exprs.now)) inputs.now f) }
    ensures fault { IfErr result (λ e. (F : Functions) → MayFault F at.0 (hstack_step (named_trees (tree_at arena.now.items) exprs.now)) inputs.now e) }
{
    hstack(alloc, at, exprs, arena, only(inputs), schema)
}

pub(crate) fn filtered(
    alloc: Global,
    at: Node,
    predicate: &ExprIR,
    arena: &Arena<AExpr>,
    inputs: &[DataFrame],
) -> PolarsResult<DataFrame>
    requires ready { (s : Fields) × IsReady (filter_step (tree_at arena.now.items predicate.now.node)) inputs.now s }
    requires inputs { length inputs.now ≡ 1 }
    ensures table { IfOk result (λ f. (F : Functions) → GivesFrame F at.0 (filter_step (tree_at arena.now.items predicate.now.node)) inputs.now f) }
    ensures fault { IfErr result (λ e. (F : Functions) → MayFault F at.0 (filter_step (tree_at arena.now.items predicate.now.node)) inputs.now e) }
{
    filter(alloc, at, predicate, arena, only(inputs))
}

pub(crate) fn sorted(
    alloc: Global,
    at: Node,
    by: &[ExprIR],
    slice: Option<(i64, usize)>,
    options: &SortMultipleOptions,
    arena: &Arena<AExpr>,
    inputs: &[DataFrame],
) -> PolarsResult<DataFrame>
    requires ready { (s : Fields) × IsReady (sort_step (tree_at arena.now.items) by.now slice options.now) inputs.now s }
    requires inputs { length inputs.now ≡ 1 }
    ensures table { IfOk result (λ f. (F : Functions) → GivesFrame F at.0 (sort_step (tree_at arena.now.items) by.now slice options.now) inputs.now f) }
    ensures fault { IfErr result (λ e. (F : Functions) → MayFault F at.0 (sort_step (tree_at arena.now.items) by.now slice options.now) inputs.now e) }
{
    sort(alloc, at, by, slice, options, arena, only(inputs))
}
