// The join of two inputs.
ghost use Rattle.std.specs.Prelude.{◌≡◌, IfErr, IfOk, length};
ghost use Rattle.ps_frame.specs.Functions.{Functions};
ghost use Rattle.ps_frame.specs.Trees.{tree_at};
ghost use Rattle.ps_meaning.specs.Nodes.{GivesFrame, MayFault};
ghost use Rattle.ps_joins.specs.JoinOf.{join_of};
ghost use Rattle.ps_meaning.specs.Steps.{join as join_step};
ghost use Rattle.ready_steps.specs.Ready.{IsReady};

use crate::inputs::both;
use ps_frame::expr::AExpr;
use ps_frame::frame::DataFrame;
use ps_frame::refusal::PolarsResult;
use ps_frame::schema::Schema;
use ps_joins::join::join;
use ps_meaning::options::{ExprIR, JoinArgs};
use pu_base::{Arena, Node};
use std::alloc::Global;

pub(crate) fn joined(
    alloc: Global,
    at: Node,
    left_on: &[ExprIR],
    right_on: &[ExprIR],
    args: &JoinArgs,
    arena: &Arena<AExpr>,
    inputs: &[DataFrame],
    schema: &Schema,
) -> PolarsResult<DataFrame>
    requires ready { IsReady (join_step (join_of (tree_at arena.now.items) left_on.now right_on.now args.now)) inputs.now schema.now }
    requires inputs { length inputs.now ≡ 2 }
    ensures table { IfOk result (λ f. (F : Functions) → GivesFrame F at.0 (join_step (join_of (tree_at arena.now.items) left_on.now right_on.now args.now)) inputs.now f) }
    ensures fault { IfErr result (λ e. (F : Functions) → MayFault F at.0 (join_step (join_of (tree_at arena.now.items) left_on.now right_on.now args.now)) inputs.now e) }
{
    let (left, right) = both(inputs);
    join(
        alloc, at, left, right, left_on, right_on, args, arena, schema,
    )
}
