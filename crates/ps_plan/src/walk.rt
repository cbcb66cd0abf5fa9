// Walks over a plan's arenas.
ghost use Rattle.std.specs.Prelude.{◌≡◌, Some, slice_get};
ghost use Rattle.ps_frame.specs.Trees.{tree_at};
ghost use Rattle.ps_meaning.specs.PlanTrees.{IsCompletePlan, plan_size};
ghost use Rattle.ps_plan.specs.Plans.{IsPlan, node_tree, plan_at};

use crate::ir::IR;
use ps_frame::expr::AExpr;
use pu_base::{Arena, Node};

/// The entry of a node, over the trees of whose inputs its tree stands.
pub fn entry<'a>(node: Node, ir: &'a Arena<IR>, exprs: &Arena<AExpr>) -> &'a IR
    requires { IsPlan ir.now.items exprs.now.items node }
    ensures entry { slice_get ir.now.items node.0 ≡ Some result.now }
    ensures tree { plan_at ir.now.items exprs.now.items node ≡ node_tree (tree_at exprs.now.items) (plan_at ir.now.items exprs.now.items) node (Some result.now) }
    ensures complete { IsCompletePlan (node_tree (tree_at exprs.now.items) (plan_at ir.now.items exprs.now.items) node (Some result.now)) }
    ensures size { plan_size (plan_at ir.now.items exprs.now.items node) ≡ plan_size (node_tree (tree_at exprs.now.items) (plan_at ir.now.items exprs.now.items) node (Some result.now)) }
{
    // Its numbers stand for the trees of which the clauses speak; no code looks at them.
    let _exprs = exprs;
    ir.get(node)
}
