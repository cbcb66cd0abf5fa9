//! Filters.
ghost use Rattle.std.specs.Prelude.{◌≡◌, Err, IfOk, OnErr};
ghost use Rattle.ps_frame.specs.Trees.{IsExpression, Tree, tree_at};
ghost use Rattle.ps_frame.specs.declared.refusal.PolarsError.{PolarsError};
ghost use Rattle.ps_fresh.specs.Known.{Remembers};
ghost use Rattle.ps_phys.specs.Shown.{stream_of};
ghost use Rattle.ps_rules.specs.Rules.{first_tree};
ghost use Rattle.plan_rules.specs.Nodes.{filter_stream as filtered};
ghost use Rattle.lowering_parts.specs.Gathered.{GoesOn, Makes, trees_at};
ghost use Rattle.pu_base.specs.declared.arena.Node.{Node as ANode};

use crate::copies::names_in;
use crate::together::{behind_columns, expr_at, under_name_of};
use lowering_parts::nodes::{columns_of, over_same_columns, schema_of};
use ps_frame::expr::AExpr;
use ps_frame::refusal::{PolarsError, PolarsResult};
use ps_fresh::lowering::Lowering;
use ps_meaning::options::ExprIR;
use ps_phys::phys::{PhysNodeKind, PhysStream};
use pu_base::{Arena, Node};
use std::alloc::Global;

/// The rows for which a predicate is true, with the columns of the input alone.
///
/// What stood in the arena and in the lowering stands after every answer. Fails only for want of memory; nodes, names
/// and expressions may then have been added.
pub fn filter_stream(
    alloc: Global,
    arena: &mut Arena<AExpr>,
    low: &mut Lowering,
    input: PhysStream,
    predicate: &ExprIR,
) -> PolarsResult<PhysStream>
    requires whole { IsExpression arena.old.items predicate.now.node }
    requires cache { Remembers arena.old.items low.old.cache }
    ensures makes { IfOk result (Makes (filtered low.old.origin.0 (tree_at arena.old.items predicate.now.node) (stream_of input)) arena.old.items arena.new.items low.old low.new) }
    ensures goes_on { GoesOn arena.old.items arena.new.items low.old low.new }
    ensures memory { OnErr result (result ≡ Err PolarsError.OutOfMemory) }
{
    let schema = schema_of(alloc, low, input)?;
    let names = names_in(alloc, &schema)?;
    // Here, so that no exit below has to take it apart.
    drop(schema);
    let (stream, answers) = behind_columns(alloc, arena, low, input, &[predicate.node])?;
    let kept = first_under(alloc, predicate, answers.as_slice())?;
    let kind = PhysNodeKind::Filter {
        input: stream,
        predicate: kept,
    };
    let rows = over_same_columns(alloc, low, stream, kind)?;
    let columns = columns_of(alloc, low, rows, names)?;
    Ok(columns)
}

// The one expression that another was lowered to, under the name of that.
fn first_under(alloc: Global, asked: &ExprIR, answers: &[Node]) -> PolarsResult<ExprIR>
    ensures tree { (f : ANode → Tree) → IfOk result (λ e. f e.node ≡ first_tree (trees_at f answers.now)) }
    ensures memory { OnErr result (result ≡ Err PolarsError.OutOfMemory) }
{
    // As many expressions come back as were handed in.
    let Some(node) = expr_at(answers, 0) else {
        return Err(PolarsError::OutOfMemory);
    };
    let kept = under_name_of(alloc, asked, node)?;
    Ok(kept)
}
