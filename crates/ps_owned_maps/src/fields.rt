// The fields of expressions that have kinds.
ghost use Rattle.std.specs.Prelude.{◌≡◌, ◌++◌, Err, List, OnErr, OnOk, Some};
ghost use Rattle.std.specs.List.{AllByRecursion};
ghost use Rattle.ps_frame.specs.Trees.{IsComplete, tree_at};
ghost use Rattle.ps_meaning.specs.Schemas.{fields_of};
ghost use Rattle.ps_meaning.specs.Steps.{Named, key_trees, named_trees};

use ps_frame::expr::AExpr;
use ps_frame::refusal::{PolarsError, PolarsResult};
use ps_frame::schema::Schema;
use ps_meaning::options::ExprIR;
use ps_typing::kinds::expr_kind;
use pu_base::{Arena, Node};
use std::alloc::Global;
use valid_plans::fields::name_of;

// Adds the fields of named expressions over an input to a schema. Where each has a kind and their names differ, memory
// alone can be wanting; the schema is then filled in part.
pub(crate) fn push_fields(
    alloc: Global,
    at: Node,
    exprs: &[ExprIR],
    arena: &Arena<AExpr>,
    input: &Schema,
    schema: &mut Schema,
) -> PolarsResult<()>
    requires { AllByRecursion IsComplete (key_trees (tree_at arena.now.items) exprs.now) }
    ensures fields { OnOk result ((before : List Named) → fields_of before input.now ≡ Some schema.old → fields_of (before ++ named_trees (tree_at arena.now.items) exprs.now) input.now ≡ Some schema.new) }
    ensures memory { OnErr result (result ≡ Err PolarsError.OutOfMemory) }
{
    for expr in exprs {
        // No `?` in these three: a kind and a free name can't be refused here, so that want of memory is left.
        let Ok(dtype) = expr_kind(alloc, at, expr.node, arena, input) else {
            return Err(PolarsError::OutOfMemory);
        };
        let Ok(name) = name_of(expr).try_clone(alloc) else {
            return Err(PolarsError::OutOfMemory);
        };
        let Ok(()) = schema.push(alloc, name, dtype) else {
            return Err(PolarsError::OutOfMemory);
        };
    }
    Ok(())
}
