// The columns of expressions as a table.
ghost use Rattle.std.specs.Prelude.{◌≡◌, ◌∷◌, [], IfErr, IfOk, Some};
ghost use Rattle.std.specs.List.{AllByRecursion};
ghost use Rattle.ps_frame.specs.Functions.{Functions};
ghost use Rattle.ps_frame.specs.Trees.{IsComplete, tree_at};
ghost use Rattle.ps_meaning.specs.Nodes.{GivesFrame, MayFault};
ghost use Rattle.ps_meaning.specs.Schemas.{fields_of};
ghost use Rattle.ps_meaning.specs.Steps.{key_trees, named_trees, select as select_step};

use ps_frame::expr::AExpr;
use ps_frame::frame::DataFrame;
use ps_frame::refusal::PolarsResult;
use ps_frame::schema::Schema;
use ps_meaning::options::ExprIR;
use ps_tables::framed::frame_of_height;
use ps_zip::zips::zip_exprs;
use pu_base::{Arena, Node};
use std::alloc::Global;

/// The table of a select at the node `at`: the columns of expressions over a table, under the schema that they have
/// there. A column of one cell is repeated where others have another height; columns of the table are shared.
///
/// Fails by a fault that breaks the select, by `Rows` where a column has too many cells, or for want of memory.
pub fn select(
    alloc: Global,
    at: Node,
    exprs: &[ExprIR],
    arena: &Arena<AExpr>,
    df: &DataFrame,
    schema: &Schema,
) -> PolarsResult<DataFrame>
    requires expressions { AllByRecursion IsComplete (key_trees (tree_at arena.now.items) exprs.now) }
    requires fields { fields_of (named_trees (tree_at arena.now.items) exprs.now) df.now.schema ≡ Some schema.now }
    ensures table { IfOk result (λ f. (F : Functions) → GivesFrame F at.0 (select_step (named_trees (tree_at arena.now.items) exprs.now)) (df.now ∷ []) f) }
    ensures fault { IfErr result (λ e. (F : Functions) → MayFault F at.0 (select_step (named_trees (tree_at arena.now.items) exprs.now)) (df.now ∷ []) e) }
{
    // By hand: behind the conversion of `?` the proof would lose that this is the very error of the zip.
    match zip_exprs(alloc, at, exprs, arena, df) {
        Ok(zip) => frame_of_height(alloc, schema, zip.columns, zip.height),
        Err(error) => Err(error),
    }
}
