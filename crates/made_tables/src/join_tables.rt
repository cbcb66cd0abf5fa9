//! The table that a join makes of all rows of its inputs.
ghost use Rattle.std.specs.Prelude.{◌≡◌, ◌∷◌, ◌<◌, [], Err, IfErr, IfOk, OnErr, length};
ghost use Rattle.std.specs.List.{AllByRecursion};
ghost use Rattle.made_tables.specs.Joinable.{CanJoin};
ghost use Rattle.bare_nodes.specs.Bare.{bare_node};
ghost use Rattle.made_tables.specs.Made.{MayBreak};
ghost use Rattle.bare_nodes.specs.Uncalled.{no_functions};
ghost use Rattle.ps_frame.specs.Tables.{whole};
ghost use Rattle.ps_frame.specs.Trees.{IsComplete, tree_at};
ghost use Rattle.ps_frame.specs.declared.refusal.PolarsError.{PolarsError};
ghost use Rattle.ps_joins.specs.JoinOf.{join_of};
ghost use Rattle.ps_meaning.specs.Schemas.{join_schema as schema_joined};
ghost use Rattle.ps_meaning.specs.Shape.{in_memory_join};
ghost use Rattle.ps_meaning.specs.Steps.{key_trees};
ghost use Rattle.ps_turns.specs.Results.{IsMade};

use crate::narrowed::narrowed;
use ps_frame::expr::AExpr;
use ps_frame::frame::DataFrame;
use ps_frame::refusal::{PolarsError, PolarsResult};
use ps_frame::schema::Schema;
use ps_joins::join::join;
use ps_meaning::options::{ExprIR, JoinArgs};
use ps_validate::joins::join_schema;
use pu_base::{Arena, Node, Steps};
use std::alloc::Global;
use std::marker::Brand;
use std::sync::ledger::{Blank, Ledger};

/// The schema of a join that is fit for tables of these schemas.
///
/// Fails only for want of memory.
fn schema_of_join(
    alloc: Global,
    left_on: &[ExprIR],
    right_on: &[ExprIR],
    args: &JoinArgs,
    arena: &Arena<AExpr>,
    left: &Schema,
    right: &Schema,
) -> PolarsResult<Schema>
    requires left_keys { AllByRecursion IsComplete (key_trees (tree_at arena.now.items) left_on.now) }
    requires right_keys { AllByRecursion IsComplete (key_trees (tree_at arena.now.items) right_on.now) }
    requires paired { length left_on.now ≡ length right_on.now }
    ensures schema { IfOk result (λ s. s ≡ schema_joined (join_of (tree_at arena.now.items) left_on.now right_on.now args.now) left.now right.now) }
    ensures memory { OnErr result (result ≡ Err PolarsError.OutOfMemory) }
{
    counted_schema::<Brand>(
        alloc,
        Blank::new(1),
        left_on,
        right_on,
        args,
        arena,
        left,
        right,
    )
}

fn counted_schema<L: Ledger>(
    alloc: Global,
    blank: Blank,
    left_on: &[ExprIR],
    right_on: &[ExprIR],
    args: &JoinArgs,
    arena: &Arena<AExpr>,
    left: &Schema,
    right: &Schema,
) -> PolarsResult<Schema>
    requires name { blank.name ≡ L.name }
    requires parts { blank.parts ≡ L.parts }
    requires some { 0 < L.parts }
    requires left_keys { AllByRecursion IsComplete (key_trees (tree_at arena.now.items) left_on.now) }
    requires right_keys { AllByRecursion IsComplete (key_trees (tree_at arena.now.items) right_on.now) }
    requires paired { length left_on.now ≡ length right_on.now }
    ensures schema { IfOk result (λ s. s ≡ schema_joined (join_of (tree_at arena.now.items) left_on.now right_on.now args.now) left.now right.now) }
    ensures memory { OnErr result (result ≡ Err PolarsError.OutOfMemory) }
{
    let mut steps = Steps::<L>::new(blank);
    // The join is fit, so no rule refuses it: what fails is want of memory.
    match join_schema(
        alloc,
        Node::default(),
        left_on,
        right_on,
        args,
        arena,
        left,
        right,
        &mut steps,
    ) {
        Ok(schema) => Ok(schema),
        Err(_error) => Err(PolarsError::OutOfMemory),
    }
}

/// What a join gives over two tables for which it is fit, with the columns of one schema alone.
///
/// Fails, at no node in particular, by a fault that breaks it there, by `Rows` where a column of its keys or what it gives
/// has too many rows, or for want of memory.
pub fn joined(
    alloc: Global,
    left: &DataFrame,
    right: &DataFrame,
    left_on: &[ExprIR],
    right_on: &[ExprIR],
    args: &JoinArgs,
    arena: &Arena<AExpr>,
    schema: &Schema,
) -> PolarsResult<DataFrame>
    requires fit { CanJoin (join_of (tree_at arena.now.items) left_on.now right_on.now args.now) left.now.schema right.now.schema schema.now }
    ensures table { IfOk result (λ f. IsMade no_functions (bare_node (in_memory_join (join_of (tree_at arena.now.items) left_on.now right_on.now args.now)) schema.now) (whole left.now ∷ whole right.now ∷ []) f.rows) }
    ensures fault { IfErr result (λ e. MayBreak no_functions (bare_node (in_memory_join (join_of (tree_at arena.now.items) left_on.now right_on.now args.now)) schema.now) (whole left.now ∷ whole right.now ∷ []) e) }
{
    // Matches and no `?`: so what is said of an error is said of the answer.
    let all = match schema_of_join(
        alloc,
        left_on,
        right_on,
        args,
        arena,
        left.schema(),
        right.schema(),
    ) {
        Ok(all) => all,
        Err(error) => return Err(error),
    };
    let table = match join(
        alloc,
        Node::default(),
        left,
        right,
        left_on,
        right_on,
        args,
        arena,
        &all,
    ) {
        Ok(table) => table,
        Err(error) => return Err(error),
    };
    match narrowed(alloc, &table, schema) {
        Ok(narrow) => {
            // What is given has few enough rows: its height says so.
            let _height = narrow.height();
            Ok(narrow)
        }
        Err(error) => Err(error),
    }
}
