//! Schemas of named expressions.
ghost use Rattle.std.specs.Prelude.{◌≡◌, ◌<◌, Err, IfOk, IsTrue, OnErr, Some};
ghost use Rattle.std.specs.List.{AllByRecursion};
ghost use Rattle.ps_frame.specs.Frames.{has_distinct_names};
ghost use Rattle.ps_frame.specs.Tables.{Fields};
ghost use Rattle.ps_frame.specs.Trees.{IsComplete, tree_at};
ghost use Rattle.ps_frame.specs.declared.refusal.PolarsError.{PolarsError};
ghost use Rattle.ps_meaning.specs.Schemas.{fields_of};
ghost use Rattle.ps_meaning.specs.Steps.{exprs_of, named_trees};

use ps_frame::expr::AExpr;
use ps_frame::refusal::{PolarsError, PolarsResult};
use ps_frame::schema::Schema;
use ps_meaning::options::ExprIR;
use pu_base::{Arena, Node, Steps};
use std::alloc::Global;
use std::marker::Brand;
use std::sync::ledger::{Blank, Ledger};
use valid_plans::fields::push_typed;

/// The schema of expressions under their output names, which differ, over an input's schema, where each of them has a kind.
///
/// Fails only for want of memory.
pub fn compute_output_schema(
    alloc: Global,
    input: &Schema,
    exprs: &[ExprIR],
    arena: &Arena<AExpr>,
) -> PolarsResult<Schema>
    requires whole { AllByRecursion IsComplete (exprs_of (named_trees (tree_at arena.now.items) exprs.now)) }
    requires typed { (fields : Fields) × (fields_of (named_trees (tree_at arena.now.items) exprs.now) input.now ≡ Some fields) × IsTrue (has_distinct_names fields) }
    ensures schema { IfOk result (λ schema. fields_of (named_trees (tree_at arena.now.items) exprs.now) input.now ≡ Some schema) }
    ensures memory { OnErr result (result ≡ Err PolarsError.OutOfMemory) }
{
    typed_schema::<Brand>(alloc, Blank::new(1), input, exprs, arena)
}

fn typed_schema<L: Ledger>(
    alloc: Global,
    blank: Blank,
    input: &Schema,
    exprs: &[ExprIR],
    arena: &Arena<AExpr>,
) -> PolarsResult<Schema>
    requires name { blank.name ≡ L.name }
    requires parts { blank.parts ≡ L.parts }
    requires some { 0 < L.parts }
    requires whole { AllByRecursion IsComplete (exprs_of (named_trees (tree_at arena.now.items) exprs.now)) }
    requires typed { (fields : Fields) × (fields_of (named_trees (tree_at arena.now.items) exprs.now) input.now ≡ Some fields) × IsTrue (has_distinct_names fields) }
    ensures schema { IfOk result (λ schema. fields_of (named_trees (tree_at arena.now.items) exprs.now) input.now ≡ Some schema) }
    ensures memory { OnErr result (result ≡ Err PolarsError.OutOfMemory) }
{
    let mut steps = Steps::<L>::new(blank);
    let mut schema = Schema::new(alloc);
    // No refusal comes, since each expression has a kind and no name stands twice: what fails is want of memory.
    match push_typed(alloc, Node(0), exprs, arena, input, &mut schema, &mut steps) {
        Ok(_) => Ok(schema),
        Err(_error) => Err(PolarsError::OutOfMemory),
    }
}
