// The schemas of nodes that set columns beside each other, or tables above each other.
ghost use Rattle.std.specs.Prelude.{◌≡◌, ◌≢◌, ◌≤◌, ◌+◌, ◌∷◌, Any, IfErr, IsFalse, IsTrue, IfOk, OnOk, Option, Some, [], ℕ};
ghost use Rattle.std.specs.List.{AllByRecursion};
ghost use Rattle.ps_frame.specs.Functions.{Functions};
ghost use Rattle.ps_frame.specs.Trees.{IsComplete, tree_at};
ghost use Rattle.ps_meaning.specs.PlanTrees.{all_sizes};
ghost use Rattle.ps_meaning.specs.Steps.{Cut, exprs_of, hconcat as hconcat_step, hstack as hstack_step, named_trees, row_index as row_index_step, union as union_step};
ghost use Rattle.valid_plans.specs.Known.{AreKnown, schemas_in};
ghost use Rattle.ps_validate.specs.Nodes.{GivesSchema, IsNodeError};

use crate::columns::{
    push_absent, push_all, push_copy, push_with_kinds, shared_columns, some_columns,
};
use ps_frame::expr::AExpr;
use ps_frame::laws::kinds_are_exact;
use ps_frame::refusal::{PolarsError, PolarsResult};
use ps_frame::schema::Schema;
use ps_frame::value::DataType;
use ps_meaning::options::ExprIR;
use pu_base::{Arena, Node, PlSmallStr, Steps};
use std::alloc::Global;
use std::sync::ledger::Ledger;
use valid_plans::fields::push_typed;
use valid_plans::table::Schemas;

/// The schema of an hstack: the input's columns, with those of the expressions in the place of equal
/// names, and then the new ones.
pub fn hstack_schema<L: Ledger>(
    alloc: Global,
    at: Node,
    exprs: &[ExprIR],
    arena: &Arena<AExpr>,
    input: &Schema,
    steps: &mut Steps<L>,
) -> PolarsResult<Schema>
    requires { AllByRecursion IsComplete (exprs_of (named_trees (tree_at arena.now.items) exprs.now)) }
    ensures given { IfOk result (λ s. (F : Functions) → GivesSchema F (hstack_step (named_trees (tree_at arena.now.items) exprs.now)) (input.now ∷ []) s) }
    ensures refused { IfErr result (λ e. (F : Functions) → IsNodeError F at (hstack_step (named_trees (tree_at arena.now.items) exprs.now)) (input.now ∷ []) e) }
    ensures steps { steps.new ≤ steps.old + all_sizes (exprs_of (named_trees (tree_at arena.now.items) exprs.now)) }
{
    // A law: an expression has a kind exactly where no rule on kinds refuses it.
    kinds_are_exact();
    let mut stacked = Schema::new(alloc);
    push_typed(alloc, at, exprs, arena, input, &mut stacked, steps)?;
    // A law: no name stands twice in either, so none is refused below.
    input.names_differ();
    stacked.names_differ();
    let mut schema = Schema::new(alloc);
    push_with_kinds(alloc, at, &mut schema, input, &stacked)?;
    push_absent(alloc, at, &mut schema, &stacked, input)?;
    // A law: no name stands twice in it, so no rule on names refuses the step.
    schema.names_differ();
    some_columns(at, schema)
}

/// The schema of a row index: the index, and then the input's columns.
pub fn row_index_schema(
    alloc: Global,
    at: Node,
    name: &PlSmallStr,
    input: &Schema,
) -> PolarsResult<Schema>
    ensures given { IfOk result (λ s. (F : Functions) (offset : Option ℕ) → GivesSchema F (row_index_step name.now offset) (input.now ∷ []) s) }
    ensures refused { IfErr result (λ e. (F : Functions) (offset : Option ℕ) → IsNodeError F at (row_index_step name.now offset) (input.now ∷ []) e) }
{
    let mut schema = Schema::new(alloc);
    push_copy(alloc, at, &mut schema, name, DataType::IdxSize)?;
    push_all(alloc, at, &mut schema, input)?;
    // A law: no name stands twice in it, so no rule on names refuses the step.
    schema.names_differ();
    Ok(schema)
}

// Whether each of these nodes has the schema.
fn are_alike(inputs: &[Node], schemas: &Schemas, schema: &Schema) -> bool
    requires { AreKnown schemas.now inputs.now }
    ensures alike { IsTrue result → AllByRecursion (λ s. s ≡ schema.now) (schemas_in schemas.now inputs.now) }
    ensures differ { IsFalse result → Any (λ s. s ≢ schema.now) (schemas_in schemas.now inputs.now) }
{
    for input in inputs {
        if !schemas.get(*input).same(schema) {
            return false;
        }
    }
    true
}

/// The schema of a union, which has an input: that of its first input, which is shared.
pub fn union_schema(
    alloc: Global,
    at: Node,
    inputs: &[Node],
    schemas: &Schemas,
) -> PolarsResult<Schema>
    requires some { inputs.now ≢ [] }
    requires known { AreKnown schemas.now inputs.now }
    ensures given { IfOk result (λ s. (F : Functions) (cut : Cut) → GivesSchema F (union_step cut) (schemas_in schemas.now inputs.now) s) }
    ensures refused { IfErr result (λ e. (F : Functions) (cut : Cut) → IsNodeError F at (union_step cut) (schemas_in schemas.now inputs.now) e) }
{
    let Some((first, others)) = inputs.split_first() else {
        unreachable!();
    };
    let schema = schemas.get(*first);
    if !are_alike(others, schemas, schema) {
        return Err(PolarsError::SchemaMismatch { node: at });
    }
    // A law: no name stands twice in it, so no rule on names refuses the step.
    schema.names_differ();
    shared_columns(alloc, at, schema)
}

/// The schema of an hconcat: the columns of all inputs, in order.
pub fn hconcat_schema(
    alloc: Global,
    at: Node,
    inputs: &[Node],
    schemas: &Schemas,
) -> PolarsResult<Schema>
    requires { AreKnown schemas.now inputs.now }
    ensures given { IfOk result (λ s. (F : Functions) → GivesSchema F hconcat_step (schemas_in schemas.now inputs.now) s) }
    ensures refused { IfErr result (λ e. (F : Functions) → IsNodeError F at hconcat_step (schemas_in schemas.now inputs.now) e) }
{
    let mut schema = Schema::new(alloc);
    for input in inputs {
        push_all(alloc, at, &mut schema, schemas.get(*input))?;
    }
    // A law: no name stands twice in it, so no rule on names refuses the step.
    schema.names_differ();
    some_columns(at, schema)
}
