// The schema of a join.
ghost use Rattle.std.specs.Prelude.{◌≡◌, ◌≤◌, ◌+◌, ◌∷◌, ◌++◌, IfErr, IfOk, OnErr, OnOk, Err, Some, [], length, unwrap_or, codes};
ghost use Rattle.std.specs.List.{AllByRecursion};
ghost use Rattle.ps_frame.specs.Functions.{Functions};
ghost use Rattle.ps_frame.specs.Trees.{IsComplete, tree_at};
ghost use Rattle.ps_meaning.specs.PlanTrees.{all_sizes};
ghost use Rattle.ps_meaning.specs.Schemas.{bare_names, left_part, right_part, without};
ghost use Rattle.ps_meaning.specs.Steps.{JoinStep, join as join_step, key_trees};
ghost use Rattle.ps_validate.specs.Nodes.{GivesSchema, IsNodeError};

use crate::columns::{push_suffixed, push_without, some_columns};
use crate::keys::{column_names, key_kinds, same_kinds};
use ps_frame::expr::AExpr;
use ps_frame::laws::kinds_are_exact;
use ps_frame::refusal::{PolarsError, PolarsResult};
use ps_frame::schema::Schema;
use ps_meaning::options::{ExprIR, JoinArgs, JoinType};
use pu_base::{Arena, Node, Steps};
use std::alloc::Global;
use std::sync::ledger::Ledger;

// What a right name takes where it stands on the left.
fn suffix(args: &JoinArgs) -> &str
    ensures { result.now ≡ unwrap_or args.now.suffix (codes "_right") }
{
    match &args.suffix {
        Some(suffix) => suffix.as_str(),
        None => "_right",
    }
}

// An equal schema; fails only for want of memory.
fn cloned(alloc: Global, schema: &Schema) -> PolarsResult<Schema>
    ensures same { IfOk result (λ s. s ≡ schema.now) }
    ensures memory { OnErr result (result ≡ Err PolarsError.OutOfMemory) }
{
    match schema.try_clone(alloc) {
        Ok(schema) => Ok(schema),
        Err(_) => Err(PolarsError::OutOfMemory),
    }
}

// The columns of a schema but those that are keys by themselves; fails only for want of memory.
fn without_keys(
    alloc: Global,
    at: Node,
    schema: &Schema,
    keys: &[ExprIR],
    arena: &Arena<AExpr>,
) -> PolarsResult<Schema>
    requires { AllByRecursion IsComplete (key_trees (tree_at arena.now.items) keys.now) }
    ensures columns { IfOk result (λ s. s ≡ without (bare_names (key_trees (tree_at arena.now.items) keys.now)) schema.now) }
    ensures memory { OnErr result (result ≡ Err PolarsError.OutOfMemory) }
{
    // A law: no name stands twice in the schema, so none is refused below.
    schema.names_differ();
    let names = column_names(alloc, keys, arena)?;
    let mut columns = Schema::new(alloc);
    push_without(alloc, at, &mut columns, schema, &names)?;
    Ok(columns)
}

// The columns that a join gives of its left side.
fn left_columns(
    alloc: Global,
    at: Node,
    how: JoinType,
    left_on: &[ExprIR],
    arena: &Arena<AExpr>,
    left: &Schema,
) -> PolarsResult<Schema>
    requires { AllByRecursion IsComplete (key_trees (tree_at arena.now.items) left_on.now) }
    ensures columns { IfOk result (λ s. (o : JoinStep) → o.left_on ≡ key_trees (tree_at arena.now.items) left_on.now → s ≡ left_part how o left.now) }
    ensures memory { OnErr result (result ≡ Err PolarsError.OutOfMemory) }
{
    match how {
        JoinType::Right => without_keys(alloc, at, left, left_on, arena),
        JoinType::Inner
        | JoinType::Left
        | JoinType::Full
        | JoinType::Semi
        | JoinType::Anti
        | JoinType::Cross => cloned(alloc, left),
    }
}

// The columns that a join gives of its right side, before their names are told apart.
fn right_columns(
    alloc: Global,
    at: Node,
    how: JoinType,
    right_on: &[ExprIR],
    arena: &Arena<AExpr>,
    right: &Schema,
) -> PolarsResult<Schema>
    requires { AllByRecursion IsComplete (key_trees (tree_at arena.now.items) right_on.now) }
    ensures columns { IfOk result (λ s. (o : JoinStep) → o.right_on ≡ key_trees (tree_at arena.now.items) right_on.now → s ≡ right_part how o right.now) }
    ensures memory { OnErr result (result ≡ Err PolarsError.OutOfMemory) }
{
    match how {
        JoinType::Inner | JoinType::Left => without_keys(alloc, at, right, right_on, arena),
        JoinType::Right | JoinType::Full | JoinType::Cross => cloned(alloc, right),
        JoinType::Semi | JoinType::Anti => Ok(Schema::new(alloc)),
    }
}

/// The schema of a join with as many keys on both sides: the left side's columns, and then the right side's, with a
/// suffix where their names stand on the left.
pub fn join_schema<L: Ledger>(
    alloc: Global,
    at: Node,
    left_on: &[ExprIR],
    right_on: &[ExprIR],
    args: &JoinArgs,
    arena: &Arena<AExpr>,
    left: &Schema,
    right: &Schema,
    steps: &mut Steps<L>,
) -> PolarsResult<Schema>
    requires left_keys { AllByRecursion IsComplete (key_trees (tree_at arena.now.items) left_on.now) }
    requires right_keys { AllByRecursion IsComplete (key_trees (tree_at arena.now.items) right_on.now) }
    requires paired { length left_on.now ≡ length right_on.now }
    ensures given { IfOk result (λ s. (F : Functions) → GivesSchema F (join_step (record { left_on = key_trees (tree_at arena.now.items) left_on.now; right_on = key_trees (tree_at arena.now.items) right_on.now; args = args.now })) (left.now ∷ right.now ∷ []) s) }
    ensures refused { IfErr result (λ e. (F : Functions) → IsNodeError F at (join_step (record { left_on = key_trees (tree_at arena.now.items) left_on.now; right_on = key_trees (tree_at arena.now.items) right_on.now; args = args.now })) (left.now ∷ right.now ∷ []) e) }
    ensures steps { steps.new ≤ steps.old + (all_sizes (key_trees (tree_at arena.now.items) left_on.now) + all_sizes (key_trees (tree_at arena.now.items) right_on.now)) }
{
    // A law: an expression has a kind exactly where no rule on kinds refuses it.
    kinds_are_exact();
    let left_kinds = key_kinds(alloc, at, left_on, arena, left, steps)?;
    let right_kinds = key_kinds(alloc, at, right_on, arena, right, steps)?;
    if !same_kinds(&left_kinds, &right_kinds) {
        return Err(PolarsError::SchemaMismatch { node: at });
    }
    let mut schema = left_columns(alloc, at, args.how, left_on, arena, left)?;
    let added = right_columns(alloc, at, args.how, right_on, arena, right)?;
    let taken = cloned(alloc, &schema)?;
    push_suffixed(alloc, at, &mut schema, &added, &taken, suffix(args))?;
    // A law: no name stands twice in it, so no rule on names refuses the step.
    schema.names_differ();
    some_columns(at, schema)
}
