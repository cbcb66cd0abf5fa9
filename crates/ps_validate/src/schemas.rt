// The schemas of nodes over one input: select, filter, sort and group-by, and those that pass the input's columns on.
//
// Each function here and beside gives the schema of a node's step, where no rule on names or kinds refuses the step and
// no part of its expressions is left out. Else it refuses the step at the node `at` for one of these; any one that
// holds may be answered. The only other error is want of memory.
ghost use Rattle.std.specs.Prelude.{◌≡◌, ◌≤◌, ◌+◌, ◌*◌, ◌∷◌, Bool, Err, IfErr, IfOk, IsFalse, IsTrue, List, OnErr, OnOk, [], ℕ};
ghost use Rattle.std.specs.List.{AllByRecursion, list_any};
ghost use Rattle.ps_frame.specs.Functions.{Functions};
ghost use Rattle.ps_frame.specs.Parts.{is_literal_aggregate, some_part};
ghost use Rattle.ps_frame.specs.Trees.{IsComplete, IsExpression, tree_at, tree_size};
ghost use Rattle.ps_meaning.specs.PlanTrees.{all_sizes};
ghost use Rattle.ps_meaning.specs.Steps.{Cut, Step, exprs_of, filter as filter_step, group_step, key_trees, named_trees, select as select_step, sort as sort_step};
ghost use Rattle.ps_validate.specs.Nodes.{GivesSchema, IsNodeError, PassesColumns};

use crate::columns::{shared_columns, some_columns};
use crate::keys::key_kinds;
use ps_frame::expr::{AExpr, What};
use ps_frame::laws::kinds_are_exact;
use ps_frame::refusal::{PolarsError, PolarsResult};
use ps_frame::schema::Schema;
use ps_frame::value::DataType;
use ps_meaning::options::ExprIR;
use ps_typing::kinds::type_expr;
use ps_typing::nature::independence_of;
use pu_base::{Arena, Node, Steps};
use std::alloc::Global;
use std::sync::ledger::Ledger;
use valid_plans::fields::push_typed;

/// The schema of a select.
pub fn select_schema<L: Ledger>(
    alloc: Global,
    at: Node,
    exprs: &[ExprIR],
    arena: &Arena<AExpr>,
    input: &Schema,
    steps: &mut Steps<L>,
) -> PolarsResult<Schema>
    requires { AllByRecursion IsComplete (exprs_of (named_trees (tree_at arena.now.items) exprs.now)) }
    ensures given { IfOk result (λ s. (F : Functions) → GivesSchema F (select_step (named_trees (tree_at arena.now.items) exprs.now)) (input.now ∷ []) s) }
    ensures refused { IfErr result (λ e. (F : Functions) → IsNodeError F at (select_step (named_trees (tree_at arena.now.items) exprs.now)) (input.now ∷ []) e) }
    ensures steps { steps.new ≤ steps.old + all_sizes (exprs_of (named_trees (tree_at arena.now.items) exprs.now)) }
{
    // A law: an expression has a kind exactly where no rule on kinds refuses it.
    kinds_are_exact();
    let mut schema = Schema::new(alloc);
    push_typed(alloc, at, exprs, arena, input, &mut schema, steps)?;
    // A law: no name stands twice in it, so no rule on names refuses the step.
    schema.names_differ();
    some_columns(at, schema)
}

/// The schema of a filter: that of its input, which is shared.
pub fn filter_schema<L: Ledger>(
    alloc: Global,
    at: Node,
    predicate: &ExprIR,
    arena: &Arena<AExpr>,
    input: &Schema,
    steps: &mut Steps<L>,
) -> PolarsResult<Schema>
    requires { IsExpression arena.now.items predicate.now.node }
    ensures given { IfOk result (λ s. (F : Functions) → GivesSchema F (filter_step (tree_at arena.now.items predicate.now.node)) (input.now ∷ []) s) }
    ensures refused { IfErr result (λ e. (F : Functions) → IsNodeError F at (filter_step (tree_at arena.now.items predicate.now.node)) (input.now ∷ []) e) }
    ensures steps { steps.new ≤ steps.old + tree_size (tree_at arena.now.items predicate.now.node) }
{
    // A law: an expression has a kind exactly where no rule on kinds refuses it.
    kinds_are_exact();
    let typed = type_expr(alloc, at, predicate.node, arena, input, steps)?;
    if typed.dtype != DataType::Boolean {
        return Err(PolarsError::SchemaMismatch { node: at });
    }
    // A law: no name stands twice in it, so no rule on names refuses the step.
    input.names_differ();
    shared_columns(alloc, at, input)
}

/// The schema of a sort by keys: that of its input, which is shared.
pub fn sort_schema<L: Ledger>(
    alloc: Global,
    at: Node,
    keys: &[ExprIR],
    arena: &Arena<AExpr>,
    input: &Schema,
    steps: &mut Steps<L>,
) -> PolarsResult<Schema>
    requires { AllByRecursion IsComplete (key_trees (tree_at arena.now.items) keys.now) }
    ensures given { IfOk result (λ s. (F : Functions) (descending nulls_last : List Bool) (cut : Cut) → GivesSchema F (sort_step (record { keys = key_trees (tree_at arena.now.items) keys.now; descending = descending; nulls_last = nulls_last; cut = cut })) (input.now ∷ []) s) }
    ensures refused { IfErr result (λ e. (F : Functions) (descending nulls_last : List Bool) (cut : Cut) → IsNodeError F at (sort_step (record { keys = key_trees (tree_at arena.now.items) keys.now; descending = descending; nulls_last = nulls_last; cut = cut })) (input.now ∷ []) e) }
    ensures steps { steps.new ≤ steps.old + all_sizes (key_trees (tree_at arena.now.items) keys.now) }
{
    // A law: an expression has a kind exactly where no rule on kinds refuses it.
    kinds_are_exact();
    key_kinds(alloc, at, keys, arena, input, steps)?;
    // A law: no name stands twice in it, so no rule on names refuses the step.
    input.names_differ();
    shared_columns(alloc, at, input)
}

// Refuses aggregates over what is independent of the input.
fn check_aggregates<L: Ledger>(
    at: Node,
    aggs: &[ExprIR],
    arena: &Arena<AExpr>,
    steps: &mut Steps<L>,
) -> PolarsResult<()>
    requires { AllByRecursion IsComplete (exprs_of (named_trees (tree_at arena.now.items) aggs.now)) }
    ensures none { OnOk result (IsFalse (list_any (some_part is_literal_aggregate) (exprs_of (named_trees (tree_at arena.now.items) aggs.now)))) }
    ensures some { OnErr result (IsTrue (list_any (some_part is_literal_aggregate) (exprs_of (named_trees (tree_at arena.now.items) aggs.now)))) }
    ensures error { OnErr result (result ≡ Err (PolarsError.Unsupported at What.LiteralAggregate)) }
    ensures steps { steps.new ≤ steps.old + all_sizes (exprs_of (named_trees (tree_at arena.now.items) aggs.now)) }
{
    for agg in aggs {
        let independence = independence_of(agg.node, arena, steps);
        if independence.has_literal_aggregate {
            return Err(PolarsError::Unsupported {
                node: at,
                what: What::LiteralAggregate,
            });
        }
    }
    Ok(())
}

/// The schema of a group-by: the keys, and then the aggregates.
pub fn group_by_schema<L: Ledger>(
    alloc: Global,
    at: Node,
    keys: &[ExprIR],
    aggs: &[ExprIR],
    arena: &Arena<AExpr>,
    input: &Schema,
    steps: &mut Steps<L>,
) -> PolarsResult<Schema>
    requires keys { AllByRecursion IsComplete (exprs_of (named_trees (tree_at arena.now.items) keys.now)) }
    requires aggregates { AllByRecursion IsComplete (exprs_of (named_trees (tree_at arena.now.items) aggs.now)) }
    ensures given { IfOk result (λ s. (F : Functions) (maintain : Bool) (cut : Cut) → GivesSchema F (group_step (tree_at arena.now.items) keys.now aggs.now maintain cut) (input.now ∷ []) s) }
    ensures refused { IfErr result (λ e. (F : Functions) (maintain : Bool) (cut : Cut) → IsNodeError F at (group_step (tree_at arena.now.items) keys.now aggs.now maintain cut) (input.now ∷ []) e) }
    ensures steps { steps.new ≤ steps.old + all_sizes (exprs_of (named_trees (tree_at arena.now.items) keys.now)) + 2 * all_sizes (exprs_of (named_trees (tree_at arena.now.items) aggs.now)) }
{
    // A law: an expression has a kind exactly where no rule on kinds refuses it.
    kinds_are_exact();
    let mut schema = Schema::new(alloc);
    push_typed(alloc, at, keys, arena, input, &mut schema, steps)?;
    let all_scalar = push_typed(alloc, at, aggs, arena, input, &mut schema, steps)?;
    if !all_scalar {
        return Err(PolarsError::SchemaMismatch { node: at });
    }
    check_aggregates(at, aggs, arena, steps)?;
    // A law: no name stands twice in it, so no rule on names refuses the step.
    schema.names_differ();
    some_columns(at, schema)
}

/// The schema of a slice, a sink or a cache: that of its input, which is shared.
pub fn passed_schema(alloc: Global, at: Node, input: &Schema) -> PolarsResult<Schema>
    ensures given { IfOk result (λ s. (F : Functions) (step : Step) → PassesColumns step → GivesSchema F step (input.now ∷ []) s) }
    ensures refused { IfErr result (λ e. (F : Functions) (step : Step) → PassesColumns step → IsNodeError F at step (input.now ∷ []) e) }
{
    // A law: no name stands twice in it, so no rule on names refuses the step.
    input.names_differ();
    shared_columns(alloc, at, input)
}
