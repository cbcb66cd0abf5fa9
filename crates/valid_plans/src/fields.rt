// The fields that named expressions give.
ghost use Rattle.std.specs.Prelude.{◌≡◌, ◌++◌, ◌∷◌, ◌≤◌, ◌+◌, [], IfErr, IfOk, IsFalse, IsTrue, OnErr, OnOk, Some, not, option_map};
ghost use Rattle.std.specs.List.{AllByRecursion, list_any};
ghost use Rattle.ps_frame.specs.Frames.{has_distinct_names, has_name};
ghost use Rattle.ps_frame.specs.Trees.{IsComplete, tree_at};
ghost use Rattle.ps_meaning.specs.PlanTrees.{all_sizes};
ghost use Rattle.ps_meaning.specs.Schemas.{fields_of, names_of};
ghost use Rattle.ps_meaning.specs.Steps.{exprs_of, name_in, named_trees};
ghost use Rattle.valid_plans.specs.Fields.{IsFieldError, IsPushError, not_scalar};

use ps_frame::error::FrameError;
use ps_frame::expr::AExpr;
use ps_frame::refusal::{PolarsError, PolarsResult};
use ps_frame::schema::Schema;
use ps_frame::value::DataType;
use ps_meaning::options::{ExprIR, OutputName};
use ps_typing::kinds::type_expr;
use pu_base::{Arena, Node, PlSmallStr, Steps};
use std::alloc::Global;
use std::sync::ledger::Ledger;

/// The name that an expression's column gets.
pub fn name_of(expr: &ExprIR) -> &PlSmallStr
    ensures { result.now ≡ name_in expr.now.output_name }
{
    match &expr.output_name {
        OutputName::Alias(name) => name,
        OutputName::ColumnLhs(name) => name,
    }
}

/// One more field, refused where its name stands already; else it fails only for want of memory.
pub fn push_field(
    alloc: Global,
    at: Node,
    schema: &mut Schema,
    name: PlSmallStr,
    dtype: DataType,
) -> PolarsResult<()>
    ensures added { OnOk result (schema.new ≡ schema.old ++ (name, dtype) ∷ []) }
    ensures fresh { OnOk result (IsFalse (has_name name schema.old)) }
    ensures refused { IfErr result (IsPushError at schema.old name) }
    ensures unchanged { OnErr result (schema.new ≡ schema.old) }
{
    match schema.push(alloc, name, dtype) {
        Ok(()) => Ok(()),
        Err(FrameError::Duplicate { name }) => Err(PolarsError::Duplicate { node: at, name }),
        Err(_) => Err(PolarsError::OutOfMemory),
    }
}

/// Adds the fields of named expressions over an input to a schema, and tells whether all of these are scalar.
///
/// Refused at the node `at`, with the schema filled in part, where a name would stand twice in the schema, or where
/// some part of an expression reads a column that the input lacks, breaks a typing rule or is left out; any one of
/// these may be answered. Else it fails only for want of memory. It takes a step for each expression that it looks at.
pub fn push_typed<L: Ledger>(
    alloc: Global,
    at: Node,
    exprs: &[ExprIR],
    arena: &Arena<AExpr>,
    input: &Schema,
    schema: &mut Schema,
    steps: &mut Steps<L>,
) -> PolarsResult<bool>
    requires { AllByRecursion IsComplete (exprs_of (named_trees (tree_at arena.now.items) exprs.now)) }
    ensures fields { OnOk result (option_map (λ fs. schema.old ++ fs) (fields_of (named_trees (tree_at arena.now.items) exprs.now) input.now) ≡ Some schema.new) }
    ensures distinct { OnOk result (IsTrue (has_distinct_names schema.old) → IsTrue (has_distinct_names schema.new)) }
    ensures scalar { IfOk result (λ all. list_any not_scalar (exprs_of (named_trees (tree_at arena.now.items) exprs.now)) ≡ not all) }
    ensures refused { IfErr result (IsFieldError at input.now (names_of schema.old) (named_trees (tree_at arena.now.items) exprs.now)) }
    ensures steps { steps.new ≤ steps.old + all_sizes (exprs_of (named_trees (tree_at arena.now.items) exprs.now)) }
{
    let mut all_scalar = true;
    for expr in exprs {
        let typed = type_expr(alloc, at, expr.node, arena, input, steps)?;
        let Ok(name) = name_of(expr).try_clone(alloc) else {
            return Err(PolarsError::OutOfMemory);
        };
        push_field(alloc, at, schema, name, typed.dtype)?;
        all_scalar &= typed.is_scalar;
    }
    Ok(all_scalar)
}
