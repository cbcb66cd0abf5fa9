// Operations of the engine's own over one table. A table has no more rows than `u32::MAX`, so no column of an expression
// has more cells, and only what breaks an operation makes it fail.
ghost use Rattle.std.specs.Prelude.{◌≡◌, ◌∷◌, ◌+◌, [], IfErr, IfOk, IsTrue, List, Some, option_map, unwrap_or, ℕ};
ghost use Rattle.std.specs.List.{AllByRecursion};
ghost use Rattle.ps_frame.specs.Functions.{Functions};
ghost use Rattle.ps_frame.specs.Trees.{IsComplete, IsExpression, tree_at};
ghost use Rattle.ps_frame.specs.Typing.{kind_over};
ghost use Rattle.ps_frame.specs.declared.value.DataType.TheVariants as kind;
ghost use Rattle.ps_meaning.specs.Nodes.{GivesFrame};
ghost use Rattle.ps_meaning.specs.Schemas.{expr_names, fields_of, named_fields, put_fields};
ghost use Rattle.ps_meaning.specs.StepRefusals.{repeats};
ghost use Rattle.ps_meaning.specs.Steps.{filter as filter_step, hstack as hstack_step, key_trees, named_trees, project as project_step, row_index as row_index_step, select as select_step};
ghost use Rattle.ps_pieces.specs.Computed.{MayFail};

use crate::parameters::first_number;
use ps_frame::expr::AExpr;
use ps_frame::frame::DataFrame;
use ps_frame::refusal::PolarsResult;
use ps_frame::schema::Schema;
use ps_meaning::options::ExprIR;
use ps_rows::filter::filter;
use ps_rows::hstack::hstack;
use ps_rows::select::select;
use ps_tables::project::project;
use ps_tables::row_index::row_index;
use pu_base::{Arena, Node, PlSmallStr};
use std::alloc::Global;

/// The columns of expressions.
pub(crate) fn selected(
    alloc: Global,
    at: Node,
    selectors: &[ExprIR],
    exprs: &Arena<AExpr>,
    table: &DataFrame,
    schema: &Schema,
) -> PolarsResult<DataFrame>
    requires expressions { AllByRecursion IsComplete (key_trees (tree_at exprs.now.items) selectors.now) }
    requires fields { fields_of (named_trees (tree_at exprs.now.items) selectors.now) table.now.schema ≡ Some schema.now }
    ensures table { IfOk result (λ f. (F : Functions) → GivesFrame F at.0 (select_step (named_trees (tree_at exprs.now.items) selectors.now)) (table.now ∷ []) f) }
    ensures fault { IfErr result (λ e. (F : Functions) → MayFail F at.0 (select_step (named_trees (tree_at exprs.now.items) selectors.now)) table.now e) }
{
    // A law: it has few enough rows.
    let _height = table.height();
    select(alloc, at, selectors, exprs, table, schema)
}

/// A table's columns with those of expressions in them.
pub(crate) fn stacked(
    alloc: Global,
    at: Node,
    selectors: &[ExprIR],
    exprs: &Arena<AExpr>,
    table: &DataFrame,
    schema: &Schema,
) -> PolarsResult<DataFrame>
    requires expressions { AllByRecursion IsComplete (key_trees (tree_at exprs.now.items) selectors.now) }
    requires fields { option_map (put_fields table.now.schema) (fields_of (named_trees (tree_at exprs.now.items) selectors.now) table.now.schema) ≡ Some schema.now }
    requires names_differ { (name : List ℕ) → ¬ IsTrue (repeats name (expr_names (named_trees (tree_at exprs.now.items) selectors.now))) }
    ensures table { IfOk result (λ f. (F : Functions) → GivesFrame F at.0 (hstack_step (named_trees (tree_at exprs.now.items) selectors.now)) (table.now ∷ []) f) }
    ensures fault { IfErr result (λ e. (F : Functions) → MayFail F at.0 (hstack_step (named_trees (tree_at exprs.now.items) selectors.now)) table.now e) }
{
    // A law: it has few enough rows.
    let _height = table.height();
    hstack(alloc, at, selectors, exprs, table, schema)
}

/// The rows of which a predicate is true.
pub(crate) fn filtered(
    alloc: Global,
    at: Node,
    predicate: &ExprIR,
    exprs: &Arena<AExpr>,
    table: &DataFrame,
) -> PolarsResult<DataFrame>
    requires expression { IsExpression exprs.now.items predicate.now.node }
    requires kind { kind_over table.now.schema (tree_at exprs.now.items predicate.now.node) ≡ Some kind.Boolean }
    ensures table { IfOk result (λ f. (F : Functions) → GivesFrame F at.0 (filter_step (tree_at exprs.now.items predicate.now.node)) (table.now ∷ []) f) }
    ensures fault { IfErr result (λ e. (F : Functions) → MayFail F at.0 (filter_step (tree_at exprs.now.items predicate.now.node)) table.now e) }
{
    // A law: it has few enough rows.
    let _height = table.height();
    filter(alloc, at, predicate, exprs, table)
}

/// The named columns.
pub(crate) fn projected(
    alloc: Global,
    columns: &[PlSmallStr],
    table: &DataFrame,
    schema: &Schema,
) -> PolarsResult<DataFrame>
    requires { named_fields columns.now table.now.schema ≡ Some schema.now }
    ensures table { IfOk result (λ f. (F : Functions) (at : ℕ) → GivesFrame F at (project_step columns.now) (table.now ∷ []) f) }
    ensures fault { IfErr result (λ e. (F : Functions) (at : ℕ) → MayFail F at (project_step columns.now) table.now e) }
{
    project(alloc, table, columns, schema)
}

/// The numbers of rows in front of them, which come behind so many.
pub(crate) fn numbered(
    alloc: Global,
    at: Node,
    offset: Option<u32>,
    before: usize,
    table: &DataFrame,
    schema: &Schema,
) -> PolarsResult<DataFrame>
    requires { (name : List ℕ) × (schema.now ≡ (name, kind.IdxSize) ∷ table.now.schema) }
    ensures table { IfOk result (λ f. (F : Functions) (name : List ℕ) → schema.now ≡ (name, kind.IdxSize) ∷ table.now.schema → GivesFrame F at.0 (row_index_step name (Some (unwrap_or offset 0 + before))) (table.now ∷ []) f) }
    ensures fault { IfErr result (λ e. (F : Functions) (name : List ℕ) → MayFail F at.0 (row_index_step name (Some (unwrap_or offset 0 + before))) table.now e) }
{
    let first = first_number(offset, before);
    row_index(alloc, at, Some(first), table, schema)
}
