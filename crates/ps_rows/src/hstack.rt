// A table with the columns of expressions in it.
ghost use Rattle.std.specs.Prelude.{◌≡◌, ◌<◌, ◌≤◌, ◌^◌, ◌∷◌, ◌++◌, [], Err, IfErr, IfOk, IsTrue, List, OnErr, OnOk, Some, map, option_map, ℕ};
ghost use Rattle.std.specs.List.{AllByRecursion};
ghost use Rattle.ps_frame.specs.Aggregates.{max_rows};
ghost use Rattle.ps_frame.specs.Frames.{AllOfHeight, column_values};
ghost use Rattle.ps_frame.specs.Functions.{Functions};
ghost use Rattle.ps_frame.specs.Tables.{rows_of};
ghost use Rattle.ps_frame.specs.Trees.{IsComplete, tree_at};
ghost use Rattle.ps_frame.specs.Series.{Series};
ghost use Rattle.ps_meaning.specs.Nodes.{GivesFrame, MayFault};
ghost use Rattle.ps_meaning.specs.StepRefusals.{repeats};
ghost use Rattle.ps_meaning.specs.Schemas.{expr_names, fields_of, names_of, put_fields};
ghost use Rattle.ps_meaning.specs.Steps.{hstack as hstack_step, key_trees, name_in, named_trees};
ghost use Rattle.ps_meaning.specs.declared.options.ExprIR.{ExprIR as AExprIR};
ghost use Rattle.ps_rows.specs.Placed.{ArePlaced, TakesPlaces, place_in};

use ps_frame::column::Column;
use ps_frame::expr::AExpr;
use ps_frame::frame::DataFrame;
use ps_frame::refusal::{PolarsError, PolarsResult};
use ps_frame::schema::Schema;
use ps_frame::value::DataType;
use ps_meaning::options::{ExprIR, OutputName};
use ps_tables::framed::{frame_of_height, shared};
use ps_zip::zips::{Zip, zip_keyed};
use pu_base::{Arena, Node, PlSmallStr};
use std::alloc::Global;

/// The table of an hstack at the node `at`: the columns of a table and those of expressions over it, under the schema
/// that they have there. The column of an expression stands in the place of the table's column of its name, or else
/// behind those of the table. Columns of the table are shared.
///
/// Fails by a fault that breaks the hstack, by `Rows` where a column has too many cells, or for want of memory.
pub fn hstack(
    alloc: Global,
    at: Node,
    exprs: &[ExprIR],
    arena: &Arena<AExpr>,
    df: &DataFrame,
    schema: &Schema,
) -> PolarsResult<DataFrame>
    requires expressions { AllByRecursion IsComplete (key_trees (tree_at arena.now.items) exprs.now) }
    requires fields { option_map (put_fields df.now.schema) (fields_of (named_trees (tree_at arena.now.items) exprs.now) df.now.schema) ≡ Some schema.now }
    requires names_differ { (name : List ℕ) → ¬ IsTrue (repeats name (expr_names (named_trees (tree_at arena.now.items) exprs.now))) }
    ensures table { IfOk result (λ f. (F : Functions) → GivesFrame F at.0 (hstack_step (named_trees (tree_at arena.now.items) exprs.now)) (df.now ∷ []) f) }
    ensures fault { IfErr result (λ e. (F : Functions) → MayFault F at.0 (hstack_step (named_trees (tree_at arena.now.items) exprs.now)) (df.now ∷ []) e) }
{
    // A law: no two fields have one name, so each name has one place.
    df.schema().names_differ();
    // By hand: only memory can be wanting there, and to say so here spares the names a clause on errors.
    let Ok(new) = new_names(alloc, exprs) else {
        return Err(PolarsError::OutOfMemory);
    };
    // By hand: behind the conversion of `?` the proof would lose that this is the very error of the zip.
    match zip_keyed(alloc, at, exprs, arena, df) {
        Ok(zip) => placed(alloc, df.schema(), &new, &zip, schema),
        Err(error) => Err(error),
    }
}

// The names of expressions, of which none stands twice; the kinds don't count.
fn new_names(alloc: Global, exprs: &[ExprIR]) -> PolarsResult<Schema>
    ensures { IfOk result (λ new. names_of new ≡ map (λ (e : AExprIR). name_in e.output_name) exprs.now) }
{
    let mut names = Schema::new(alloc);
    for expr in exprs {
        push_name(alloc, &mut names, name_of(expr))?;
    }
    Ok(names)
}

fn push_name(alloc: Global, names: &mut Schema, name: &PlSmallStr) -> PolarsResult<()>
    ensures { OnOk result (names_of names.new ≡ names_of names.old ++ name.now ∷ []) }
{
    let Ok(name) = name.try_clone(alloc) else {
        return Err(PolarsError::OutOfMemory);
    };
    match names.push(alloc, name, DataType::Boolean) {
        Ok(()) => Ok(()),
        Err(_) => Err(PolarsError::OutOfMemory),
    }
}

fn name_of(expr: &ExprIR) -> &PlSmallStr
    ensures { result.now ≡ name_in expr.now.output_name }
{
    match &expr.output_name {
        OutputName::Alias(name) => name,
        OutputName::ColumnLhs(name) => name,
    }
}

// The table of a zip's columns, each at the place of its name among the old and the new ones.
fn placed(
    alloc: Global,
    old: &Schema,
    new: &Schema,
    zip: &Zip,
    schema: &Schema,
) -> PolarsResult<DataFrame>
    requires places { ArePlaced old.now new.now zip.now.columns.items schema.now }
    requires zip { AllOfHeight zip.now.height zip.now.columns.items × (zip.now.height ≤ max_rows) }
    ensures schema { IfOk result (λ f. f.schema ≡ schema.now) }
    ensures rows { IfOk result (λ f. (columns : List Series) × TakesPlaces old.now new.now zip.now.columns.items schema.now columns × (f.rows ≡ rows_of zip.now.height (column_values columns))) }
    ensures memory { OnErr result (result ≡ Err PolarsError.OutOfMemory) }
{
    // By hand: only memory can be wanting there, and to say so here spares the columns a clause on errors.
    match columns_at_places(alloc, old, new, zip.columns.as_slice(), schema) {
        Ok(columns) => frame_of_height(alloc, schema, columns, zip.height),
        Err(_) => Err(PolarsError::OutOfMemory),
    }
}

// For each field the column at the place of its name.
fn columns_at_places(
    alloc: Global,
    old: &Schema,
    new: &Schema,
    columns: &[Column],
    schema: &Schema,
) -> PolarsResult<Vec<Column>>
    requires { ArePlaced old.now new.now columns.now schema.now }
    ensures { IfOk result (λ out. TakesPlaces old.now new.now columns.now schema.now out.items) }
{
    let mut out = Vec::with_capacity(alloc, schema.len())?;
    for i in 0..schema.len() {
        let place = place_of(schema.name(i), old, new);
        out.push(shared(alloc, &columns[place])?)?;
    }
    Ok(out)
}

// The place of a name: that of the new column, else of the old one.
fn place_of(name: &PlSmallStr, old: &Schema, new: &Schema) -> usize
    requires { place_in old.now new.now name.now < 2 ^ 64 }
    ensures { result ≡ place_in old.now new.now name.now }
{
    match new.index_of(name.as_str()) {
        Some(k) => old.len() + k,
        None => old.index_of(name.as_str()).unwrap_or(0),
    }
}
