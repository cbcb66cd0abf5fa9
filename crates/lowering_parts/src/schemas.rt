//! Schemas of the nodes that a lowering makes.
ghost use Rattle.std.specs.Prelude.{◌≡◌, ◌↔◌, ◌++◌, ◌<◌, ◌∷◌, [], Err, IfOk, IsTrue, OnErr, OnOk, Some, length};
ghost use Rattle.ps_frame.specs.Tables.{field_kind};
ghost use Rattle.ps_frame.specs.declared.value.DataType.{DataType as AKind};
ghost use Rattle.ps_rules.specs.Slots.{same_names};
ghost use Rattle.std.specs.List.{AllByRecursion};
ghost use Rattle.ps_frame.specs.Trees.{IsComplete, tree_at};
ghost use Rattle.ps_frame.specs.declared.refusal.PolarsError.{PolarsError};
ghost use Rattle.ps_meaning.specs.Schemas.{fields_of, named_fields, names_of};
ghost use Rattle.ps_meaning.specs.Steps.{exprs_of, named_trees};

use crate::names::copied;
use ps_frame::expr::AExpr;
use ps_frame::refusal::{PolarsError, PolarsResult};
use ps_frame::schema::Schema;
use ps_frame::value::DataType;
use ps_meaning::options::ExprIR;
use pu_base::{Arena, Node, PlSmallStr, Steps};
use std::alloc::Global;
use std::marker::Brand;
use std::sync::ledger::{Blank, Ledger};
use valid_plans::fields::push_typed;

/// The schema of named expressions over another one.
///
/// In a lowering each expression has a kind and no name stands twice, so it fails only for want of memory.
pub fn selected_schema(
    alloc: Global,
    input: &Schema,
    exprs: &[ExprIR],
    arena: &Arena<AExpr>,
) -> PolarsResult<Schema>
    requires whole { AllByRecursion IsComplete (exprs_of (named_trees (tree_at arena.now.items) exprs.now)) }
    ensures schema { IfOk result (λ schema. fields_of (named_trees (tree_at arena.now.items) exprs.now) input.now ≡ Some schema) }
    ensures memory { OnErr result (result ≡ Err PolarsError.OutOfMemory) }
{
    counted_schema::<Brand>(alloc, Blank::new(1), input, exprs, arena)
}

fn counted_schema<L: Ledger>(
    alloc: Global,
    blank: Blank,
    input: &Schema,
    exprs: &[ExprIR],
    arena: &Arena<AExpr>,
) -> PolarsResult<Schema>
    requires name { blank.name ≡ L.name }
    requires parts { blank.parts ≡ L.parts }
    requires some { 0 < L.parts }
    requires whole { AllByRecursion IsComplete (exprs_of (named_trees (tree_at arena.now.items) exprs.now)) }
    ensures schema { IfOk result (λ schema. fields_of (named_trees (tree_at arena.now.items) exprs.now) input.now ≡ Some schema) }
    ensures memory { OnErr result (result ≡ Err PolarsError.OutOfMemory) }
{
    let mut steps = Steps::<L>::new(blank);
    let mut schema = Schema::new(alloc);
    // No refusal comes, since each expression has a kind and no name stands twice: what fails is want of memory.
    match push_typed(alloc, Node(0), exprs, arena, input, &mut schema, &mut steps) {
        Ok(_) => Ok(schema),
        Err(_error) => Err(PolarsError::OutOfMemory),
    }
}

/// The schema of some of the columns of another one, which has them all.
///
/// Fails only for want of memory.
pub fn projected_schema(alloc: Global, input: &Schema, names: &[PlSmallStr]) -> PolarsResult<Schema>
    ensures schema { IfOk result (λ schema. named_fields names.now input.now ≡ Some schema) }
    ensures memory { OnErr result (result ≡ Err PolarsError.OutOfMemory) }
{
    let mut schema = Schema::new(alloc);
    for name in names {
        push_column(alloc, input, name, &mut schema)?;
    }
    Ok(schema)
}

// One more column of another schema, which has it.
fn push_column(
    alloc: Global,
    input: &Schema,
    name: &PlSmallStr,
    schema: &mut Schema,
) -> PolarsResult<()>
    ensures added { OnOk result ((k : AKind) × (field_kind name.now input.now ≡ Some k) × (schema.new ≡ schema.old ++ (name.now, k) ∷ [])) }
    ensures memory { OnErr result (result ≡ Err PolarsError.OutOfMemory) }
{
    // In a lowering the column is there, and stands once.
    let Some(place) = input.index_of(name.as_str()) else {
        return Err(PolarsError::OutOfMemory);
    };
    push_new(alloc, schema, copied(alloc, name)?, input.kind(place))
}

// One more field, whose name is new in a lowering.
fn push_new(
    alloc: Global,
    schema: &mut Schema,
    name: PlSmallStr,
    dtype: DataType,
) -> PolarsResult<()>
    ensures added { OnOk result (schema.new ≡ schema.old ++ (name, dtype) ∷ []) }
    ensures memory { OnErr result (result ≡ Err PolarsError.OutOfMemory) }
{
    match schema.push(alloc, name, dtype) {
        Ok(()) => Ok(()),
        Err(_error) => Err(PolarsError::OutOfMemory),
    }
}

/// Adds the fields of another schema, none of whose names is there.
///
/// Fails only for want of memory.
pub fn push_all(alloc: Global, schema: &mut Schema, other: &Schema) -> PolarsResult<()>
    ensures added { OnOk result (schema.new ≡ schema.old ++ other.now) }
    ensures memory { OnErr result (result ≡ Err PolarsError.OutOfMemory) }
{
    for i in 0..other.len() {
        push_new(alloc, schema, copied(alloc, other.name(i))?, other.kind(i))?;
    }
    Ok(())
}

/// An equal schema.
///
/// Fails only for want of memory.
pub fn cloned(alloc: Global, schema: &Schema) -> PolarsResult<Schema>
    ensures same { IfOk result (λ s. s ≡ schema.now) }
    ensures memory { OnErr result (result ≡ Err PolarsError.OutOfMemory) }
{
    match schema.try_clone(alloc) {
        Ok(schema) => Ok(schema),
        Err(_error) => Err(PolarsError::OutOfMemory),
    }
}

/// Whether names are those of a schema, in order.
pub fn are_names_of(names: &[PlSmallStr], schema: &Schema) -> bool
    ensures { result ≡ same_names names.now (names_of schema.now) }
{
    if !are_as_many(names, schema) {
        return false;
    }
    for i in 0..names.len() {
        if !names[i].eq_str(schema.name(i).as_str()) {
            return false;
        }
    }
    true
}

fn are_as_many(names: &[PlSmallStr], schema: &Schema) -> bool
    ensures { IsTrue result ↔ (length names.now ≡ length schema.now) }
{
    names.len() == schema.len()
}
