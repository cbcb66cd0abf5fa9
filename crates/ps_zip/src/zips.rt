// The zip of a table and expressions.
ghost use Rattle.std.specs.Prelude.{◌≡◌, ◌⊎◌, IfErr, IfOk, MatchResult, None, false, map};
ghost use Rattle.std.specs.List.{AllByRecursion, AllZip};
ghost use Rattle.ps_frame.specs.Tables.{whole};
ghost use Rattle.ps_frame.specs.Trees.{tree_at};
ghost use Rattle.ps_frame.specs.Zip.{zipped};
ghost use Rattle.ps_frame.specs.declared.refusal.PolarsError.TheVariants as error;
ghost use Rattle.ps_frame.specs.declared.value.DataFault.{DataFault as AFault};
ghost use Rattle.ps_meaning.specs.Cases.{columns_at, keyed};
ghost use Rattle.ps_meaning.specs.Errors.{fault_error};
ghost use Rattle.ps_meaning.specs.Steps.{key_trees};
ghost use Rattle.ps_zip.specs.Inputs.{AreSideBySide, CanStand, FitsItsKind, IsColumnAt, IsFaultIn, SomeFaultAt, early_in, ending_in, height_in};
ghost use Rattle.ps_zip.specs.Zips.{AreTypedOver, IsZipError, KeepsZip, expr_kinds, keyed_kinds};

use crate::inputs::{Input, push_exprs, table_inputs};
use ps_expr_eval::lengths::{Ending, count_rows, early_fault};
use ps_frame::column::Column;
use ps_frame::expr::AExpr;
use ps_frame::frame::DataFrame;
use ps_frame::refusal::PolarsResult;
use ps_frame::value::DataFault;
use ps_meaning::faults::fault_at;
use ps_meaning::options::ExprIR;
use pu_base::{Arena, Node};
use std::alloc::{AllocError, Global};

/// Columns of one height.
#[derive(Drop)]
pub struct Zip {
    pub columns: Vec<Column>,
    pub height: usize,
}

/// The columns of a table, and then those of expressions over it, in rows. A column of one cell is
/// repeated where others have another height; else the values of a table's column are shared.
///
/// Fails by a fault at the node `at` that breaks the zip, by `Rows` where an expression's column
/// has too many cells, or for want of memory.
pub fn zip_keyed(
    alloc: Global,
    at: Node,
    exprs: &[ExprIR],
    arena: &Arena<AExpr>,
    df: &DataFrame,
) -> PolarsResult<Zip>
    requires { AreTypedOver df.now.schema (key_trees (tree_at arena.now.items) exprs.now) }
    ensures rows { IfOk result (λ zip. KeepsZip (keyed at.0 (key_trees (tree_at arena.now.items) exprs.now) (whole df.now)) (keyed_kinds df.now.schema (key_trees (tree_at arena.now.items) exprs.now)) zip.columns.items zip.height) }
    ensures error { IfErr result (IsZipError at.0 (key_trees (tree_at arena.now.items) exprs.now) (whole df.now) (keyed at.0 (key_trees (tree_at arena.now.items) exprs.now) (whole df.now))) }
{
    let mut inputs = table_inputs(alloc, df)?;
    push_exprs(alloc, &mut inputs, exprs, arena, df)?;
    zip_inputs(alloc, at, inputs)
}

/// The columns of expressions over a table, alone.
///
/// Fails as `zip_keyed` does.
pub fn zip_exprs(
    alloc: Global,
    at: Node,
    exprs: &[ExprIR],
    arena: &Arena<AExpr>,
    df: &DataFrame,
) -> PolarsResult<Zip>
    requires { AreTypedOver df.now.schema (key_trees (tree_at arena.now.items) exprs.now) }
    ensures rows { IfOk result (λ zip. KeepsZip (zipped false at.0 (columns_at at.0 (key_trees (tree_at arena.now.items) exprs.now) (whole df.now))) (expr_kinds df.now.schema (key_trees (tree_at arena.now.items) exprs.now)) zip.columns.items zip.height) }
    ensures error { IfErr result (IsZipError at.0 (key_trees (tree_at arena.now.items) exprs.now) (whole df.now) (zipped false at.0 (columns_at at.0 (key_trees (tree_at arena.now.items) exprs.now) (whole df.now)))) }
{
    let mut inputs = Vec::with_capacity(alloc, exprs.len())?;
    push_exprs(alloc, &mut inputs, exprs, arena, df)?;
    zip_inputs(alloc, at, inputs)
}

/// Inputs side by side.
///
/// Fails by one of their faults at the node `at`, or for want of memory.
pub fn zip_inputs(alloc: Global, at: Node, inputs: Vec<Input>) -> PolarsResult<Zip>
    requires { AllByRecursion FitsItsKind inputs.items }
    ensures rows { IfOk result (λ zip. AreSideBySide inputs.items zip.columns.items zip.height) }
    ensures error { IfErr result (λ e. (e ≡ error.OutOfMemory) ⊎ ((f : AFault) × (e ≡ fault_error at.0 f) × IsFaultIn inputs.items f)) }
{
    let endings = endings_of(alloc, inputs.as_slice())?;
    let height = count_rows(endings.as_slice());
    match early_fault(endings.as_slice()) {
        Some(fault) => Err(fault_at(at, fault)),
        None => zip_whole(alloc, at, inputs, height),
    }
}

// Inputs side by side that nothing ends early, in so many rows.
fn zip_whole(alloc: Global, at: Node, inputs: Vec<Input>, height: usize) -> PolarsResult<Zip>
    requires fit { AllByRecursion FitsItsKind inputs.items }
    requires whole { early_in inputs.items ≡ None }
    requires rows { height ≡ height_in inputs.items }
    ensures rows { IfOk result (λ zip. AreSideBySide inputs.items zip.columns.items zip.height) }
    ensures error { IfErr result (λ e. (e ≡ error.OutOfMemory) ⊎ ((f : AFault) × (e ≡ fault_error at.0 f) × IsFaultIn inputs.items f)) }
{
    if height > u32::MAX as usize {
        return Err(fault_at(at, DataFault::Rows));
    }
    match columns_in_rows(alloc, inputs, height)? {
        Ok(columns) => Ok(Zip { columns, height }),
        Err(fault) => Err(fault_at(at, fault)),
    }
}

fn endings_of(alloc: Global, inputs: &[Input]) -> Result<Vec<Ending>, AllocError>
    ensures { IfOk result (λ endings. endings.items ≡ map ending_in inputs.now) }
{
    let mut endings = Vec::with_capacity(alloc, inputs.len())?;
    for input in inputs {
        endings.push(input.ending())?;
    }
    Ok(endings)
}

// The column of each input in so many rows, or the fault of the first that has one there.
fn columns_in_rows(
    alloc: Global,
    inputs: Vec<Input>,
    height: usize,
) -> Result<Result<Vec<Column>, DataFault>, AllocError>
    requires { AllByRecursion (CanStand height) inputs.items }
    ensures { IfOk result (λ outcome. MatchResult outcome (λ columns. AllZip (IsColumnAt height) inputs.items columns.items) (SomeFaultAt height inputs.items)) }
{
    let mut columns = Vec::with_capacity(alloc, inputs.len())?;
    for input in inputs {
        match input.at_height(alloc, height)? {
            Ok(column) => columns.push(column)?,
            Err(fault) => return Ok(Err(fault)),
        }
    }
    Ok(Ok(columns))
}
