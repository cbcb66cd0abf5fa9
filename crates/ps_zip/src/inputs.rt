// What a zip takes.
ghost use Rattle.std.specs.Prelude.{◌≡◌, ◌≤◌, ◌++◌, [], IfOk, IsTrue, MatchResult, OnOk, length, map};
ghost use Rattle.std.specs.List.{AllByRecursion, AllZip};
ghost use Rattle.ps_frame.specs.Aggregates.{max_rows};
ghost use Rattle.ps_frame.specs.Frames.{broadcast_to, kinds_of};
ghost use Rattle.ps_frame.specs.Tables.{columns_of, whole};
ghost use Rattle.ps_frame.specs.Trees.{tree_at};
ghost use Rattle.ps_frame.specs.Series.{all_fit};
ghost use Rattle.ps_meaning.specs.Steps.{key_trees};
ghost use Rattle.ps_meaning.specs.declared.options.ExprIR.{ExprIR as AnExpr};
ghost use Rattle.ps_zip.specs.Inputs.{AddsExprs, CanStand, FitsItsKind, HasFaultAt, Holds, IsColumnAt, ending_in, kind_in};
ghost use Rattle.ps_zip.specs.Zips.{AreTypedOver};
ghost use Rattle.ps_zip.specs.declared.inputs.Input.TheVariants as input;

use ps_expr_eval::computed::ComputedColumn;
use ps_expr_eval::evaluate::parts_of;
use ps_expr_eval::lengths::Ending;
use ps_frame::column::Column;
use ps_frame::expr::AExpr;
use ps_frame::frame::DataFrame;
use ps_frame::value::{DataFault, DataType};
use ps_meaning::options::ExprIR;
use ps_tables::fits::table_fits;
use pu_base::{Arena, Node};
use std::alloc::{AllocError, Global};

/// A column of the table, or one that was computed.
#[derive(Drop)]
pub enum Input {
    Table(Column),
    Computed(ComputedColumn),
}

impl Input {
    /// How it ends.
    pub fn ending(&self) -> Ending
        ensures { result ≡ ending_in self.now }
    {
        match self {
            Input::Table(column) => Ending {
                fault: None,
                len: column.len(),
            },
            Input::Computed(part) => part.ending(),
        }
    }

    /// Its column in so many rows, in each of which its only cell stands where it has one; or the
    /// fault of its first faulty cell there.
    ///
    /// The outer result fails only for want of memory.
    pub fn at_height(
        self,
        alloc: Global,
        height: usize,
    ) -> Result<Result<Column, DataFault>, AllocError>
        requires { CanStand height self }
        ensures { IfOk result (λ outcome. MatchResult outcome (IsColumnAt height self) (HasFaultAt height self)) }
    {
        match self {
            Input::Table(column) => Ok(Ok(repeated(alloc, &column, height)?)),
            Input::Computed(part) => computed_at_height(alloc, part, height),
        }
    }
}

fn computed_at_height(
    alloc: Global,
    part: ComputedColumn,
    height: usize,
) -> Result<Result<Column, DataFault>, AllocError>
    requires { CanStand height (input.Computed part) }
    ensures { IfOk result (λ outcome. MatchResult outcome (IsColumnAt height (input.Computed part)) (HasFaultAt height (input.Computed part))) }
{
    let dtype = part.dtype;
    if height == 0 {
        return Ok(Ok(empty(alloc, dtype)?));
    }
    let outcome = part.settled(alloc)?;
    match outcome {
        Ok(values) => {
            let column = values.into_column(alloc, dtype)?;
            Ok(Ok(repeated(alloc, &column, height)?))
        }
        Err(fault) => Ok(Err(fault)),
    }
}

fn empty(alloc: Global, dtype: DataType) -> Result<Column, AllocError>
    ensures { IfOk result (λ column. column ≡ record { kind = dtype; values = [] }) }
{
    match Column::empty(alloc, dtype) {
        Ok(column) => Ok(column),
        Err(_) => Err(AllocError),
    }
}

// A column at a height: its value is repeated where it has only one.
fn repeated(alloc: Global, column: &Column, height: usize) -> Result<Column, AllocError>
    ensures { IfOk result (λ c. c ≡ broadcast_to height column.now) }
{
    match column.broadcast(alloc, height) {
        Ok(column) => Ok(column),
        Err(_) => Err(AllocError),
    }
}

/// The columns of a table, in order; their values are shared.
///
/// Fails only for want of memory.
pub fn table_inputs(alloc: Global, df: &DataFrame) -> Result<Vec<Input>, AllocError>
    ensures columns { IfOk result (λ inputs. AllZip Holds inputs.items (columns_of (whole df.now))) }
    ensures kinds { IfOk result (λ inputs. map kind_in inputs.items ≡ kinds_of df.now.schema) }
    ensures fit { IfOk result (λ inputs. AllByRecursion FitsItsKind inputs.items) }
    ensures small { length df.now.rows ≤ max_rows }
{
    columns_inputs(alloc, df.get_columns())
}

fn columns_inputs(alloc: Global, columns: &[Column]) -> Result<Vec<Input>, AllocError>
    ensures shared { IfOk result (λ inputs. inputs.items ≡ map input.Table columns.now) }
    ensures fit { IfOk result (λ inputs. AllByRecursion FitsItsKind inputs.items) }
{
    let mut inputs = Vec::with_capacity(alloc, columns.len())?;
    for column in columns {
        inputs.push(table_input(alloc, column)?)?;
    }
    Ok(inputs)
}

fn table_input(alloc: Global, column: &Column) -> Result<Input, AllocError>
    ensures shared { IfOk result (λ i. i ≡ input.Table column.now) }
    ensures fits { IsTrue (all_fit column.now.kind column.now.values) }
{
    // A law: the values that are shared are of the kind.
    column.values_fit();
    match column.share(alloc) {
        Ok(column) => Ok(Input::Table(column)),
        Err(_) => Err(AllocError),
    }
}

/// Adds what expressions over a table give, in order. What stands in them more than once is computed
/// once, in whichever of them it stands.
///
/// Fails only for want of memory; some may then have been added.
pub fn push_exprs(
    alloc: Global,
    inputs: &mut Vec<Input>,
    exprs: &[ExprIR],
    arena: &Arena<AExpr>,
    df: &DataFrame,
) -> Result<(), AllocError>
    requires { AreTypedOver df.now.schema (key_trees (tree_at arena.now.items) exprs.now) }
    ensures { OnOk result (AddsExprs df.now (key_trees (tree_at arena.now.items) exprs.now) inputs.old.items inputs.new.items) }
{
    // A law: over a table whose values are of its kinds a column comes out of the kind of its expression.
    table_fits(df);
    let nodes = nodes_of(alloc, exprs)?;
    let parts = parts_of(alloc, nodes.as_slice(), arena, df)?;
    push_parts(inputs, parts)?;
    Ok(())
}

fn nodes_of(alloc: Global, exprs: &[ExprIR]) -> Result<Vec<Node>, AllocError>
    ensures { IfOk result (λ nodes. nodes.items ≡ map (λ (e : AnExpr). e.node) exprs.now) }
{
    exprs.iter().map(|expr| expr.node).collect(alloc)
}

fn push_parts(inputs: &mut Vec<Input>, parts: Vec<ComputedColumn>) -> Result<(), AllocError>
    ensures { OnOk result (inputs.new.items ≡ inputs.old.items ++ map input.Computed parts.items) }
{
    for part in parts {
        inputs.push(Input::Computed(part))?;
    }
    Ok(())
}
