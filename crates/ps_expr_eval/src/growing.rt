// Cells that grow at their end.
ghost use Rattle.std.specs.Prelude.{◌≡◌, ◌++◌, ◌∷◌, [], map, IfOk, OnOk};
ghost use Rattle.ps_expr_eval.specs.Held.{cells_grown, cells_of};
ghost use Rattle.ps_frame.specs.Pushed.{with_value};
ghost use Rattle.ps_frame.specs.declared.value.Cell.TheVariants as held;

use crate::computed::{Cells, Values};
use ps_frame::builder::ColumnBuilder;
use ps_frame::column::Column;
use ps_frame::value::{Cell, DataType, Value};
use std::alloc::{AllocError, Global};
use std::mem;

/// Cells that grow at their end: values of a kind of which few differ, or values of which most do, alone
/// until the first cell comes that is faulty or not of that kind.
#[derive(Drop)]
pub enum Growing {
    Column(ColumnBuilder, DataType),
    Values(Vec<Value>),
    Cells(Vec<Cell>),
}

impl Growing {
    /// No cells yet, whose values are to be of this kind, and few of which are likely to differ. They take
    /// no memory.
    pub fn of_few(alloc: Global, dtype: DataType) -> Growing
        ensures { cells_grown result ≡ [] }
    {
        Growing::Column(ColumnBuilder::new(alloc, dtype), dtype)
    }

    /// No cells yet, with room for so many values, most of which are likely to differ. Fails only for want
    /// of memory.
    pub fn of_many(alloc: Global, capacity: usize) -> Result<Growing, AllocError>
        ensures { IfOk result (λ growing. cells_grown growing ≡ []) }
    {
        Ok(Growing::Values(Vec::with_capacity(alloc, capacity)?))
    }

    /// Adds a cell at the end. Fails only for want of memory.
    pub fn push(&mut self, alloc: Global, cell: Cell) -> Result<(), AllocError>
        ensures { OnOk result (cells_grown self.new ≡ cells_grown self.old ++ cell ∷ []) }
    {
        match cell {
            Cell::Val(value) => self.push_value(alloc, value),
            Cell::Bad(fault) => self.push_apart(alloc, Cell::Bad(fault)),
        }
    }

    /// Adds a value at the end. Fails only for want of memory.
    pub fn push_value(&mut self, alloc: Global, value: Value) -> Result<(), AllocError>
        ensures { OnOk result (cells_grown self.new ≡ cells_grown self.old ++ held.Val value ∷ []) }
    {
        if !self.takes(&value) {
            return self.push_apart(alloc, Cell::Val(value));
        }
        match self {
            Growing::Column(column, _) => push_in(alloc, column, value)?,
            Growing::Values(values) => values.push(value)?,
            Growing::Cells(cells) => cells.push(Cell::Val(value))?,
        }
        Ok(())
    }

    // Whether a value may stand among the others as it is.
    fn takes(&self, value: &Value) -> bool {
        match self {
            Growing::Column(_, dtype) => value.fits(*dtype),
            Growing::Values(_) | Growing::Cells(_) => true,
        }
    }

    // Adds a cell, and holds all of them as cells from here on.
    fn push_apart(&mut self, alloc: Global, cell: Cell) -> Result<(), AllocError>
        ensures { OnOk result (cells_grown self.new ≡ cells_grown self.old ++ cell ∷ []) }
    {
        let before = mem::replace(self, Growing::Cells(Vec::new(alloc)));
        let mut cells = before.into_cells(alloc)?;
        cells.push(cell)?;
        *self = Growing::Cells(cells);
        Ok(())
    }

    fn into_cells(self, alloc: Global) -> Result<Vec<Cell>, AllocError>
        ensures { IfOk result (λ cells. cells.items ≡ cells_grown self) }
    {
        match self {
            Growing::Column(column, _) => {
                Cells::Whole(Values::Shared(finished(alloc, column)?)).into_cells(alloc)
            }
            Growing::Values(values) => as_cells(alloc, values),
            Growing::Cells(cells) => Ok(cells),
        }
    }

    /// The cells. Fails only for want of memory.
    pub fn finish(self, alloc: Global) -> Result<Cells, AllocError>
        ensures { IfOk result (λ cells. cells_of cells ≡ cells_grown self) }
    {
        match self {
            Growing::Column(column, _) => {
                Ok(Cells::Whole(Values::Shared(finished(alloc, column)?)))
            }
            Growing::Values(values) => Ok(Cells::Whole(Values::Owned(values))),
            Growing::Cells(cells) => Ok(Cells::Mixed(cells)),
        }
    }
}

fn push_in(alloc: Global, column: &mut ColumnBuilder, value: Value) -> Result<(), AllocError>
    ensures { OnOk result (column.new ≡ with_value column.old value) }
{
    match column.push(alloc, value) {
        Ok(()) => Ok(()),
        // The value fits the kind, as `takes` saw, so this is want of memory.
        Err(_) => Err(AllocError),
    }
}

fn finished(alloc: Global, column: ColumnBuilder) -> Result<Column, AllocError>
    ensures { IfOk result (λ c. c ≡ column) }
{
    match column.finish(alloc) {
        Ok(column) => Ok(column),
        // It fails for want of memory alone.
        Err(_) => Err(AllocError),
    }
}

/// The cells of these values. Fails only for want of memory.
pub fn as_cells(alloc: Global, values: Vec<Value>) -> Result<Vec<Cell>, AllocError>
    ensures { IfOk result (λ cells. cells.items ≡ map held.Val values.items) }
{
    let mut cells = Vec::with_capacity(alloc, values.len())?;
    for value in values {
        cells.push(Cell::Val(value))?;
    }
    Ok(cells)
}
