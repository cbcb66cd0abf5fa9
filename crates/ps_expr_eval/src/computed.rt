// The column of an expression while it is computed.
ghost use Rattle.std.specs.Prelude.{◌≡◌, ◌<◌, drop, take, [], length, option_copied, slice_get, IfOk, IsTrue, MatchResult, Some, None};
ghost use Rattle.ps_expr_eval.specs.Held.{Keeps, Settles, cell_at, cells_of, ending_of, first_bad, held_values, values_of};
ghost use Rattle.ps_expr_eval.specs.Rows.{repeats as repeats_in, seen as seen_cell};
ghost use Rattle.ps_frame.specs.Causes.{whole_column};
ghost use Rattle.ps_frame.specs.Eval.{values_between};
ghost use Rattle.ps_frame.specs.Series.{all_fit};
ghost use Rattle.ps_frame.specs.declared.value.Cell.TheVariants as held;

use crate::growing::as_cells;
use crate::lengths::Ending;
use ps_compute::values::ValueList;
use ps_frame::column::Column;
use ps_frame::value::{Cell, DataFault, DataType, Value};
use std::alloc::{AllocError, Global};

/// Values: those of a column, which are shared, or some of their own.
#[derive(Drop)]
pub enum Values {
    Shared(Column),
    Owned(Vec<Value>),
}

impl Values {
    /// How many values there are.
    pub fn len(&self) -> usize
        ensures { result ≡ length (values_of self.now) }
    {
        match self {
            Values::Shared(column) => column.len(),
            Values::Owned(values) => values.len(),
        }
    }

    /// The value at a place.
    pub fn value(&self, i: usize) -> &Value
        requires { i < length (values_of self.now) }
        ensures { slice_get (values_of self.now) i ≡ Some result.now }
    {
        match self {
            Values::Shared(column) => column.value(i),
            Values::Owned(values) => &values[i],
        }
    }

    /// The first value, if there is one.
    pub fn first(&self) -> Option<&Value>
        ensures { option_copied result ≡ slice_get (values_of self.now) 0 }
    {
        if self.len() == 0 {
            None
        } else {
            Some(self.value(0))
        }
    }

    /// The values from a place on, up to another one; shared ones stay shared.
    ///
    /// Fails only for want of memory.
    pub fn between(&self, alloc: Global, from: usize, to: usize) -> Result<Values, AllocError>
        ensures { IfOk result (λ part. values_of part ≡ values_between from to (values_of self.now)) }
    {
        let count = to.saturating_sub(from);
        match self {
            Values::Shared(column) => Ok(Values::Shared(shared_slice(alloc, column, from, count)?)),
            Values::Owned(values) => Ok(Values::Owned(copy_slice(
                alloc,
                values.as_slice(),
                from,
                count,
            )?)),
        }
    }

    /// Equal values; those of a column stay shared.
    ///
    /// Fails only for want of memory.
    pub fn copy(&self, alloc: Global) -> Result<Values, AllocError>
        ensures { IfOk result (λ copy. values_of copy ≡ values_of self.now) }
    {
        match self {
            Values::Shared(column) => Ok(Values::Shared(shared_column(alloc, column)?)),
            Values::Owned(values) => Ok(Values::Owned(copy_all(alloc, values.as_slice())?)),
        }
    }

    /// Values of their own; shared ones are copied.
    ///
    /// Fails only for want of memory.
    pub fn into_vec(self, alloc: Global) -> Result<Vec<Value>, AllocError>
        ensures { IfOk result (λ values. values.items ≡ values_of self) }
    {
        match self {
            Values::Shared(column) => column_values(alloc, &column),
            Values::Owned(values) => Ok(values),
        }
    }

    /// The column of these values, which are null or of the kind. A shared one of that kind is handed
    /// out as it is.
    ///
    /// Fails only for want of memory.
    pub fn into_column(self, alloc: Global, dtype: DataType) -> Result<Column, AllocError>
        requires { IsTrue (all_fit dtype (values_of self)) }
        ensures { IfOk result (λ column. column ≡ record { kind = dtype; values = values_of self }) }
    {
        match self {
            Values::Shared(column) => column_in_kind(alloc, dtype, column),
            Values::Owned(values) => column_of(alloc, dtype, values),
        }
    }
}

impl ValueList for Values {
    ghost values = { values_of };

    fn len(&self) -> usize {
        self.len()
    }

    fn value(&self, i: usize) -> &Value {
        self.value(i)
    }
}

// The same column, which shares its values.
fn shared_column(alloc: Global, column: &Column) -> Result<Column, AllocError>
    ensures { IfOk result (λ c. c ≡ column.now) }
{
    match column.share(alloc) {
        Ok(column) => Ok(column),
        // It fails for want of memory alone.
        Err(_) => Err(AllocError),
    }
}

// A slice of a column, which shares its values.
fn shared_slice(
    alloc: Global,
    column: &Column,
    from: usize,
    count: usize,
) -> Result<Column, AllocError>
    ensures { IfOk result (λ part. part.values ≡ take count (drop from column.now.values)) }
{
    match column.slice(alloc, from, count) {
        Ok(part) => Ok(part),
        // It fails for want of memory alone.
        Err(_) => Err(AllocError),
    }
}

// The values of a column as a column of a kind: the same column where it has that kind.
fn column_in_kind(alloc: Global, dtype: DataType, column: Column) -> Result<Column, AllocError>
    requires { IsTrue (all_fit dtype column.values) }
    ensures { IfOk result (λ c. c ≡ record { kind = dtype; values = column.values }) }
{
    if column.dtype() == dtype {
        return Ok(column);
    }
    column_of(alloc, dtype, column_values(alloc, &column)?)
}

fn column_of(alloc: Global, dtype: DataType, values: Vec<Value>) -> Result<Column, AllocError>
    requires { IsTrue (all_fit dtype values.items) }
    ensures { IfOk result (λ column. column ≡ record { kind = dtype; values = values.items }) }
{
    match Column::new(alloc, dtype, values) {
        Ok(column) => Ok(column),
        // Values of the kind are refused for want of memory alone.
        Err(_) => Err(AllocError),
    }
}

// Equal values to those of a column.
#[tactic(auto, using(ps_compute::proofs::Listed::take_at))]
fn column_values(alloc: Global, column: &Column) -> Result<Vec<Value>, AllocError>
    ensures { IfOk result (λ copies. copies.items ≡ column.now.values) }
{
    let mut copies = Vec::with_capacity(alloc, column.len())?;
    for i in 0..column.len() {
        copies.push(copy_of(alloc, column.value(i))?)?;
    }
    Ok(copies)
}

fn copy_slice(
    alloc: Global,
    values: &[Value],
    from: usize,
    count: usize,
) -> Result<Vec<Value>, AllocError>
    ensures { IfOk result (λ copies. copies.items ≡ take count (drop from values.now)) }
{
    let from = from.min(values.len());
    let rest = &values[from..];
    copy_all(alloc, &rest[..count.min(rest.len())])
}

/// An equal value. Fails only for want of memory.
pub fn copy_of(alloc: Global, value: &Value) -> Result<Value, AllocError>
    ensures { IfOk result (λ copy. copy ≡ value.now) }
{
    match value.try_clone(alloc) {
        Ok(copy) => Ok(copy),
        // It fails for want of memory alone.
        Err(_) => Err(AllocError),
    }
}

/// Equal values. Fails only for want of memory.
pub fn copy_all(alloc: Global, values: &[Value]) -> Result<Vec<Value>, AllocError>
    ensures { IfOk result (λ copies. copies.items ≡ values.now) }
{
    let mut copies = Vec::with_capacity(alloc, values.len())?;
    for value in values {
        copies.push(copy_of(alloc, value)?)?;
    }
    Ok(copies)
}

/// Cells: values alone, or cells of which some may be faulty.
#[derive(Drop)]
pub enum Cells {
    Whole(Values),
    Mixed(Vec<Cell>),
}

impl Cells {
    /// No cells.
    pub fn new(alloc: Global) -> Cells
        ensures { cells_of result ≡ [] }
    {
        Cells::Whole(Values::Owned(Vec::new(alloc)))
    }

    /// How many cells there are.
    pub fn len(&self) -> usize
        ensures { result ≡ length (cells_of self.now) }
    {
        match self {
            Cells::Whole(values) => values.len(),
            Cells::Mixed(cells) => cells.len(),
        }
    }

    /// The cells one by one; shared values are copied.
    ///
    /// Fails only for want of memory.
    pub fn into_cells(self, alloc: Global) -> Result<Vec<Cell>, AllocError>
        ensures { IfOk result (λ cells. cells.items ≡ cells_of self) }
    {
        match self {
            Cells::Whole(values) => as_cells(alloc, values.into_vec(alloc)?),
            Cells::Mixed(cells) => Ok(cells),
        }
    }

    /// Equal cells; values of a column stay shared.
    ///
    /// Fails only for want of memory.
    pub fn copy(&self, alloc: Global) -> Result<Cells, AllocError>
        ensures { IfOk result (λ copy. cells_of copy ≡ cells_of self.now) }
    {
        match self {
            Cells::Whole(values) => Ok(Cells::Whole(values.copy(alloc)?)),
            Cells::Mixed(cells) => Ok(Cells::Mixed(copy_cells(alloc, cells.as_slice())?)),
        }
    }

    /// The value of the cell at a place, or its fault.
    #[tactic(auto, using(crate::proofs::Parts::cell_of_value))]
    pub fn cell(&self, i: usize) -> Result<&Value, DataFault>
        requires { i < length (cells_of self.now) }
        ensures { seen_cell result ≡ cell_at (cells_of self.now) i }
    {
        match self {
            Cells::Whole(values) => Ok(values.value(i)),
            Cells::Mixed(cells) => seen(&cells[i]),
        }
    }
}

fn copy_cells(alloc: Global, cells: &[Cell]) -> Result<Vec<Cell>, AllocError>
    ensures { IfOk result (λ copies. copies.items ≡ cells.now) }
{
    let mut copies = Vec::with_capacity(alloc, cells.len())?;
    for cell in cells {
        copies.push(copy_cell(alloc, cell)?)?;
    }
    Ok(copies)
}

fn copy_cell(alloc: Global, cell: &Cell) -> Result<Cell, AllocError>
    ensures { IfOk result (λ copy. copy ≡ cell.now) }
{
    match cell {
        Cell::Val(value) => Ok(Cell::Val(copy_of(alloc, value)?)),
        Cell::Bad(fault) => Ok(Cell::Bad(*fault)),
    }
}

fn seen(cell: &Cell) -> Result<&Value, DataFault>
    ensures { seen_cell result ≡ cell.now }
{
    match cell {
        Cell::Val(value) => Ok(value),
        Cell::Bad(fault) => Err(*fault),
    }
}

/// A column: its kind, its cells, and a fault that ended it early.
#[derive(Drop)]
pub struct ComputedColumn {
    pub dtype: DataType,
    pub cells: Cells,
    pub fault: Option<DataFault>,
}

impl ComputedColumn {
    /// How it ends.
    pub fn ending(&self) -> Ending
        ensures { result ≡ ending_of self.now }
    {
        Ending {
            fault: self.fault,
            len: self.cells.len(),
        }
    }

    /// Whether its only cell stands in each row.
    pub fn repeats(&self) -> bool
        ensures { result ≡ repeats_in self.now }
    {
        self.ending().repeats()
    }

    /// An equal column, whose values stay shared where they are those of another one.
    ///
    /// Fails only for want of memory.
    pub fn copy(&self, alloc: Global) -> Result<ComputedColumn, AllocError>
        ensures kind { IfOk result (λ copy. copy.dtype ≡ self.now.dtype) }
        ensures cells { IfOk result (λ copy. cells_of copy.cells ≡ cells_of self.now.cells) }
        ensures fault { IfOk result (λ copy. copy.fault ≡ self.now.fault) }
    {
        Ok(ComputedColumn {
            dtype: self.dtype,
            cells: self.cells.copy(alloc)?,
            fault: self.fault,
        })
    }

    /// Its values where nothing is faulty, and else one of its faults.
    ///
    /// The outer result fails only for want of memory.
    pub fn settled(self, alloc: Global) -> Result<Result<Values, DataFault>, AllocError>
        ensures { IfOk result (Settles self) }
    {
        match self.fault {
            Some(fault) => Ok(Err(fault)),
            None => settled_cells(alloc, self.cells),
        }
    }
}

#[tactic(auto, using(crate::proofs::Parts::no_bad, crate::proofs::Parts::all_values))]
fn settled_cells(alloc: Global, cells: Cells) -> Result<Result<Values, DataFault>, AllocError>
    ensures { IfOk result (λ outcome. MatchResult outcome (λ values. (first_bad (cells_of cells) ≡ None) × (values_of values ≡ held_values (cells_of cells))) (λ fault. first_bad (cells_of cells) ≡ Some fault)) }
{
    match cells {
        Cells::Whole(values) => Ok(Ok(values)),
        Cells::Mixed(cells) => match fault_among(cells.as_slice()) {
            Some(fault) => Ok(Err(fault)),
            None => Ok(Ok(Values::Owned(values_among(alloc, cells)?))),
        },
    }
}

fn fault_among(cells: &[Cell]) -> Option<DataFault>
    ensures { result ≡ first_bad cells.now }
{
    for cell in cells {
        if let Cell::Bad(fault) = cell {
            return Some(*fault);
        }
    }
    None
}

#[tactic(auto, using(crate::proofs::Parts::held_values_push))]
fn values_among(alloc: Global, cells: Vec<Cell>) -> Result<Vec<Value>, AllocError>
    ensures { IfOk result (λ values. values.items ≡ held_values cells.items) }
{
    let mut values = Vec::with_capacity(alloc, cells.len())?;
    for cell in cells {
        if let Cell::Val(value) = cell {
            values.push(value)?;
        }
    }
    Ok(values)
}

/// A column of these values, without a fault.
pub fn computed_whole(dtype: DataType, values: Vec<Value>) -> ComputedColumn
    ensures dtype { result.dtype ≡ dtype }
    ensures kept { Keeps result (whole_column values.items) }
{
    ComputedColumn {
        dtype,
        cells: Cells::Whole(Values::Owned(values)),
        fault: None,
    }
}

/// A column without cells that a fault ended.
pub fn computed_ended(alloc: Global, dtype: DataType, fault: DataFault) -> ComputedColumn
    ensures dtype { result.dtype ≡ dtype }
    ensures cells { cells_of result.cells ≡ [] }
    ensures fault { result.fault ≡ Some fault }
{
    ComputedColumn {
        dtype,
        cells: Cells::new(alloc),
        fault: Some(fault),
    }
}
