// Tables made of columns.
ghost use Rattle.std.specs.Prelude.{◌≡◌, Err, IfOk, IsTrue, OnErr};
ghost use Rattle.ps_frame.specs.Frames.{IsFrame, column_values};
ghost use Rattle.ps_frame.specs.Tables.{rows_of};
ghost use Rattle.ps_frame.specs.Series.{all_fit};

use ps_frame::column::Column;
use ps_frame::frame::DataFrame;
use ps_frame::refusal::{PolarsError, PolarsResult};
use ps_frame::schema::Schema;
use ps_frame::value::{DataType, Value};
use std::alloc::Global;

/// The table of columns of one height, one for each field of a schema.
///
/// Fails only for want of memory.
pub fn frame_of_height(
    alloc: Global,
    schema: &Schema,
    columns: Vec<Column>,
    height: usize,
) -> PolarsResult<DataFrame>
    requires { IsFrame schema.now columns.items height }
    ensures schema { IfOk result (λ f. f.schema ≡ schema.now) }
    ensures rows { IfOk result (λ f. f.rows ≡ rows_of height (column_values columns.items)) }
    ensures memory { OnErr result (result ≡ Err PolarsError.OutOfMemory) }
{
    match schema.try_share(alloc) {
        Ok(schema) => Ok(DataFrame::new_with_height(alloc, schema, columns, height)),
        Err(_) => Err(PolarsError::OutOfMemory),
    }
}

/// A column of values that are null or of the kind.
///
/// Fails only for want of memory.
pub fn column_of_values(alloc: Global, dtype: DataType, values: Vec<Value>) -> PolarsResult<Column>
    requires { IsTrue (all_fit dtype values.items) }
    ensures made { IfOk result (λ c. c ≡ record { kind = dtype; values = values.items }) }
    ensures memory { OnErr result (result ≡ Err PolarsError.OutOfMemory) }
{
    match Column::new(alloc, dtype, values) {
        Ok(column) => Ok(column),
        Err(_) => Err(PolarsError::OutOfMemory),
    }
}

/// The same column; its values are not copied.
///
/// Fails only for want of memory.
pub fn shared(alloc: Global, column: &Column) -> PolarsResult<Column>
    ensures same { IfOk result (λ c. c ≡ column.now) }
    ensures memory { OnErr result (result ≡ Err PolarsError.OutOfMemory) }
{
    match column.share(alloc) {
        Ok(column) => Ok(column),
        Err(_) => Err(PolarsError::OutOfMemory),
    }
}
