// Tables of whole numbers.
ghost use Rattle.std.specs.Prelude.{◌≡◌, IfOk};
ghost use Rattle.run_part_trials.specs.Tested.{numbers_alone};

use ps_frame::column::Column;
use ps_frame::frame::DataFrame;
use ps_frame::schema::Schema;
use ps_frame::value::{DataType, Value};
use pu_base::PlSmallStr;
use std::alloc::Global;
use std::test::Fail;

/// Whole numbers, under the name a.
pub fn schema_of(alloc: Global) -> Result<Schema, Fail>
    ensures { IfOk result (λ s. s ≡ numbers_alone) }
{
    let mut schema = Schema::new(alloc);
    schema.push(alloc, PlSmallStr::from_str(alloc, "a")?, DataType::Int64)?;
    Ok(schema)
}

/// A table of the numbers.
pub fn table_of(alloc: Global, numbers: &[i64]) -> Result<DataFrame, Fail>
    ensures { IfOk result (λ f. f.schema ≡ numbers_alone) }
{
    let columns = columns_of(alloc, numbers)?;
    Ok(DataFrame::new(alloc, schema_of(alloc)?, columns)?)
}

fn columns_of(alloc: Global, numbers: &[i64]) -> Result<Vec<Column>, Fail> {
    let mut values = Vec::new(alloc);
    for number in numbers {
        values.push(Value::Int64(*number))?;
    }
    Ok(vec![in alloc; Column::new(alloc, DataType::Int64, values)?]?)
}

/// The numbers of a column of a table, whether row numbers or others; no column has none.
pub fn numbers_of(alloc: Global, table: &DataFrame, column: usize) -> Result<Vec<i64>, Fail> {
    let mut numbers = Vec::new(alloc);
    if column < table.get_columns().len() {
        let column = &table.get_columns()[column];
        for row in 0..column.len() {
            match column.value(row) {
                Value::Int64(number) => numbers.push(*number)?,
                Value::IdxSize(number) => numbers.push(*number as i64)?,
                _ => return Err(Fail::from("no number")),
            }
        }
    }
    Ok(numbers)
}

/// Whether a table's first column has these numbers.
pub fn has_numbers(alloc: Global, table: &DataFrame, wanted: &[i64]) -> Result<bool, Fail> {
    let numbers = numbers_of(alloc, table, 0)?;
    Ok(numbers.as_slice() == wanted)
}
