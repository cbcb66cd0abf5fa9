// The columns of keys at the first rows of their groups.
ghost use Rattle.std.specs.Prelude.{◌≡◌, ◌<◌, ◌≤◌, ◌+◌, IfOk, OnOk, length, map, take};
ghost use Rattle.std.specs.List.{All};
ghost use Rattle.ps_frame.specs.Aggregates.{max_rows};
ghost use Rattle.ps_frame.specs.Frames.{IsFrame, column_values};
ghost use Rattle.ps_frame.specs.Gathered.{gathered as gathered_series};
ghost use Rattle.ps_frame.specs.Tables.{rows_of};

use ps_frame::column::Column;
use ps_frame::frame::DataFrame;
use ps_frame::schema::Schema;
use ps_rows::gathered::gathered;
use std::alloc::{AllocError, Global};

/// Columns of one height at some rows. They share one list of places. The first fields of the schema are theirs.
///
/// Fails only for want of memory.
pub(crate) fn gathered_columns(
    alloc: Global,
    columns: &[Column],
    schema: &Schema,
    height: usize,
    rows: &[usize],
) -> Result<Vec<Column>, AllocError>
    requires width { length columns.now ≤ length schema.now }
    requires fields { IsFrame (take (length columns.now) schema.now) columns.now height }
    requires there { All (λ i. i < height) rows.now }
    requires few { length rows.now ≤ max_rows }
    ensures { IfOk result (λ out. out.items ≡ map (gathered_series rows.now) columns.now) }
{
    let table = table_under(alloc, columns, schema, height)?;
    let picked = gathered(alloc, &table, rows)?;
    let out = columns_of(alloc, &picked)?;
    Ok(out)
}

// The table of columns under the first fields of a schema.
fn table_under(
    alloc: Global,
    columns: &[Column],
    schema: &Schema,
    height: usize,
) -> Result<DataFrame, AllocError>
    requires width { length columns.now ≤ length schema.now }
    requires fields { IsFrame (take (length columns.now) schema.now) columns.now height }
    ensures schema { IfOk result (λ f. f.schema ≡ take (length columns.now) schema.now) }
    ensures rows { IfOk result (λ f. f.rows ≡ rows_of height (column_values columns.now)) }
{
    let fields = first_fields(alloc, schema, columns.len())?;
    let own = all_shared(alloc, columns)?;
    Ok(DataFrame::new_with_height(alloc, fields, own, height))
}

// So many of the first fields of a schema.
fn first_fields(alloc: Global, schema: &Schema, count: usize) -> Result<Schema, AllocError>
    requires { count ≤ length schema.now }
    ensures { IfOk result (λ fields. fields ≡ take count schema.now) }
{
    let mut fields = Schema::new(alloc);
    for i in 0..count {
        add_field(alloc, schema, i, &mut fields)?;
    }
    Ok(fields)
}

// Adds the next field of a schema to those before it.
fn add_field(
    alloc: Global,
    schema: &Schema,
    i: usize,
    fields: &mut Schema,
) -> Result<(), AllocError>
    requires within { i < length schema.now }
    requires before { fields.old ≡ take i schema.now }
    ensures { OnOk result (fields.new ≡ take (i + 1) schema.now) }
{
    // By hand, here and below: these errors don't convert by `?`. Each is want of memory, since no name of the schema
    // stands twice.
    let Ok(name) = schema.name(i).try_clone(alloc) else {
        return Err(AllocError);
    };
    let Ok(()) = fields.push(alloc, name, schema.kind(i)) else {
        return Err(AllocError);
    };
    Ok(())
}

// The columns of a table.
fn columns_of(alloc: Global, df: &DataFrame) -> Result<Vec<Column>, AllocError>
    ensures fields { IfOk result (λ columns. IsFrame df.now.schema columns.items (length df.now.rows)) }
    ensures rows { IfOk result (λ columns. df.now.rows ≡ rows_of (length df.now.rows) (column_values columns.items)) }
{
    let columns = all_shared(alloc, df.get_columns())?;
    Ok(columns)
}

// The same columns; their values are not copied.
fn all_shared(alloc: Global, columns: &[Column]) -> Result<Vec<Column>, AllocError>
    ensures { IfOk result (λ out. out.items ≡ columns.now) }
{
    let mut out = Vec::with_capacity(alloc, columns.len())?;
    for column in columns {
        out.push(shared(alloc, column)?)?;
    }
    Ok(out)
}

fn shared(alloc: Global, column: &Column) -> Result<Column, AllocError>
    ensures { IfOk result (λ c. c ≡ column.now) }
{
    match column.share(alloc) {
        Ok(column) => Ok(column),
        Err(_) => Err(AllocError),
    }
}
