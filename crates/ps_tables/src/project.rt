// The named columns of a table.
ghost use Rattle.std.specs.Prelude.{◌≡◌, ◌∷◌, [], Err, IfOk, IsSome, OnErr, Some, map, unwrap_or, ℕ};
ghost use Rattle.ps_frame.specs.Frames.{HasKinds, column_values};
ghost use Rattle.ps_frame.specs.Functions.{Functions};
ghost use Rattle.ps_frame.specs.Tables.{field_index, field_kind, values_at};
ghost use Rattle.ps_meaning.specs.Distinct.{places_in};
ghost use Rattle.ps_meaning.specs.Nodes.{GivesFrame};
ghost use Rattle.ps_meaning.specs.Schemas.{named_fields};
ghost use Rattle.ps_meaning.specs.Steps.{project as project_step, scan as scan_step};

use crate::framed::{frame_of_height, shared};
use ps_frame::column::Column;
use ps_frame::frame::DataFrame;
use ps_frame::refusal::{PolarsError, PolarsResult};
use ps_frame::schema::Schema;
use pu_base::PlSmallStr;
use std::alloc::Global;

/// The named columns of a table, in the order of the names, under the schema that they have there: the table of a scan
/// that names columns, and of a projection. The values are not copied.
///
/// Fails only for want of memory.
pub fn project(
    alloc: Global,
    df: &DataFrame,
    names: &[PlSmallStr],
    schema: &Schema,
) -> PolarsResult<DataFrame>
    requires { named_fields names.now df.now.schema ≡ Some schema.now }
    ensures scan { IfOk result (λ f. (F : Functions) (at : ℕ) → GivesFrame F at (scan_step df.now (Some names.now)) [] f) }
    ensures projection { IfOk result (λ f. (F : Functions) (at : ℕ) → GivesFrame F at (project_step names.now) (df.now ∷ []) f) }
    ensures memory { OnErr result (result ≡ Err PolarsError.OutOfMemory) }
{
    let columns = named_columns(alloc, df, names, schema)?;
    frame_of_height(alloc, schema, columns, df.height())
}

fn named_columns(
    alloc: Global,
    df: &DataFrame,
    names: &[PlSmallStr],
    schema: &Schema,
) -> PolarsResult<Vec<Column>>
    requires { named_fields names.now df.now.schema ≡ Some schema.now }
    ensures kinds { IfOk result (λ columns. HasKinds schema.now columns.items) }
    ensures values { IfOk result (λ columns. column_values columns.items ≡ map (λ i. values_at i df.now.rows) (places_in names.now df.now.schema)) }
    ensures memory { OnErr result (result ≡ Err PolarsError.OutOfMemory) }
{
    let mut columns = Vec::with_capacity(alloc, names.len())?;
    for name in names {
        columns.push(column_of(alloc, df, name)?)?;
    }
    Ok(columns)
}

// The column of a name, which stands in the table.
fn column_of(alloc: Global, df: &DataFrame, name: &PlSmallStr) -> PolarsResult<Column>
    requires { IsSome (field_kind name.now df.now.schema) }
    ensures kind { IfOk result (λ c. field_kind name.now df.now.schema ≡ Some c.kind) }
    ensures values { IfOk result (λ c. c.values ≡ values_at (unwrap_or (field_index name.now df.now.schema) 0) df.now.rows) }
    ensures memory { OnErr result (result ≡ Err PolarsError.OutOfMemory) }
{
    match df.schema().index_of(name.as_str()) {
        Some(i) => shared(alloc, df.column(i)),
        None => unreachable!(),
    }
}
