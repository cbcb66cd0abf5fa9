// The distinct rows of a table.
ghost use Rattle.std.specs.Prelude.{◌≡◌, ◌<◌, ◌≤◌, ◌∷◌, [], ℕ, Err, IfOk, OnErr, IsTrue, length, map, unwrap_or};
ghost use Rattle.std.specs.List.{All, AllByRecursion};
ghost use Rattle.ps_frame.specs.Aggregates.{max_rows};
ghost use Rattle.ps_frame.specs.Frames.{column_values, has_name};
ghost use Rattle.ps_frame.specs.Functions.{Functions};
ghost use Rattle.ps_frame.specs.Gathered.{rows_at};
ghost use Rattle.ps_frame.specs.Tables.{field_index, values_at};
ghost use Rattle.ps_frame.specs.Zip.{below};
ghost use Rattle.ps_meaning.specs.Distinct.{kept_rows, places_in, subset_places};
ghost use Rattle.ps_meaning.specs.Nodes.{GivesFrame};
ghost use Rattle.ps_meaning.specs.Steps.{distinct_step};
ghost use Rattle.ps_keys.specs.KeyRows.{AreBelow};
ghost use Rattle.ps_groups.specs.KeptRows.{kept_places};
ghost use Rattle.ps_groups.specs.Subsets.{StandIn};

use crate::kept_rows::{last_rows, single_rows};
use ps_frame::column::Column;
use ps_frame::frame::DataFrame;
use ps_frame::items::Items;
use ps_frame::refusal::{PolarsError, PolarsResult};
use ps_frame::schema::Schema;
use ps_keys::numbering::{Numbering, number_rows};
use ps_meaning::options::{DistinctOptions, UniqueKeepStrategy};
use ps_rows::gathered::gathered;
use ps_tables::cut::cut;
use pu_base::PlSmallStr;
use std::alloc::{AllocError, Global};

/// The first or the last row of each key, or the rows whose key comes once, in the table's order; then the slice.
/// A key is a row's values in the columns of the subset, or in all.
///
/// Fails only for want of memory.
pub fn distinct(alloc: Global, options: &DistinctOptions, df: &DataFrame) -> PolarsResult<DataFrame>
    requires { StandIn options.now.subset df.now.schema }
    ensures table { IfOk result (λ f. (F : Functions) (at : ℕ) → GivesFrame F at (distinct_step options.now) (df.now ∷ []) f) }
    ensures memory { OnErr result (result ≡ Err PolarsError.OutOfMemory) }
{
    let rows = rows_to_keep(alloc, options, df)?;
    let kept = gathered(alloc, df, rows.as_slice())?;
    cut(alloc, kept, options.slice)
}

// The places of the rows that are kept.
fn rows_to_keep(
    alloc: Global,
    options: &DistinctOptions,
    df: &DataFrame,
) -> Result<Vec<usize>, AllocError>
    requires { StandIn options.now.subset df.now.schema }
    ensures kept { IfOk result (λ rows. rows_at rows.items df.now.rows ≡ kept_rows options.now.keep_strategy (subset_places options.now.subset df.now.schema) df.now.rows) }
    ensures there { IfOk result (λ rows. All (λ i. i < length df.now.rows) rows.items) }
    ensures few { IfOk result (λ rows. length rows.items ≤ max_rows) }
{
    let places = key_places(alloc, &options.subset, df.schema())?;
    let columns = columns_at(alloc, df, places.as_slice())?;
    let numbering = number_rows(alloc, columns.as_slice(), df.height())?;
    kept_by_numbers(alloc, options.keep_strategy, numbering)
}

// The places of the rows that are kept, by the numbers of all.
fn kept_by_numbers(
    alloc: Global,
    keep: UniqueKeepStrategy,
    numbering: Numbering,
) -> Result<Vec<usize>, AllocError>
    requires { AreBelow (length numbering.firsts.items) numbering.keys.items }
    ensures { IfOk result (λ rows. rows.items ≡ kept_places keep numbering) }
{
    let Numbering { keys, firsts } = numbering;
    match keep {
        UniqueKeepStrategy::First | UniqueKeepStrategy::Any => Ok(firsts),
        UniqueKeepStrategy::Last => last_rows(alloc, keys.as_slice(), firsts.len()),
        UniqueKeepStrategy::None => single_rows(alloc, keys.as_slice(), firsts.len()),
    }
}

// The columns at these places.
fn columns_at(alloc: Global, df: &DataFrame, places: &[usize]) -> Result<Vec<Column>, AllocError>
    requires { All (λ i. i < length df.now.schema) places.now }
    ensures { IfOk result (λ columns. column_values columns.items ≡ map (λ i. values_at i df.now.rows) places.now) }
{
    let mut columns = Vec::with_capacity(alloc, places.len())?;
    for place in places {
        columns.push(shared(alloc, df.column(*place))?)?;
    }
    Ok(columns)
}

// The same column; its values are not copied.
fn shared(alloc: Global, column: &Column) -> Result<Column, AllocError>
    ensures { IfOk result (λ c. c ≡ column.now) }
{
    match column.share(alloc) {
        Ok(column) => Ok(column),
        Err(_) => Err(AllocError),
    }
}

// The places of the columns of a subset, or of all.
fn key_places(
    alloc: Global,
    subset: &Option<Items<PlSmallStr>>,
    schema: &Schema,
) -> Result<Vec<usize>, AllocError>
    requires { StandIn subset.now schema.now }
    ensures places { IfOk result (λ places. places.items ≡ subset_places subset.now schema.now) }
    ensures there { IfOk result (λ places. All (λ i. i < length schema.now) places.items) }
{
    match subset {
        Some(names) => places_of_names(alloc, names.as_slice(), schema),
        None => all_places(alloc, schema.len()),
    }
}

fn all_places(alloc: Global, count: usize) -> Result<Vec<usize>, AllocError>
    ensures places { IfOk result (λ places. places.items ≡ below count) }
    ensures there { IfOk result (λ places. All (λ i. i < count) places.items) }
{
    let mut places = Vec::with_capacity(alloc, count)?;
    for place in 0..count {
        places.push(place)?;
    }
    Ok(places)
}

fn places_of_names(
    alloc: Global,
    names: &[PlSmallStr],
    schema: &Schema,
) -> Result<Vec<usize>, AllocError>
    requires { AllByRecursion (λ name. IsTrue (has_name name schema.now)) names.now }
    ensures places { IfOk result (λ places. places.items ≡ places_in names.now schema.now) }
    ensures there { IfOk result (λ places. All (λ i. i < length schema.now) places.items) }
{
    let mut places = Vec::with_capacity(alloc, names.len())?;
    for name in names {
        places.push(place_of(name, schema))?;
    }
    Ok(places)
}

// Where a name stands, which stands in the schema.
fn place_of(name: &PlSmallStr, schema: &Schema) -> usize
    requires { IsTrue (has_name name.now schema.now) }
    ensures place { result ≡ unwrap_or (field_index name.now schema.now) 0 }
    ensures there { result < length schema.now }
{
    schema.index_of(name.as_str()).unwrap_or(0)
}
