// The tables of a document.
ghost use Rattle.std.specs.Prelude.{◌≡◌, ◌≢◌, ◌∷◌, [], ℕ, List, IsTrue, IsFalse, OnOk, IfOk, IfSome, IfNone, map, not, ◌++◌};
ghost use Rattle.serde_json.specs.Data.{Data};
ghost use Rattle.serde_json.specs.View.{view};
ghost use Rattle.ps_frame.specs.Frames.{has_distinct_names, has_name};
ghost use Rattle.ps_frame.specs.Tables.{Frame};
ghost use Rattle.ps_frame.specs.declared.value.Value.TheVariants as val;
ghost use Rattle.std.specs.List.{AllZip};
ghost use Rattle.ps_document.specs.Columns.{IsColumn, fields_of, named_column_json, typed_of};
ghost use Rattle.ps_document.specs.Json.{list, text};
ghost use Rattle.ps_document.specs.Tables.{IsTable};
ghost use Rattle.ps_document.specs.Words.{kind_word};

use crate::taking::{TakeJson, take_list};
use crate::values::{is_null, short_number_of, text_of, truth_of, whole_number_of};
use crate::words::kind_of;
use ps_frame::column::Column;
use ps_frame::error::FrameError;
use ps_frame::frame::DataFrame;
use ps_frame::schema::Schema;
use ps_frame::value::{DataType, Value};
use pu_base::PlSmallStr;
use serde_json::Value as Json;
use std::alloc::{AllocError, Global};

/// A column of a table, with its name.
#[derive(Drop)]
pub struct NamedColumn {
    pub name: PlSmallStr,
    pub column: Column,
}

/// The text that a value holds.
fn take_text(value: Json) -> Option<PlSmallStr>
    ensures some { IfSome result (λ s. view value ≡ text s) }
    ensures none { IfNone result ((s : List ℕ) → view value ≢ text s) }
{
    match value {
        Json::String(text) => Some(PlSmallStr::from_string(text)),
        _ => None,
    }
}

/// The elements of an array of three.
fn take_three(value: Json) -> Option<(Json, Json, Json)>
    ensures some { IfSome result (λ t. view value ≡ list (view t.0 ∷ view t.1 ∷ view t.2 ∷ [])) }
    ensures none { IfNone result ((a b c : Data) → view value ≢ list (a ∷ b ∷ c ∷ [])) }
{
    match value {
        Json::Array(items) => three_items(items),
        _ => None,
    }
}

fn three_items(items: Vec<Json>) -> Option<(Json, Json, Json)>
    ensures some { IfSome result (λ t. list (map view items.items) ≡ list (view t.0 ∷ view t.1 ∷ view t.2 ∷ [])) }
    ensures none { IfNone result ((a b c : Data) → list (map view items.items) ≢ list (a ∷ b ∷ c ∷ [])) }
{
    let mut items = items.into_iter();
    let first = items.next()?;
    let second = items.next()?;
    let third = items.next()?;
    match items.next() {
        None => Some((first, second, third)),
        Some(_) => None,
    }
}

/// The cell that a text is.
///
/// Fails only for want of memory.
fn text_cell(alloc: Global, value: &Json) -> Result<Option<Value>, AllocError>
    ensures some { IfOk result (λ o. IfSome o (λ v. (s : List ℕ) × (v ≡ val.String s) × (view value.now ≡ text s))) }
    ensures none { IfOk result (λ o. IfNone o ((s : List ℕ) → view value.now ≢ text s)) }
{
    let Some(text) = text_of(value) else {
        return Ok(None);
    };
    match Value::of_text(alloc, text) {
        Ok(cell) => Ok(Some(cell)),
        // It fails for want of memory alone.
        Err(_) => Err(AllocError),
    }
}

impl TakeJson<DataType> for Value {
    ghost use Rattle.ps_document.specs.Tables.{IsCell};

    ghost is_json = { IsCell };

    fn take_json(
        alloc: Global,
        dtype: &DataType,
        value: Json,
    ) -> Result<Option<Value>, AllocError> {
        if is_null(&value) {
            return Ok(Some(Value::Null));
        }
        let cell = match dtype {
            DataType::Boolean => truth_of(&value).map(Value::Boolean),
            DataType::Int64 => whole_number_of(&value).map(Value::Int64),
            DataType::IdxSize => short_number_of(&value).map(Value::IdxSize),
            DataType::String => text_cell(alloc, &value)?,
        };
        Ok(cell)
    }
}

/// The name, the kind and the cells of a column.
fn column_parts(value: Json) -> Option<(PlSmallStr, DataType, Json)>
    ensures some { IfSome result (λ t. view value ≡ list (text t.0 ∷ text (kind_word t.1) ∷ view t.2 ∷ [])) }
    ensures none { IfNone result ((name : List ℕ) (k : DataType) (cells : Data) → view value ≢ list (text name ∷ text (kind_word k) ∷ cells ∷ [])) }
{
    let (name, dtype, cells) = take_three(value)?;
    let dtype = kind_of(text_of(&dtype)?)?;
    Some((take_text(name)?, dtype, cells))
}

impl TakeJson<()> for NamedColumn {
    ghost use Rattle.ps_document.specs.Columns.{IsColumn};

    ghost is_json = { λ _ c d. IsColumn c d };

    fn take_json(
        alloc: Global,
        _context: &(),
        value: Json,
    ) -> Result<Option<NamedColumn>, AllocError> {
        let Some((name, dtype, cells)) = column_parts(value) else {
            return Ok(None);
        };
        let Some(values) = take_list::<DataType, Value>(alloc, &dtype, cells)? else {
            return Ok(None);
        };
        // Each value is of the kind, so the only error is want of memory.
        match Column::new(alloc, dtype, values) {
            Ok(column) => Ok(Some(NamedColumn { name, column })),
            Err(_) => Err(AllocError),
        }
    }
}

/// One more field, where its name doesn't stand yet, and whether this is so.
///
/// Fails only for want of memory.
fn push_field(
    alloc: Global,
    schema: &mut Schema,
    name: PlSmallStr,
    dtype: DataType,
) -> Result<bool, AllocError>
    ensures new_name { IfOk result (λ added. added ≡ not (has_name name schema.old)) }
    ensures added { OnOk result (IsFalse (has_name name schema.old) → schema.new ≡ schema.old ++ (name, dtype) ∷ []) }
{
    // Any other error is want of memory.
    match schema.push(alloc, name, dtype) {
        Ok(()) => Ok(true),
        Err(FrameError::Duplicate { name: _ }) => Ok(false),
        Err(_) => Err(AllocError),
    }
}

/// The schema and the columns of a table, where no name stands twice.
///
/// Fails only for want of memory.
fn apart(
    alloc: Global,
    columns: Vec<NamedColumn>,
) -> Result<Option<(Schema, Vec<Column>)>, AllocError>
    ensures schema { IfOk result (λ o. IfSome o (λ t. t.0 ≡ fields_of columns.items)) }
    ensures columns { IfOk result (λ o. IfSome o (λ t. t.1.items ≡ typed_of columns.items)) }
    ensures distinct { IfOk result (λ o. IfSome o (λ t. IsTrue (has_distinct_names (fields_of columns.items)))) }
    ensures none { IfOk result (λ o. IfNone o (IsFalse (has_distinct_names (fields_of columns.items)))) }
{
    let mut list = Vec::with_capacity(alloc, columns.len())?;
    let mut schema = Schema::new(alloc);
    for item in columns {
        let NamedColumn { name, column } = item;
        if !push_field(alloc, &mut schema, name, column.dtype())? {
            return Ok(None);
        }
        list.push(column)?;
    }
    Ok(Some((schema, list)))
}

/// The table of columns, where no name stands twice and their lengths are equal.
///
/// Fails only for want of memory, which more rows than a table counts also take.
pub fn table_of(alloc: Global, columns: Vec<NamedColumn>) -> Result<Option<DataFrame>, AllocError>
    ensures some { IfOk result (λ o. IfSome o (λ f. (ds : List Data) → AllZip IsColumn columns.items ds → IsTable f (list ds))) }
    ensures none { IfOk result (λ o. IfNone o ((f : Frame) (ds : List Data) → AllZip IsColumn columns.items ds → IsTable f (list ds) → ⊥)) }
{
    let Some((schema, columns)) = apart(alloc, columns)? else {
        return Ok(None);
    };
    // Any other error is want of memory.
    match DataFrame::new(alloc, schema, columns) {
        Ok(df) => Ok(Some(df)),
        Err(FrameError::Height) => Ok(None),
        Err(_) => Err(AllocError),
    }
}

impl TakeJson<()> for DataFrame {
    ghost use Rattle.ps_document.specs.Tables.{IsTable};

    ghost is_json = { λ _ f d. IsTable f d };

    fn take_json(
        alloc: Global,
        context: &(),
        value: Json,
    ) -> Result<Option<DataFrame>, AllocError> {
        match take_list::<(), NamedColumn>(alloc, context, value)? {
            Some(columns) => table_of(alloc, columns),
            None => Ok(None),
        }
    }
}
