// Columns of schemas that are looked up by name, or set beside others.
ghost use Rattle.std.specs.Prelude.{◌≡◌, ◌≢◌, ◌++◌, ◌∷◌, ◌⊎◌, [], Err, IfErr, IfOk, List, OnErr, OnOk, Some};
ghost use Rattle.std.specs.BTreeSet.{contains_text};
ghost use Rattle.ps_frame.specs.Tables.{field_kind};
ghost use Rattle.ps_meaning.specs.Schemas.{is_among, named_fields, names_of, suffixed, without};
ghost use Rattle.ps_meaning.specs.Steps.{Name};
ghost use Rattle.ps_validate.specs.Columns.{IsEmptyError, IsNamingError, IsRepeatError, absent_from, with_kinds};
ghost use Rattle.valid_plans.specs.Fields.{IsPushError};

use ps_frame::expr::What;
use ps_frame::refusal::{PolarsError, PolarsResult};
use ps_frame::schema::Schema;
use ps_frame::value::DataType;
use pu_base::{Node, PlSmallStr};
use std::alloc::Global;
use std::collections::BTreeSet;
use valid_plans::fields::push_field;

/// A schema that has columns; it is refused at the node `at` where it has none.
pub fn some_columns(at: Node, schema: Schema) -> PolarsResult<Schema>
    ensures same { IfOk result (λ s. s ≡ schema) }
    ensures some { OnOk result (schema ≢ []) }
    ensures refused { IfErr result (IsEmptyError at schema) }
{
    if schema.is_empty() {
        return Err(PolarsError::Unsupported {
            node: at,
            what: What::NoColumns,
        });
    }
    Ok(schema)
}

/// An equal schema, which is shared; it is refused at the node `at` where it has no columns. Else it fails only for
/// want of memory.
pub fn shared_columns(alloc: Global, at: Node, input: &Schema) -> PolarsResult<Schema>
    ensures same { IfOk result (λ s. s ≡ input.now) }
    ensures some { OnOk result (input.now ≢ []) }
    ensures refused { IfErr result (IsEmptyError at input.now) }
{
    match input.try_share(alloc) {
        Ok(schema) => some_columns(at, schema),
        Err(_) => Err(PolarsError::OutOfMemory),
    }
}

// The kind of the column of a name, if there is one.
fn kind_of(schema: &Schema, name: &str) -> Option<DataType>
    ensures { result ≡ field_kind name.now schema.now }
{
    match schema.index_of(name) {
        Some(place) => Some(schema.kind(place)),
        None => None,
    }
}

/// One more field under a copy of a name, refused where the name stands already; else it fails only for want of memory.
pub fn push_copy(
    alloc: Global,
    at: Node,
    schema: &mut Schema,
    name: &PlSmallStr,
    dtype: DataType,
) -> PolarsResult<()>
    ensures added { OnOk result (schema.new ≡ schema.old ++ (name.now, dtype) ∷ []) }
    ensures refused { IfErr result (IsPushError at schema.old name.now) }
{
    match name.try_clone(alloc) {
        Ok(name) => push_field(alloc, at, schema, name, dtype),
        Err(_) => Err(PolarsError::OutOfMemory),
    }
}

// The error of a column that isn't there, or of want of memory for its name.
fn not_found(alloc: Global, at: Node, name: &PlSmallStr) -> PolarsError
    ensures { (result ≡ PolarsError.ColumnNotFound at name.now) ⊎ (result ≡ PolarsError.OutOfMemory) }
{
    match name.try_clone(alloc) {
        Ok(name) => PolarsError::ColumnNotFound { node: at, name },
        Err(_) => PolarsError::OutOfMemory,
    }
}

/// The columns of these names, in their order.
///
/// Refused at the node `at` where the input lacks one of the names, or one stands twice; any one of these may be
/// answered. Else it fails only for want of memory.
pub fn named_columns(
    alloc: Global,
    at: Node,
    names: &[PlSmallStr],
    input: &Schema,
) -> PolarsResult<Schema>
    ensures fields { IfOk result (λ s. named_fields names.now input.now ≡ Some s) }
    ensures refused { IfErr result (IsNamingError at input.now names.now) }
{
    let mut schema = Schema::new(alloc);
    for name in names {
        match kind_of(input, name.as_str()) {
            Some(dtype) => push_copy(alloc, at, &mut schema, name, dtype)?,
            None => return Err(not_found(alloc, at, name)),
        }
    }
    Ok(schema)
}

/// Adds all fields of another schema.
///
/// Refused at the node `at`, with the schema filled in part, where a name would stand twice. Else it fails only for
/// want of memory.
pub fn push_all(alloc: Global, at: Node, schema: &mut Schema, others: &Schema) -> PolarsResult<()>
    ensures added { OnOk result (schema.new ≡ schema.old ++ others.now) }
    ensures refused { IfErr result (IsRepeatError at (names_of (schema.old ++ others.now))) }
{
    for i in 0..others.len() {
        push_copy(alloc, at, schema, others.name(i), others.kind(i))?;
    }
    Ok(())
}

/// Adds the fields of a schema, with the kinds that another one has for their names; else as [`push_all`].
pub fn push_with_kinds(
    alloc: Global,
    at: Node,
    schema: &mut Schema,
    fields: &Schema,
    kinds: &Schema,
) -> PolarsResult<()>
    ensures added { OnOk result (schema.new ≡ schema.old ++ with_kinds kinds.now fields.now) }
    ensures refused { IfErr result (IsRepeatError at (names_of (schema.old ++ with_kinds kinds.now fields.now))) }
{
    for i in 0..fields.len() {
        let name = fields.name(i);
        let kept = fields.kind(i);
        let dtype = kind_of(kinds, name.as_str()).unwrap_or(kept);
        push_copy(alloc, at, schema, name, dtype)?;
    }
    Ok(())
}

/// Adds the fields of a schema whose names another one lacks; else as [`push_all`].
pub fn push_absent(
    alloc: Global,
    at: Node,
    schema: &mut Schema,
    fields: &Schema,
    others: &Schema,
) -> PolarsResult<()>
    ensures added { OnOk result (schema.new ≡ schema.old ++ absent_from others.now fields.now) }
    ensures refused { IfErr result (IsRepeatError at (names_of (schema.old ++ absent_from others.now fields.now))) }
{
    for i in 0..fields.len() {
        let name = fields.name(i);
        if !others.contains(name.as_str()) {
            push_copy(alloc, at, schema, name, fields.kind(i))?;
        }
    }
    Ok(())
}

/// Adds the fields of a schema but those of some names; else as [`push_all`].
pub fn push_without(
    alloc: Global,
    at: Node,
    schema: &mut Schema,
    fields: &Schema,
    hidden: &BTreeSet<String>,
) -> PolarsResult<()>
    ensures added { (ns : List Name) → ((n : Name) → contains_text hidden.now n ≡ is_among n ns) → OnOk result (schema.new ≡ schema.old ++ without ns fields.now) }
    ensures refused { (ns : List Name) → ((n : Name) → contains_text hidden.now n ≡ is_among n ns) → IfErr result (IsRepeatError at (names_of (schema.old ++ without ns fields.now))) }
{
    for i in 0..fields.len() {
        let name = fields.name(i);
        if !hidden.contains(name.as_str()) {
            push_copy(alloc, at, schema, name, fields.kind(i))?;
        }
    }
    Ok(())
}

// A name with a suffix.
fn with_suffix(alloc: Global, name: &PlSmallStr, suffix: &str) -> PolarsResult<PlSmallStr>
    ensures suffixed { IfOk result (λ n. n ≡ name.now ++ suffix.now) }
    ensures memory { OnErr result (result ≡ Err PolarsError.OutOfMemory) }
{
    let mut text = String::from_str(alloc, name.as_str())?;
    text.push_str(suffix)?;
    Ok(PlSmallStr::from_string(text))
}

/// Adds the fields of a schema, with a suffix to each name that another schema has; else as [`push_all`].
pub fn push_suffixed(
    alloc: Global,
    at: Node,
    schema: &mut Schema,
    fields: &Schema,
    taken: &Schema,
    suffix: &str,
) -> PolarsResult<()>
    ensures added { OnOk result (schema.new ≡ schema.old ++ suffixed suffix.now (names_of taken.now) fields.now) }
    ensures refused { IfErr result (IsRepeatError at (names_of (schema.old ++ suffixed suffix.now (names_of taken.now) fields.now))) }
{
    for i in 0..fields.len() {
        let name = fields.name(i);
        if taken.contains(name.as_str()) {
            let longer = with_suffix(alloc, name, suffix)?;
            push_field(alloc, at, schema, longer, fields.kind(i))?;
        } else {
            push_copy(alloc, at, schema, name, fields.kind(i))?;
        }
    }
    Ok(())
}
