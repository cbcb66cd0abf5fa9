//! A table with fewer columns.
ghost use Rattle.std.specs.Prelude.{◌≡◌, Err, IfOk, OnErr};
ghost use Rattle.ps_frame.specs.Tables.{whole};
ghost use Rattle.ps_frame.specs.declared.refusal.PolarsError.{PolarsError};
ghost use Rattle.ps_meaning.specs.Cases.{projected};
ghost use Rattle.ps_meaning.specs.Schemas.{names_of as names_in};
ghost use Rattle.ps_meaning.specs.Sound.{HasFieldsOf};

use ps_frame::frame::DataFrame;
use ps_frame::refusal::{PolarsError, PolarsResult};
use ps_frame::schema::Schema;
use ps_tables::project::project;
use pu_base::PlSmallStr;
use std::alloc::Global;

// The names of a schema's fields.
fn names_of(alloc: Global, schema: &Schema) -> PolarsResult<Vec<PlSmallStr>>
    ensures names { IfOk result (λ names. names.items ≡ names_in schema.now) }
    ensures memory { OnErr result (result ≡ Err PolarsError.OutOfMemory) }
{
    let mut names = Vec::with_capacity(alloc, schema.len())?;
    for i in 0..schema.len() {
        // No `?`: the error of a text is another, and it stands for want of memory alone.
        let Ok(name) = schema.name(i).try_clone(alloc) else {
            return Err(PolarsError::OutOfMemory);
        };
        names.push(name)?;
    }
    Ok(names)
}

/// The columns of a table that a schema has, each of which is a column of the table. The values are not copied.
///
/// Fails only for want of memory.
pub(crate) fn narrowed(alloc: Global, table: &DataFrame, schema: &Schema) -> PolarsResult<DataFrame>
    requires { HasFieldsOf table.now.schema schema.now }
    ensures columns { IfOk result (λ f. whole f ≡ projected (names_in schema.now) schema.now (whole table.now)) }
    ensures memory { OnErr result (result ≡ Err PolarsError.OutOfMemory) }
{
    // A law: no name stands twice in the table, so each has one place.
    table.schema().names_differ();
    let names = match names_of(alloc, schema) {
        Ok(names) => names,
        Err(error) => return Err(error),
    };
    project(alloc, table, names.as_slice(), schema)
}
