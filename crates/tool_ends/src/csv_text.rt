// The CSV text of a table.
ghost use Rattle.std.specs.Prelude.{◌≡◌, ◌==◌, ◌&&◌, ◌<◌, ◌≤◌, ◌++◌, ◌∷◌, [], false, if◌then◌else◌, nat_lt, map, flat_map, length, IfOk, OnOk, OnErr, Err};
ghost use Rattle.std.specs.List.{list_any};
ghost use Rattle.csv.specs.Writing.{default_writer, escaped, field_text, needs_byte, needs_quotes, next_sep, quoted, row_text};
ghost use Rattle.ps_frame.specs.Csv.{csv_text_of, value_text};
ghost use Rattle.ps_frame.specs.Frames.{AllOfHeight, column_values};
ghost use Rattle.ps_frame.specs.Tables.{rows_of};
ghost use Rattle.tool_ends.specs.Csv.{ReachesRow, cells, row_end};

use itoa::Buffer;
use ps_frame::column::Column;
use ps_frame::frame::DataFrame;
use ps_frame::refusal::{PolarsError, PolarsResult};
use ps_frame::schema::Schema;
use ps_frame::value::Value;
use std::alloc::{AllocError, Global};

/// The CSV text of a table: the row of names, and then the rows.
///
/// Numbers are decimal, truth values `true` and `false`, and null is the empty field. Fails only for want of memory.
pub fn csv_text(alloc: Global, df: &DataFrame) -> PolarsResult<Vec<u8>>
    ensures text { IfOk result (λ text. text.items ≡ csv_text_of df.now) }
    ensures memory { OnErr result (result ≡ Err PolarsError.OutOfMemory) }
{
    let mut text = Vec::new(alloc);
    // By hand, since a clause names the error.
    if put_names(&mut text, df.schema()).is_err() {
        return Err(PolarsError::OutOfMemory);
    }
    if put_rows(&mut text, df.get_columns(), df.height()).is_err() {
        return Err(PolarsError::OutOfMemory);
    }
    Ok(text)
}

fn put_names(text: &mut Vec<u8>, schema: &Schema) -> Result<(), AllocError>
    ensures { OnOk result (text.new.items ≡ text.old.items ++ row_text default_writer (map (λ f. f.0) schema.now)) }
{
    let start = text.len();
    for i in 0..schema.len() {
        put_comma(text, i)?;
        put_field(text, schema.name(i).as_str().as_bytes())?;
    }
    end_row(text, start, schema.len())
}

fn put_rows(text: &mut Vec<u8>, columns: &[Column], height: usize) -> Result<(), AllocError>
    requires { AllOfHeight height columns.now }
    ensures { OnOk result (text.new.items ≡ text.old.items ++ flat_map (λ row. row_text default_writer (map value_text row)) (rows_of height (column_values columns.now))) }
{
    for row in 0..height {
        put_row(text, columns, row)?;
    }
    Ok(())
}

fn put_row(text: &mut Vec<u8>, columns: &[Column], row: usize) -> Result<(), AllocError>
    requires { ReachesRow row columns.now }
    ensures { OnOk result (text.new.items ≡ text.old.items ++ row_text default_writer (map value_text (cells row columns.now))) }
{
    let start = text.len();
    for i in 0..columns.len() {
        put_comma(text, i)?;
        put_value(text, columns[i].value(row))?;
    }
    end_row(text, start, columns.len())
}

fn put_comma(text: &mut Vec<u8>, i: usize) -> Result<(), AllocError>
    ensures { OnOk result (text.new.items ≡ text.old.items ++ next_sep default_writer i) }
{
    if i > 0 {
        text.push(b',')?;
    }
    Ok(())
}

// Two quotes stand for a row that shows nothing.
fn end_row(text: &mut Vec<u8>, start: usize, fields: usize) -> Result<(), AllocError>
    ensures { OnOk result (text.new.items ≡ text.old.items ++ row_end (nat_lt fields 2 && (length text.old.items == start))) }
{
    if fields < 2 && text.len() == start {
        text.extend_from_slice(b"\"\"")?;
    }
    text.push(b'\n')?;
    Ok(())
}

fn put_value(text: &mut Vec<u8>, value: &Value) -> Result<(), AllocError>
    ensures { OnOk result (text.new.items ≡ text.old.items ++ field_text default_writer (value_text value.now)) }
{
    match value {
        Value::Null => Ok(()),
        Value::Boolean(true) => put_plain(text, b"true"),
        Value::Boolean(false) => put_plain(text, b"false"),
        Value::Int64(number) => put_plain(text, Buffer::new().format(*number).as_bytes()),
        Value::IdxSize(number) => put_plain(text, Buffer::new().format(*number).as_bytes()),
        Value::String(name) => put_field(text, name.as_str().as_bytes()),
    }
}

fn put_field(text: &mut Vec<u8>, field: &[u8]) -> Result<(), AllocError>
    ensures { OnOk result (text.new.items ≡ text.old.items ++ field_text default_writer field.now) }
{
    if is_quoted(field) {
        put_quoted(text, field)
    } else {
        put_plain(text, field)
    }
}

// A field that needs no quotes, as that of a number.
fn put_plain(text: &mut Vec<u8>, field: &[u8]) -> Result<(), AllocError>
    requires { needs_quotes default_writer field.now ≡ false }
    ensures { OnOk result (text.new.items ≡ text.old.items ++ field_text default_writer field.now) }
{
    text.extend_from_slice(field)?;
    Ok(())
}

fn is_quoted(field: &[u8]) -> bool
    ensures { result ≡ needs_quotes default_writer field.now }
{
    field.iter().any(|b| is_special(*b))
}

fn is_special(b: u8) -> bool
    ensures { result ≡ needs_byte default_writer b }
{
    b == b',' || b == b'"' || b == b'\r' || b == b'\n'
}

fn put_quoted(text: &mut Vec<u8>, field: &[u8]) -> Result<(), AllocError>
    ensures { OnOk result (text.new.items ≡ text.old.items ++ quoted default_writer field.now) }
{
    text.push(b'"')?;
    put_escaped(text, field)?;
    text.push(b'"')?;
    Ok(())
}

fn put_escaped(text: &mut Vec<u8>, field: &[u8]) -> Result<(), AllocError>
    ensures { OnOk result (text.new.items ≡ text.old.items ++ escaped default_writer field.now) }
{
    for b in field {
        put_escaped_byte(text, *b)?;
    }
    Ok(())
}

fn put_escaped_byte(text: &mut Vec<u8>, b: u8) -> Result<(), AllocError>
    ensures { OnOk result (text.new.items ≡ text.old.items ++ (if b == 34 then 34 ∷ b ∷ [] else b ∷ [])) }
{
    if b == b'"' {
        text.push(b'"')?;
    }
    text.push(b)?;
    Ok(())
}
