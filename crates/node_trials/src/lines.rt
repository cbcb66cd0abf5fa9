// The lines of a table.
use ps_frame::column::Column;
use ps_frame::frame::DataFrame;
use ps_frame::value::Value;
use std::alloc::{AllocError, Global};

fn push_value(text: &mut String, value: &Value) -> Result<(), AllocError> {
    match value {
        Value::Null => Ok(()),
        Value::Boolean(b) => write!(text, "{b}"),
        Value::Int64(z) => write!(text, "{z}"),
        Value::IdxSize(n) => write!(text, "{n}"),
        Value::String(s) => text.push_str(s.as_str()),
    }
}

fn push_cell(text: &mut String, column: &Column, row: usize) -> Result<(), AllocError> {
    if row < column.len() {
        push_value(text, column.value(row))?;
    }
    Ok(())
}

fn push_names(text: &mut String, df: &DataFrame) -> Result<(), AllocError> {
    for i in 0..df.schema().len() {
        if i > 0 {
            text.push(',')?;
        }
        text.push_str(df.schema().name(i).as_str())?;
    }
    Ok(())
}

fn push_row(text: &mut String, df: &DataFrame, row: usize) -> Result<(), AllocError> {
    for (i, column) in df.get_columns().iter().enumerate() {
        if i > 0 {
            text.push(',')?;
        }
        push_cell(text, column, row)?;
    }
    Ok(())
}

// The rows of a table, behind a `/` each; null is shown by nothing.
fn push_rows(text: &mut String, df: &DataFrame) -> Result<(), AllocError> {
    for row in 0..df.height() {
        text.push('/')?;
        push_row(text, df, row)?;
    }
    Ok(())
}

/// The names and then the rows of a table, with `/` between them; null is shown by nothing.
pub fn lines(alloc: Global, df: &DataFrame) -> Result<String, AllocError> {
    let mut text = String::new(alloc);
    push_names(&mut text, df)?;
    push_rows(&mut text, df)?;
    Ok(text)
}
