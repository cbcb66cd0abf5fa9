// The tables of a document, read off its tokens.
ghost use Rattle.std.specs.Prelude.{◌≡◌, ◌∷◌, List, Some, IfOk, IfSome, OnOk};
ghost use Rattle.std.specs.Bool.{OnTrue};
ghost use Rattle.std.specs.List.{AllZip};
ghost use Rattle.json.specs.Reads.{token_of};
ghost use Rattle.json.specs.Token.{Token as SpecToken, begin_array, string};
ghost use Rattle.serde_json.specs.Data.{Data, Num, number};
ghost use Rattle.serde_json.specs.Read.{number_of};
ghost use Rattle.ps_frame.specs.Pushed.{with_value};
ghost use Rattle.ps_frame.specs.declared.value.Value.TheVariants as val;
ghost use Rattle.ps_reading.specs.Reading.{Reads, ReadsItems};
ghost use Rattle.ps_document.specs.Json.{list};
ghost use Rattle.ps_document.specs.Tables.{HasCellMore, IsCell};
ghost use Rattle.ps_document.specs.Words.{kind_word};

use crate::tables::{NamedColumn, table_of};
use crate::words::kind_of;
use json::{Reader, Token};
use ps_frame::builder::ColumnBuilder;
use ps_frame::column::Column;
use ps_frame::frame::DataFrame;
use ps_frame::value::{DataType, Value};
use ps_reading::list::{ReadJson, read_list};
use ps_reading::numbers::{count_of, whole_number_of};
use pu_base::PlSmallStr;
use std::alloc::{AllocError, Global};

/// The columns of a table, and the tables.
#[derive(Drop)]
pub struct ByToken;

/// Puts the cell that is one token at the end of a column of a kind, if it is such a cell.
///
/// Fails only for want of memory.
fn push_token(
    alloc: Global,
    dtype: DataType,
    token: Token<'_>,
    builder: &mut ColumnBuilder,
) -> Result<bool, AllocError>
    requires { builder.old.kind ≡ dtype }
    ensures { IfOk result (λ told. OnTrue told ((d : Data) × HasCellMore d builder.old builder.new × ((ts : List SpecToken) → Reads 0 (token_of token.entry ∷ ts) d ts))) }
{
    match token {
        Token::Null => {
            push_value(alloc, Value::Null, builder)?;
            Ok(true)
        }
        Token::Number(text) => {
            let told = push_number(alloc, dtype, text, builder)?;
            Ok(told)
        }
        Token::Bool(b) => {
            let DataType::Boolean = dtype else {
                return Ok(false);
            };
            push_value(alloc, Value::Boolean(b), builder)?;
            Ok(true)
        }
        Token::String(text) => {
            let DataType::String = dtype else {
                return Ok(false);
            };
            push_text(alloc, text, builder)?;
            Ok(true)
        }
        _ => Ok(false),
    }
}

/// Puts the cell that a number is at the end of a column of a kind, if it is such a cell.
fn push_number(
    alloc: Global,
    dtype: DataType,
    text: &str,
    builder: &mut ColumnBuilder,
) -> Result<bool, AllocError>
    requires { builder.old.kind ≡ dtype }
    ensures { IfOk result (λ told. OnTrue told ((n : Num) × (number_of text.now ≡ Some n) × HasCellMore (number n) builder.old builder.new)) }
{
    match dtype {
        DataType::Int64 => push_whole_number(alloc, text, builder),
        DataType::IdxSize => push_row_number(alloc, text, builder),
        _ => Ok(false),
    }
}

fn push_whole_number(
    alloc: Global,
    text: &str,
    builder: &mut ColumnBuilder,
) -> Result<bool, AllocError>
    requires { builder.old.kind ≡ DataType.Int64 }
    ensures { IfOk result (λ told. OnTrue told ((n : Num) × (number_of text.now ≡ Some n) × HasCellMore (number n) builder.old builder.new)) }
{
    let Some(number) = whole_number_of(text) else {
        return Ok(false);
    };
    match builder.push_number(alloc, number) {
        Ok(()) => Ok(true),
        // A number is of the kind, so this is want of memory.
        Err(_) => Err(AllocError),
    }
}

fn push_row_number(
    alloc: Global,
    text: &str,
    builder: &mut ColumnBuilder,
) -> Result<bool, AllocError>
    requires { builder.old.kind ≡ DataType.IdxSize }
    ensures { IfOk result (λ told. OnTrue told ((n : Num) × (number_of text.now ≡ Some n) × HasCellMore (number n) builder.old builder.new)) }
{
    match count_of(text) {
        Some(n) if n <= u32::MAX as u64 => {
            push_value(alloc, Value::IdxSize(n as u32), builder)?;
            Ok(true)
        }
        _ => Ok(false),
    }
}

fn push_text(alloc: Global, text: &str, builder: &mut ColumnBuilder) -> Result<(), AllocError>
    ensures { OnOk result (builder.new ≡ with_value builder.old (val.String text.now)) }
{
    match builder.push_text(alloc, text) {
        Ok(()) => Ok(()),
        // A text is of the kind, so this is want of memory.
        Err(_) => Err(AllocError),
    }
}

fn push_value(alloc: Global, value: Value, builder: &mut ColumnBuilder) -> Result<(), AllocError>
    ensures { OnOk result (builder.new ≡ with_value builder.old value) }
{
    match builder.push(alloc, value) {
        Ok(()) => Ok(()),
        // Values of the kind are refused for want of memory alone.
        Err(_) => Err(AllocError),
    }
}

/// Puts the cell that comes first at the end of a column of a kind, if such a cell is told from the
/// tokens; else where the reader then stands isn't said.
///
/// Fails only for want of memory.
fn push_cell(
    alloc: Global,
    dtype: DataType,
    reader: &mut Reader<'_>,
    builder: &mut ColumnBuilder,
) -> Result<bool, AllocError>
    requires { builder.old.kind ≡ dtype }
    ensures { IfOk result (λ told. OnTrue told ((d : Data) × HasCellMore d builder.old builder.new × Reads 0 reader.old d reader.new)) }
{
    let Some(token) = reader.next() else {
        return Ok(false);
    };
    let told = push_token(alloc, dtype, token, builder)?;
    Ok(told)
}

/// The column of a kind whose cells an array holds.
///
/// `None` where no such array is told from the tokens; where the reader then stands isn't said.
/// Fails only for want of memory.
fn read_column(
    alloc: Global,
    dtype: DataType,
    reader: &mut Reader<'_>,
) -> Result<Option<Column>, AllocError>
    ensures kind { IfOk result (λ o. IfSome o (λ c. c.kind ≡ dtype)) }
    ensures cells { IfOk result (λ o. IfSome o (λ c. (ds : List Data) × AllZip (IsCell dtype) c.values ds × Reads 1 reader.old (list ds) reader.new)) }
{
    let Some(Token::BeginArray) = reader.next() else {
        return Ok(None);
    };
    // By `let`-`else`, so that the proof cites the value by its name.
    let Some(column) = read_cells(alloc, dtype, reader)? else {
        return Ok(None);
    };
    Ok(Some(column))
}

// The column of the cells up to the bracket that closes their array. Each is put in as it is read.
fn read_cells(
    alloc: Global,
    dtype: DataType,
    reader: &mut Reader<'_>,
) -> Result<Option<Column>, AllocError>
    ensures kind { IfOk result (λ o. IfSome o (λ c. c.kind ≡ dtype)) }
    ensures cells { IfOk result (λ o. IfSome o (λ c. (ds : List Data) × AllZip (IsCell dtype) c.values ds × ReadsItems 0 reader.old ds reader.new)) }
{
    let mut builder = ColumnBuilder::new(alloc, dtype);
    'cells: while !reader.take_end_array() {
        let told = push_cell(alloc, dtype, reader, &mut builder)?;
        if !told {
            // By a call: else it is taken apart right here, and the proof is the longer.
            drop(builder);
            return Ok(None);
        }
    }
    // The only error is want of memory; `map_err` would hide the value in a closure.
    match builder.finish(alloc) {
        Ok(column) => Ok(Some(column)),
        Err(_) => Err(AllocError),
    }
}

/// The name and the kind that a column begins with.
///
/// Fails only for want of memory.
fn heading_of(
    alloc: Global,
    reader: &mut Reader<'_>,
) -> Result<Option<(PlSmallStr, DataType)>, AllocError>
    ensures { IfOk result (λ o. IfSome o (λ h. reader.old ≡ begin_array ∷ string h.0 ∷ string (kind_word h.1) ∷ reader.new)) }
{
    let Some(Token::BeginArray) = reader.next() else {
        return Ok(None);
    };
    let Some(Token::String(name)) = reader.next() else {
        return Ok(None);
    };
    let Some(Token::String(word)) = reader.next() else {
        return Ok(None);
    };
    let Some(dtype) = kind_of(word) else {
        return Ok(None);
    };
    // The only error is want of memory; `map_err` would hide the value in a closure.
    match PlSmallStr::from_str(alloc, name) {
        Ok(name) => Ok(Some((name, dtype))),
        Err(_) => Err(AllocError),
    }
}

impl ReadJson<ByToken> for NamedColumn {
    ghost use Rattle.ps_document.specs.Columns.{IsColumn};

    ghost is_json = { λ _ c d. IsColumn c d };

    ghost nests = { 2 };

    fn read_json(
        alloc: Global,
        _context: &ByToken,
        reader: &mut Reader<'_>,
    ) -> Result<Option<NamedColumn>, AllocError> {
        let Some((name, dtype)) = heading_of(alloc, reader)? else {
            return Ok(None);
        };
        let Some(column) = read_column(alloc, dtype, reader)? else {
            return Ok(None);
        };
        if !reader.take_end_array() {
            return Ok(None);
        }
        Ok(Some(NamedColumn { name, column }))
    }
}

impl ReadJson<ByToken> for DataFrame {
    ghost use Rattle.ps_document.specs.Tables.{IsTable};

    ghost is_json = { λ _ f d. IsTable f d };

    ghost nests = { 3 };

    fn read_json(
        alloc: Global,
        context: &ByToken,
        reader: &mut Reader<'_>,
    ) -> Result<Option<DataFrame>, AllocError> {
        let Some(columns) = read_list::<ByToken, NamedColumn>(alloc, context, reader)? else {
            return Ok(None);
        };
        // By `let`-`else`, so that the proof cites the value by its name.
        let Some(df) = table_of(alloc, columns)? else {
            return Ok(None);
        };
        Ok(Some(df))
    }
}
