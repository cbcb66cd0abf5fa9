// Columns that come from a table, from a literal or from a count.
ghost use Rattle.std.specs.Prelude.{◌≡◌, ◌∷◌, [], ℕ, IfOk, IsSome};
ghost use Rattle.ps_expr_eval.specs.Evaluations.{Evaluates};
ghost use Rattle.ps_expr_eval.specs.Held.{Keeps};
ghost use Rattle.ps_frame.specs.Aggregates.{count_column};
ghost use Rattle.ps_frame.specs.Causes.{whole_column};
ghost use Rattle.ps_frame.specs.Eval.{literal_value};
ghost use Rattle.ps_frame.specs.Tables.{field_kind};
ghost use Rattle.ps_frame.specs.Trees.{Tree as ATree};
ghost use Rattle.ps_frame.specs.Typing.{literal_kind};
ghost use Rattle.ps_frame.specs.declared.value.DataType.TheVariants as kind;

use crate::computed::{Cells, ComputedColumn, Values, computed_ended, computed_whole};
use ps_frame::column::Column;
use ps_frame::expr::LiteralValue;
use ps_frame::frame::DataFrame;
use ps_frame::value::{DataFault, DataType, Value};
use pu_base::PlSmallStr;
use std::alloc::{AllocError, Global};

/// The column of a name, which stands in the table. Its values are shared.
pub fn column_part(
    alloc: Global,
    name: &PlSmallStr,
    df: &DataFrame,
) -> Result<ComputedColumn, AllocError>
    requires { IsSome (field_kind name.now df.now.schema) }
    ensures { IfOk result (Evaluates df.now (ATree.column name.now)) }
{
    match df.schema().index_of(name.as_str()) {
        Some(i) => shared_part(alloc, df.column(i)),
        None => unreachable!(),
    }
}

fn shared_part(alloc: Global, column: &Column) -> Result<ComputedColumn, AllocError>
    ensures kind { IfOk result (λ part. part.dtype ≡ column.now.kind) }
    ensures cells { IfOk result (λ part. Keeps part (whole_column column.now.values)) }
{
    match column.share(alloc) {
        Ok(column) => Ok(ComputedColumn {
            dtype: column.dtype(),
            cells: Cells::Whole(Values::Shared(column)),
            fault: None,
        }),
        // It fails for want of memory alone.
        Err(_) => Err(AllocError),
    }
}

/// The one cell of a literal.
///
/// Fails only for want of memory.
pub fn literal_part(alloc: Global, literal: &LiteralValue) -> Result<ComputedColumn, AllocError>
    ensures kind { IfOk result (λ part. part.dtype ≡ literal_kind literal.now) }
    ensures cells { IfOk result (λ part. Keeps part (whole_column (literal_value literal.now ∷ []))) }
{
    match literal {
        LiteralValue::Null(dtype) => one_part(alloc, *dtype, Value::Null),
        LiteralValue::Boolean(b) => one_part(alloc, DataType::Boolean, Value::Boolean(*b)),
        LiteralValue::Int64(z) => one_part(alloc, DataType::Int64, Value::Int64(*z)),
        LiteralValue::IdxSize(n) => one_part(alloc, DataType::IdxSize, Value::IdxSize(*n)),
        LiteralValue::String(s) => match Value::of_text(alloc, s.as_str()) {
            Ok(text) => one_part(alloc, DataType::String, text),
            // It fails for want of memory alone.
            Err(_) => Err(AllocError),
        },
    }
}

/// A column of one value.
///
/// Fails only for want of memory.
pub fn one_part(alloc: Global, dtype: DataType, value: Value) -> Result<ComputedColumn, AllocError>
    ensures kind { IfOk result (λ part. part.dtype ≡ dtype) }
    ensures cells { IfOk result (λ part. Keeps part (whole_column (value ∷ []))) }
{
    let mut values = Vec::with_capacity(alloc, 1)?;
    values.push(value)?;
    Ok(computed_whole(dtype, values))
}

/// A count as a column of one number; one that passes `u32::MAX` is the fault `Rows`.
///
/// Fails only for want of memory.
pub fn count_part(alloc: Global, count: usize) -> Result<ComputedColumn, AllocError>
    ensures kind { IfOk result (λ part. part.dtype ≡ kind.IdxSize) }
    ensures cells { IfOk result (λ part. (node : ℕ) → Keeps part (count_column node count)) }
{
    match u32::try_from(count) {
        Ok(count) => one_part(alloc, DataType::IdxSize, Value::IdxSize(count)),
        Err(_) => Ok(computed_ended(alloc, DataType::IdxSize, DataFault::Rows)),
    }
}
