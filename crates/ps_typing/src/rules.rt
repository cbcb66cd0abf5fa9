// The typing rules of single expressions, over the kinds of their operands.
ghost use Rattle.std.specs.Prelude.{◌≡◌, ◌==◌, ◌&&◌, ◌⊎◌, IfErr, IfOk, Some, length, not};
ghost use Rattle.ps_frame.specs.Tables.{field_kind};
ghost use Rattle.ps_frame.specs.Trees.{Tree};
ghost use Rattle.ps_frame.specs.Typing.{aggregate_kind as kind_of_aggregate, binary_kind as kind_of_binary, cast_kind as kind_of_cast, fits_keys as fits_number, function_kind as kind_of_function, is_number as is_number_kind, literal_kind as kind_of_literal};
ghost use Rattle.ps_typing.specs.Operands.{aggregated as operand_of, aggregation_of};
ghost use Rattle.ps_typing.specs.Refused.{IsTypingError};

use ps_frame::expr::{FunctionExpr, IRAggExpr, LiteralValue, Operator};
use ps_frame::refusal::{PolarsError, PolarsResult};
use ps_frame::schema::Schema;
use ps_frame::value::DataType;
use pu_base::{Node, PlSmallStr};
use std::alloc::Global;

// The kind of the column of a name.
pub(crate) fn column_kind(
    alloc: Global,
    at: Node,
    name: &PlSmallStr,
    schema: &Schema,
) -> PolarsResult<DataType>
    ensures kind { IfOk result (λ k. field_kind name.now schema.now ≡ Some k) }
    ensures refused { IfErr result (IsTypingError at schema.now (Tree.column name.now)) }
{
    match schema.index_of(name.as_str()) {
        Some(place) => Ok(schema.kind(place)),
        None => Err(column_not_found(alloc, at, name)),
    }
}

// The error of a column that isn't there, or of want of memory for its name.
fn column_not_found(alloc: Global, at: Node, name: &PlSmallStr) -> PolarsError
    ensures { (result ≡ PolarsError.ColumnNotFound at name.now) ⊎ (result ≡ PolarsError.OutOfMemory) }
{
    match name.try_clone(alloc) {
        Ok(name) => PolarsError::ColumnNotFound { node: at, name },
        Err(_) => PolarsError::OutOfMemory,
    }
}

pub(crate) fn literal_kind(literal: &LiteralValue) -> DataType
    ensures { result ≡ kind_of_literal literal.now }
{
    match literal {
        LiteralValue::Null(dtype) => *dtype,
        LiteralValue::Boolean(_) => DataType::Boolean,
        LiteralValue::Int64(_) => DataType::Int64,
        LiteralValue::IdxSize(_) => DataType::IdxSize,
        LiteralValue::String(_) => DataType::String,
    }
}

pub(crate) fn is_number(dtype: DataType) -> bool
    ensures { result ≡ is_number_kind dtype }
{
    matches!(dtype, DataType::Int64 | DataType::IdxSize)
}

// The kind that an operator gives over operands of these kinds, where it takes them.
pub(crate) fn binary_kind(op: Operator, left: DataType, right: DataType) -> Option<DataType>
    ensures { result ≡ kind_of_binary op (Some left) (Some right) }
{
    if left != right {
        return None;
    }
    match op {
        Operator::Eq
        | Operator::NotEq
        | Operator::Lt
        | Operator::LtEq
        | Operator::Gt
        | Operator::GtEq => Some(DataType::Boolean),
        Operator::And | Operator::Or => (left == DataType::Boolean).then_some(left),
        Operator::Plus
        | Operator::Minus
        | Operator::Multiply
        | Operator::FloorDivide
        | Operator::Modulus => is_number(left).then_some(left),
    }
}

// The kind of a cast, where there is one.
pub(crate) fn cast_kind(to: DataType, from: DataType) -> Option<DataType>
    ensures { result ≡ kind_of_cast to (Some from) }
{
    match (from, to) {
        (DataType::Boolean, DataType::String) | (DataType::String, DataType::Boolean) => None,
        _ => Some(to),
    }
}

// The expression over which an aggregate goes.
pub(crate) fn aggregated(aggregate: &IRAggExpr) -> Node
    ensures { result ≡ operand_of aggregate.now }
{
    match aggregate {
        IRAggExpr::Min(input)
        | IRAggExpr::Max(input)
        | IRAggExpr::First(input)
        | IRAggExpr::Last(input)
        | IRAggExpr::Sum(input)
        | IRAggExpr::NUnique(input)
        | IRAggExpr::Count(input, _) => *input,
    }
}

// The kind of an aggregate of values of a kind, where it takes them.
pub(crate) fn aggregate_kind(aggregate: &IRAggExpr, dtype: DataType) -> Option<DataType>
    ensures { result ≡ kind_of_aggregate (aggregation_of aggregate.now) (Some dtype) }
{
    match aggregate {
        IRAggExpr::Min(_) | IRAggExpr::Max(_) | IRAggExpr::First(_) | IRAggExpr::Last(_) => {
            Some(dtype)
        }
        IRAggExpr::NUnique(_) | IRAggExpr::Count(_, _) => Some(DataType::IdxSize),
        IRAggExpr::Sum(_) => match dtype {
            DataType::Boolean => Some(DataType::IdxSize),
            DataType::Int64 | DataType::IdxSize => Some(dtype),
            DataType::String => None,
        },
    }
}

// The kind of a function's answer, where it takes its input.
pub(crate) fn function_kind(function: FunctionExpr, dtype: DataType) -> Option<DataType>
    ensures { result ≡ kind_of_function function (Some dtype) }
{
    match function {
        FunctionExpr::Not => (dtype == DataType::Boolean).then_some(DataType::Boolean),
        FunctionExpr::IsNull | FunctionExpr::IsNotNull => Some(DataType::Boolean),
        FunctionExpr::Reverse => Some(dtype),
    }
}

// One flag, or one for each key.
fn fits_keys(flags: &[bool], keys: usize) -> bool
    ensures { result ≡ fits_number flags.now keys }
{
    flags.len() == 1 || flags.len() == keys
}

// At least one key, with flags for one or for each.
pub(crate) fn have_keys(keys: &[Node], descending: &[bool], nulls_last: &[bool]) -> bool
    ensures { result ≡ (not (length keys.now == 0) && (fits_number descending.now (length keys.now) && fits_number nulls_last.now (length keys.now))) }
{
    !keys.is_empty() && fits_keys(descending, keys.len()) && fits_keys(nulls_last, keys.len())
}
