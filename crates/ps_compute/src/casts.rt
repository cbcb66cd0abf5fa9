// Casts of values.
ghost use Rattle.std.specs.Prelude.{◌≡◌, ◌↔◌, IfOk, IsTrue, OnErr, Err, option_and_then, option_map, slice_index};
ghost use Rattle.ps_frame.specs.Operators.{cast_value, idx_if_fits, int64_if_fits, read_number};
ghost use Rattle.ps_frame.specs.declared.value.DataType.TheVariants as kind;
ghost use Rattle.ps_frame.specs.declared.value.Value.TheVariants as val;

use itoa::Buffer;
use ps_frame::error::FrameError;
use ps_frame::value::{DataType, Value};
use std::alloc::Global;

/// A value of another kind, if it has one there.
///
/// Null stays null, and a value of the kind stays itself. A truth value gives 0 or 1, and a number
/// whether it isn't 0. A number gives its decimal digits, and a text of an optional `-` and decimal
/// digits its number, where that is in range. An Int64 gives an IdxSize where it is in range.
///
/// Fails only for want of memory.
pub fn cast(alloc: Global, dtype: DataType, value: &Value) -> Result<Option<Value>, FrameError>
    ensures value { IfOk result (λ v. v ≡ cast_value dtype value.now) }
    ensures memory { OnErr result (result ≡ Err FrameError.OutOfMemory) }
{
    match dtype {
        DataType::Boolean => Ok(to_boolean(value)),
        DataType::Int64 => Ok(to_int64(value)),
        DataType::IdxSize => Ok(to_idx(value)),
        DataType::String => to_text(alloc, value),
    }
}

fn to_boolean(value: &Value) -> Option<Value>
    ensures { result ≡ cast_value kind.Boolean value.now }
{
    match value {
        Value::Null => Some(Value::Null),
        Value::Boolean(b) => Some(Value::Boolean(*b)),
        Value::Int64(z) => Some(Value::Boolean(*z != 0)),
        Value::IdxSize(n) => Some(Value::Boolean(*n != 0)),
        Value::String(_) => None,
    }
}

fn to_int64(value: &Value) -> Option<Value>
    ensures { result ≡ cast_value kind.Int64 value.now }
{
    match value {
        Value::Null => Some(Value::Null),
        Value::Boolean(b) => Some(Value::Int64(i64::from(*b))),
        Value::Int64(z) => Some(Value::Int64(*z)),
        Value::IdxSize(n) => Some(Value::Int64(i64::from(*n))),
        Value::String(text) => text_to_int64(text.as_str()),
    }
}

fn to_idx(value: &Value) -> Option<Value>
    ensures { result ≡ cast_value kind.IdxSize value.now }
{
    match value {
        Value::Null => Some(Value::Null),
        Value::Boolean(b) => Some(Value::IdxSize(u32::from(*b))),
        Value::Int64(z) => int64_to_idx(*z),
        Value::IdxSize(n) => Some(Value::IdxSize(*n)),
        Value::String(text) => text_to_idx(text.as_str()),
    }
}

fn int64_to_idx(number: i64) -> Option<Value>
    ensures { result ≡ idx_if_fits number }
{
    match u32::try_from(number) {
        Ok(n) => Some(Value::IdxSize(n)),
        Err(_) => None,
    }
}

fn has_plus(text: &str) -> bool
    ensures { IsTrue result ↔ (slice_index text.now 0 ≡ 43) }
{
    match text.as_bytes().first() {
        Some(byte) => *byte == b'+',
        None => false,
    }
}

/// The number of a text of an optional `-` and decimal digits, where it is in range.
fn read_int64(text: &str) -> Option<i64>
    ensures { option_map val.Int64 result ≡ option_and_then int64_if_fits (read_number text.now) }
{
    if has_plus(text) {
        return None;
    }
    match text.parse::<i64>() {
        Ok(number) => Some(number),
        Err(_) => None,
    }
}

fn text_to_int64(text: &str) -> Option<Value>
    ensures { result ≡ option_and_then int64_if_fits (read_number text.now) }
{
    Some(Value::Int64(read_int64(text)?))
}

fn text_to_idx(text: &str) -> Option<Value>
    ensures { result ≡ option_and_then idx_if_fits (read_number text.now) }
{
    int64_to_idx(read_int64(text)?)
}

fn to_text(alloc: Global, value: &Value) -> Result<Option<Value>, FrameError>
    ensures value { IfOk result (λ v. v ≡ cast_value kind.String value.now) }
    ensures memory { OnErr result (result ≡ Err FrameError.OutOfMemory) }
{
    let mut buffer = Buffer::new();
    match value {
        Value::Null => Ok(Some(Value::Null)),
        Value::Boolean(_) => Ok(None),
        Value::Int64(z) => text_value(alloc, buffer.format(*z)),
        Value::IdxSize(n) => text_value(alloc, buffer.format(*n)),
        Value::String(text) => text_value(alloc, text.as_str()),
    }
}

fn text_value(alloc: Global, text: &str) -> Result<Option<Value>, FrameError>
    ensures value { IfOk result (λ v. v ≡ Some (val.String text.now)) }
    ensures memory { OnErr result (result ≡ Err FrameError.OutOfMemory) }
{
    Ok(Some(Value::of_text(alloc, text)?))
}
