// The operators on values. None of these calls takes memory.
ghost use Rattle.std.specs.Prelude.{◌≡◌, ◌≢◌, ◌+ℤ◌, ◌-ℤ◌, ◌*ℤ◌, ◌+◌, ◌*◌, pos, if◌then◌else◌};
ghost use Rattle.std.specs.Int.{int_wrap, w64};
ghost use Rattle.ps_compute.specs.Orders.{order_value};
ghost use Rattle.ps_frame.specs.Operators.{arithmetic, binary_value, choice_of, floor_div, floor_mod, not_value, three_and, three_or, wrap_idx};
ghost use Rattle.ps_frame.specs.Values.{is_null as is_null_value, rank as rank_of, value_cmp};
ghost use Rattle.ps_frame.specs.declared.value.Value.TheVariants as val;

use ps_frame::expr::Operator;
use ps_frame::value::Value;
use pu_num::FloorDivMod;
use std::cmp::Ordering;

// Null, and then the kinds in their order.
fn rank(value: &Value) -> u8
    ensures { result ≡ rank_of value.now }
{
    match value {
        Value::Null => 0,
        Value::Boolean(_) => 1,
        Value::Int64(_) => 2,
        Value::IdxSize(_) => 3,
        Value::String(_) => 4,
    }
}

/// The order of two values: false before true, numbers by size, texts by their bytes, and null before all.
///
/// Values of two kinds go by their kinds.
pub fn compare(a: &Value, b: &Value) -> Ordering
    ensures { result ≡ value_cmp a.now b.now }
{
    match (a, b) {
        (Value::Boolean(a), Value::Boolean(b)) => a.cmp(b),
        (Value::Int64(a), Value::Int64(b)) => a.cmp(b),
        (Value::IdxSize(a), Value::IdxSize(b)) => a.cmp(b),
        (Value::String(a), Value::String(b)) => a.as_str().cmp(b.as_str()),
        _ => rank(a).cmp(&rank(b)),
    }
}

/// Whether a value is null.
pub fn is_null(value: &Value) -> bool
    ensures { result ≡ is_null_value value.now }
{
    match value {
        Value::Null => true,
        Value::Boolean(_) | Value::Int64(_) | Value::IdxSize(_) | Value::String(_) => false,
    }
}

/// What an operator gives of two values.
///
/// It is null where either is, but for `And` and `Or`, which are three-valued. Arithmetic is on two
/// numbers of one kind and wraps. Division and its remainder round down, and by 0 give null.
pub fn binary(op: Operator, a: &Value, b: &Value) -> Value
    ensures { result ≡ binary_value op a.now b.now }
{
    // Numbers come first: one look at the kinds is all they take.
    match (a, b) {
        (Value::Int64(a), Value::Int64(b)) => of_int64(op, *a, *b),
        (Value::IdxSize(a), Value::IdxSize(b)) => of_idx(op, *a, *b),
        _ => of_others(op, a, b),
    }
}

// What an operator gives of two values of which arithmetic makes no number.
fn of_others(op: Operator, a: &Value, b: &Value) -> Value
    requires { arithmetic op a.now b.now ≡ val.Null }
    ensures { result ≡ binary_value op a.now b.now }
{
    match op {
        Operator::And => and(a, b),
        Operator::Or => or(a, b),
        _ if is_null(a) || is_null(b) => Value::Null,
        _ => of_order(op, compare(a, b)),
    }
}

// What a comparison makes of an order; null for another operator.
fn of_order(op: Operator, order: Ordering) -> Value
    ensures { result ≡ order_value op order }
{
    match op {
        Operator::Eq => Value::Boolean(order.is_eq()),
        Operator::NotEq => Value::Boolean(order.is_ne()),
        Operator::Lt => Value::Boolean(order.is_lt()),
        Operator::LtEq => Value::Boolean(order.is_le()),
        Operator::Gt => Value::Boolean(order.is_gt()),
        Operator::GtEq => Value::Boolean(order.is_ge()),
        _ => Value::Null,
    }
}

fn and(a: &Value, b: &Value) -> Value
    ensures { result ≡ three_and a.now b.now }
{
    match (a, b) {
        (Value::Boolean(false), _) | (_, Value::Boolean(false)) => Value::Boolean(false),
        (Value::Boolean(true), Value::Boolean(true)) => Value::Boolean(true),
        _ => Value::Null,
    }
}

fn or(a: &Value, b: &Value) -> Value
    ensures { result ≡ three_or a.now b.now }
{
    match (a, b) {
        (Value::Boolean(true), _) | (_, Value::Boolean(true)) => Value::Boolean(true),
        (Value::Boolean(false), Value::Boolean(false)) => Value::Boolean(false),
        _ => Value::Null,
    }
}

fn of_int64(op: Operator, a: i64, b: i64) -> Value
    ensures { result ≡ binary_value op (val.Int64 a) (val.Int64 b) }
{
    match op {
        Operator::Plus => Value::Int64(int64_sum(a, b)),
        Operator::Minus => Value::Int64(int64_difference(a, b)),
        Operator::Multiply => Value::Int64(int64_product(a, b)),
        Operator::FloorDivide if b != 0 => Value::Int64(int64_quotient(a, b)),
        Operator::Modulus if b != 0 => Value::Int64(int64_remainder(a, b)),
        _ => of_order(op, a.cmp(&b)),
    }
}

/// The sum, wrapped.
pub fn int64_sum(a: i64, b: i64) -> i64
    ensures { result ≡ int_wrap w64 (a +ℤ b) }
{
    a.wrapping_add(b)
}

fn int64_difference(a: i64, b: i64) -> i64
    ensures { result ≡ int_wrap w64 (a -ℤ b) }
{
    a.wrapping_sub(b)
}

fn int64_product(a: i64, b: i64) -> i64
    ensures { result ≡ int_wrap w64 (a *ℤ b) }
{
    a.wrapping_mul(b)
}

fn int64_quotient(a: i64, b: i64) -> i64
    requires { b ≢ pos 0 }
    ensures { result ≡ int_wrap w64 (floor_div a b) }
{
    a.wrapping_floor_div_mod(b).0
}

fn int64_remainder(a: i64, b: i64) -> i64
    requires { b ≢ pos 0 }
    ensures { result ≡ int_wrap w64 (floor_mod a b) }
{
    a.wrapping_floor_div_mod(b).1
}

fn of_idx(op: Operator, a: u32, b: u32) -> Value
    ensures { result ≡ binary_value op (val.IdxSize a) (val.IdxSize b) }
{
    match op {
        Operator::Plus => Value::IdxSize(idx_sum(a, b)),
        Operator::Minus => Value::IdxSize(idx_difference(a, b)),
        Operator::Multiply => Value::IdxSize(idx_product(a, b)),
        Operator::FloorDivide if b != 0 => Value::IdxSize(idx_quotient(a, b)),
        Operator::Modulus if b != 0 => Value::IdxSize(idx_remainder(a, b)),
        _ => of_order(op, a.cmp(&b)),
    }
}

/// The sum, wrapped.
pub fn idx_sum(a: u32, b: u32) -> u32
    ensures { result ≡ wrap_idx (pos a +ℤ pos b) }
{
    a.wrapping_add(b)
}

fn idx_difference(a: u32, b: u32) -> u32
    ensures { result ≡ wrap_idx (pos a -ℤ pos b) }
{
    a.wrapping_sub(b)
}

fn idx_product(a: u32, b: u32) -> u32
    ensures { result ≡ wrap_idx (pos a *ℤ pos b) }
{
    a.wrapping_mul(b)
}

fn idx_quotient(a: u32, b: u32) -> u32
    requires { b ≢ 0 }
    ensures { result ≡ wrap_idx (floor_div (pos a) (pos b)) }
{
    a / b
}

fn idx_remainder(a: u32, b: u32) -> u32
    requires { b ≢ 0 }
    ensures { result ≡ wrap_idx (floor_mod (pos a) (pos b)) }
{
    a % b
}

/// The truth value that a value isn't; null stays null.
pub fn negate(value: &Value) -> Value
    ensures { result ≡ not_value value.now }
{
    match value {
        Value::Boolean(b) => Value::Boolean(!*b),
        Value::Null | Value::Int64(_) | Value::IdxSize(_) | Value::String(_) => Value::Null,
    }
}

/// The first branch where the condition is true, and else the second, for null too.
pub fn choose<'a>(condition: &Value, truthy: &'a Value, falsy: &'a Value) -> &'a Value
    ensures { result.now ≡ choice_of condition.now truthy.now falsy.now }
{
    if condition.is_true() { truthy } else { falsy }
}
