// Rows of columns: whether two are the same, and the hash of one.
ghost use Rattle.std.specs.Prelude.{◌≡◌, ◌↔◌, IsTrue};
ghost use Rattle.ps_keys.specs.Hashes.{HaveRow, TellsApart, alone_hash, fed_hash, number_hash, row_at, row_hash, with_value};

use ps_frame::column::Column;
use ps_frame::value::{DataType, Value};
use std::hash::{FoldHasher, Hash, Hasher};

// An odd factor, with which no two numbers get the same hash.
const FACTOR: u64 = 0x9e37_79b9_7f4a_7c15;

// Whether two values are the same; null is the same as null.
fn is_same(a: &Value, b: &Value) -> bool
    ensures { IsTrue result ↔ (a.now ≡ b.now) }
{
    match (a, b) {
        (Value::Null, Value::Null) => true,
        (Value::Boolean(a), Value::Boolean(b)) => a == b,
        (Value::Int64(a), Value::Int64(b)) => a == b,
        (Value::IdxSize(a), Value::IdxSize(b)) => a == b,
        (Value::String(a), Value::String(b)) => a.as_bytes() == b.as_bytes(),
        _ => false,
    }
}

/// Whether two rows have the same values.
pub(crate) fn are_same(columns: &[Column], a: usize, b: usize) -> bool
    requires first { HaveRow columns.now a }
    requires second { HaveRow columns.now b }
    ensures { IsTrue result ↔ (row_at columns.now a ≡ row_at columns.now b) }
{
    for column in columns {
        if !is_same(column.value(a), column.value(b)) {
            return false;
        }
    }
    true
}

fn feed(value: &Value, state: &mut FoldHasher)
    ensures { state.new ≡ with_value state.old value.now }
{
    match value {
        Value::Null => state.write_u8(0),
        Value::Boolean(b) => b.hash(state),
        Value::Int64(z) => z.hash(state),
        Value::IdxSize(n) => n.hash(state),
        Value::String(s) => s.as_str().hash(state),
    }
}

// The hash of a number, which no other number has.
fn hash_number(number: i64) -> u64
    ensures { result ≡ number_hash number }
{
    let bits = number.cast_unsigned();
    // A product's upper bits, of which a bucket is made, depend on all bits below them. Folded so, numbers
    // that differ in their upper bits alone differ in their lower half too.
    (bits ^ bits >> 32).wrapping_mul(FACTOR)
}

// The hash of a number or a null that stands alone in its row.
fn hash_alone(columns: &[Column], row: usize) -> Option<u64>
    requires { HaveRow columns.now row }
    ensures { result ≡ alone_hash (row_at columns.now row) }
{
    match columns {
        [column] => match column.value(row) {
            Value::Null => Some(0),
            Value::Int64(number) => Some(hash_number(*number)),
            _ => None,
        },
        _ => None,
    }
}

// The hash of a row by its values one after another.
fn feed_all(columns: &[Column], row: usize) -> u64
    requires { HaveRow columns.now row }
    ensures { result ≡ fed_hash (row_at columns.now row) }
{
    let mut state = FoldHasher::default();
    for column in columns {
        feed(column.value(row), &mut state);
    }
    state.finish()
}

/// The hash of a row, which depends on its values alone.
pub(crate) fn hash_of(columns: &[Column], row: usize) -> u64
    requires { HaveRow columns.now row }
    ensures { result ≡ row_hash (row_at columns.now row) }
{
    match hash_alone(columns, row) {
        Some(hash) => hash,
        None => feed_all(columns, row),
    }
}

/// Whether rows of this hash are the same. It is so of numbers that stand alone; 0 has the hash of
/// null.
pub(crate) fn tells_apart(columns: &[Column], hash: u64) -> bool
    ensures { IsTrue result → TellsApart columns.now hash }
{
    let [column] = columns else {
        return false;
    };
    // A law: the values of a column of numbers are numbers and nulls, which tells that no others share this hash.
    column.values_fit();
    hash != 0 && column.dtype() == DataType::Int64
}
