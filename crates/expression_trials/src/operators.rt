// Extremes of each operator, with answers that were worked out by hand.
use crate::words::{parts, push_value, value, values, words};
use ps_compute::aggregates::{
    copy_or_null, count_distinct, count_not_null, first, greatest, last, least, sum,
};
use ps_compute::casts::cast;
use ps_compute::operators::{binary, choose, idx_sum, int64_sum, negate};
use ps_compute::order::{Direction, directions_for, sorted_rows, sorted_values};
use ps_compute::selection::{gathered, reversed, slice_bounds};
use ps_compute::values::ValueList;
use ps_frame::column::Column;
use ps_frame::expr::Operator;
use ps_frame::value::{Cell, DataType, Value};
use std::alloc::Global;
use std::test::Fail;

fn operator(word: &str) -> Operator {
    match word {
        "+" => Operator::Plus,
        "-" => Operator::Minus,
        "*" => Operator::Multiply,
        "div" => Operator::FloorDivide,
        "mod" => Operator::Modulus,
        "and" => Operator::And,
        "or" => Operator::Or,
        "==" => Operator::Eq,
        "!=" => Operator::NotEq,
        "<" => Operator::Lt,
        "<=" => Operator::LtEq,
        ">" => Operator::Gt,
        _ => Operator::GtEq,
    }
}

const OPERATIONS: &str = "9223372036854775807 + 1 is -9223372036854775808
-9223372036854775808 - 1 is 9223372036854775807
-9223372036854775808 * -1 is -9223372036854775808
-9223372036854775808 div -1 is -9223372036854775808
-9223372036854775808 mod -1 is 0
-7 div 2 is -4
7 div -2 is -4
-7 mod 2 is 1
7 mod -2 is -1
1 div 0 is null
1 mod 0 is null
4294967295i + 1i is 0i
0i - 1i is 4294967295i
65536i * 65536i is 0i
7i div 2i is 3i
7i mod 2i is 1i
1i div 0i is null
1i mod 0i is null
false and null is false
null and false is false
true and null is null
true and true is true
true or null is true
null or true is true
false or null is null
false or false is false
null == null is null
false < true is true
false >= true is false
true != false is true
true <= true is true
true > null is null";

// What an operation gives, as `7 div 2`.
fn operated(alloc: Global, operation: &str) -> Result<String, Fail> {
    let Some((a, rest)) = operation.split_once(" ") else {
        return Err(Fail::from("no operation"));
    };
    let Some((word, b)) = rest.split_once(" ") else {
        return Err(Fail::from("no operation"));
    };
    let given = binary(operator(word), &value(alloc, a)?, &value(alloc, b)?);
    let mut text = String::new(alloc);
    push_value(&mut text, &given)?;
    Ok(text)
}

#[test]
fn whole_numbers_and_three_values(rt: HostRuntime) -> Result<(), Fail> {
    for line in OPERATIONS.lines() {
        let (operation, wanted) = parts(line)?;
        assert_eq!(rt;
            operated(rt.alloc(), operation)?.as_str(),
            wanted,
            "of {operation}"
        );
    }
    Ok(())
}

#[test]
fn sums_negations_and_choices(rt: HostRuntime) -> Result<(), Fail> {
    let alloc = rt.alloc();
    let (yes, no) = (Value::Boolean(true), Value::Boolean(false));
    let mut text = String::new(alloc);
    push_value(&mut text, &negate(&Value::Null))?;
    push_value(&mut text, &negate(&yes))?;
    push_value(&mut text, choose(&Value::Null, &yes, &no))?;
    push_value(&mut text, choose(&yes, &Value::Null, &no))?;
    assert_eq!(rt; text.as_str(), " null false false null");
    assert!(rt; int64_sum(i64::MAX, i64::MAX) == -2 && idx_sum(u32::MAX, u32::MAX) == u32::MAX - 1);
    Ok(())
}

fn kind(word: &str) -> DataType {
    match word {
        "int" => DataType::Int64,
        "idx" => DataType::IdxSize,
        "bool" => DataType::Boolean,
        _ => DataType::String,
    }
}

// A value, and the kind that it is cast to; where there is no counterpart, nothing is given.
const CASTS: &str = "'-0 int is 0
'007 int is 7
'-12 int is -12
'+5 int is
' int is
'- int is
'--1 int is
'9223372036854775807 int is 9223372036854775807
'9223372036854775808 int is
'-9223372036854775808 int is -9223372036854775808
'-0 idx is 0i
'-1 idx is
'4294967295 idx is 4294967295i
'4294967296 idx is
-9223372036854775808 str is '-9223372036854775808
0i str is '0
-1 idx is
4294967295 idx is 4294967295i
-3 bool is true
true int is 1
true str is
null bool is null";

fn cast_to(alloc: Global, value: &Value, dtype: DataType) -> Result<String, Fail> {
    let mut text = String::new(alloc);
    if let Some(value) = cast(alloc, dtype, value)? {
        push_value(&mut text, &value)?;
    }
    Ok(text)
}

#[test]
fn casts(rt: HostRuntime) -> Result<(), Fail> {
    let alloc = rt.alloc();
    for line in CASTS.lines() {
        let (given, wanted) = parts(line)?;
        let Some((word, name)) = given.split_once(" ") else {
            return Err(Fail::from("no kind"));
        };
        let text = cast_to(alloc, &value(alloc, word)?, kind(name))?;
        assert_eq!(rt; text.as_str(), wanted, "of {given}");
    }
    let spaced = value(alloc, "' 1")?;
    assert_eq!(rt; cast_to(alloc, &spaced, DataType::Int64)?.as_str(), "");
    Ok(())
}

// An aggregate of values, by its name.
fn aggregate<L: ValueList>(alloc: Global, name: &str, values: &L) -> Result<Value, Fail> {
    Ok(match name {
        "least" => copy_or_null(alloc, least(values))?,
        "greatest" => copy_or_null(alloc, greatest(values))?,
        "first" => copy_or_null(alloc, first(values))?,
        "last" => copy_or_null(alloc, last(values))?,
        "count" => Value::IdxSize(u32::try_from(count_not_null(values)).unwrap_or(0)),
        "distinct" => Value::IdxSize(u32::try_from(count_distinct(alloc, values)?).unwrap_or(0)),
        "sum" => sum(DataType::Int64, values),
        "idx_sum" => sum(DataType::IdxSize, values),
        _ => sum(DataType::Boolean, values),
    })
}

const AGGREGATES: &str = "least of 3 null 1 3 null is 1
greatest of 3 null 1 3 null is 3
first of 3 null 1 3 null is 3
last of 3 null 1 3 null is null
count of 3 null 1 3 null is 3i
distinct of 3 null 1 3 null is 3i
least of  is null
last of  is null
distinct of  is 0i
sum of  is 0
sum of 9223372036854775807 2 is -9223372036854775807
idx_sum of 4294967295i null 2i is 1i
bool_sum of true true is 2i";

#[test]
fn aggregates(rt: HostRuntime) -> Result<(), Fail> {
    let alloc = rt.alloc();
    for line in AGGREGATES.lines() {
        let (given, wanted) = parts(line)?;
        let Some((name, of)) = given.split_once(" of ") else {
            return Err(Fail::from("no aggregate"));
        };
        let mut text = String::new(alloc);
        push_value(&mut text, &aggregate(alloc, name, &values(alloc, of)?)?)?;
        assert_eq!(rt; text.as_str(), wanted, "of {given}");
    }
    Ok(())
}

fn column(alloc: Global, numbers: &str) -> Result<Column, Fail> {
    Ok(Column::new(alloc, DataType::Int64, values(alloc, numbers)?)?)
}

// One value in four cells.
fn four_cells(alloc: Global) -> Result<Column, Fail> {
    let one = column(alloc, "3")?;
    if one.len() != 1 {
        return Err(Fail::from("no value"));
    }
    Ok(one.broadcast(alloc, 4)?)
}

#[test]
fn aggregates_of_a_picked_column(rt: HostRuntime) -> Result<(), Fail> {
    let alloc = rt.alloc();
    let threes = four_cells(alloc)?;
    let mut text = String::new(alloc);
    for name in ["sum", "last", "count", "distinct"] {
        push_value(&mut text, &aggregate(alloc, name, &threes)?)?;
    }
    assert_eq!(rt; text.as_str(), " 12 3 4i 1i");
    Ok(())
}

// Two keys, of which the first goes up with nulls last, and the second down with nulls first, and the rows in their order.
const ORDERS: &str = "2 1 null 1 2 1 and 7 5 9 null 7 6 is 3 5 1 0 4 2
2 -1 2 -1 2 and -7 -2147483648 2147483647 2147483647 -7 is 3 1 2 0 4
2 -1 2 -1 2 and -7 -2147483648 9000000000 9000000000 -7 is 3 1 2 0 4
1000000000001 1000000000000 1000000000001 1000000000000 1000000000001 and -7 -2147483648 2147483647 2147483647 -7 is 3 1 2 0 4
9223372036854775807 -9223372036854775808 9223372036854775807 -9223372036854775808 9223372036854775807 and -7 -2147483648 9223372036854775807 9223372036854775807 -7 is 3 1 2 0 4";

// The rows of two keys in their order.
fn ordered(alloc: Global, keys: &str) -> Result<String, Fail> {
    let Some((a, b)) = keys.split_once(" and ") else {
        return Err(Fail::from("no two keys"));
    };
    let keys = vec![in alloc; column(alloc, a)?, column(alloc, b)?]?;
    let count = a.split(" ").count();
    let directions = directions_for(alloc, 2, &[false, true], &[true, false])?;
    let rows = sorted_rows(alloc, count, keys.as_slice(), directions.as_slice())?;
    let mut text = String::new(alloc);
    for row in &rows {
        write!(text, " {row}")?;
    }
    Ok(text)
}

#[test]
fn orders_of_two_keys(rt: HostRuntime) -> Result<(), Fail> {
    for line in ORDERS.lines() {
        let (keys, wanted) = parts(line)?;
        assert_eq!(rt; ordered(rt.alloc(), keys)?.as_str(), wanted, "of {keys}");
    }
    Ok(())
}

#[test]
fn orders_of_values(rt: HostRuntime) -> Result<(), Fail> {
    let alloc = rt.alloc();
    let down = sorted_values(Direction::new(true, false), values(alloc, "2 null 3 1")?)?;
    assert_eq!(rt; words(alloc, down.as_slice())?.as_str(), " null 3 2 1");
    let up = sorted_values(Direction::new(false, true), down)?;
    assert_eq!(rt; words(alloc, up.as_slice())?.as_str(), " 1 2 3 null");
    assert!(rt; directions_for(alloc, 3, &[true], &[false])?.len() == 3);
    Ok(())
}

#[test]
fn places(rt: HostRuntime) -> Result<(), Fail> {
    let alloc = rt.alloc();
    let given = values(alloc, "5 null 6")?;
    let cells = gathered(alloc, &given, &values(alloc, "2i 3 -1 null 1")?)?;
    let mut text = String::new(alloc);
    for cell in &cells {
        match cell {
            Cell::Val(value) => push_value(&mut text, value)?,
            Cell::Bad(fault) => write!(text, " {fault:?}")?,
        }
    }
    assert_eq!(rt; text.as_str(), " 6 Gather Gather null null");
    let turned = reversed(alloc, given.as_slice())?;
    assert_eq!(rt; words(alloc, turned.as_slice())?.as_str(), " 6 null 5");
    Ok(())
}

#[test]
fn bounds_of_slices(rt: HostRuntime) {
    for (count, offset, length, wanted) in [
        (3, i64::MIN, i64::MAX, (0, 2)),
        (3, -2, 1, (1, 2)),
        (3, 1, i64::MAX, (1, 3)),
        (3, 5, 1, (3, 3)),
        (0, -1, 1, (0, 0)),
    ] {
        assert_eq!(rt; slice_bounds(count, offset, length), wanted);
    }
}
