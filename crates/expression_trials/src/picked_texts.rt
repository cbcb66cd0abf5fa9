// Orders of rows that pick their texts from a few. Two places may hold one text.
ghost use Rattle.std.specs.Prelude.{◌<◌, IfOk};
ghost use Rattle.std.specs.List.{All};

use crate::words::parts;
use ps_compute::order::{Direction, sorted_column, sorted_rows};
use ps_compute::ranks::ranks_of;
use ps_frame::column::Column;
use ps_frame::value::{DataType, Value};
use std::alloc::Global;
use std::test::Fail;

// A text behind so many letters x, or null.
fn value(alloc: Global, letters: usize, word: &str) -> Result<Value, Fail> {
    if word == "null" {
        return Ok(Value::Null);
    }
    let mut text = String::new(alloc);
    for _ in 0..letters {
        text.push('x')?;
    }
    text.push_str(word)?;
    Ok(Value::of_text(alloc, text.as_str())?)
}

// So many rows, in which the texts of these words stand in turn.
fn picked(alloc: Global, letters: usize, words: &str, rows: usize) -> Result<Column, Fail> {
    let mut values = Vec::new(alloc);
    for word in words.split(" ") {
        values.push(value(alloc, letters, word)?)?;
    }
    let column = Column::new(alloc, DataType::String, values)?;
    if column.len() == 0 {
        return Err(Fail::from("no texts"));
    }
    let places = in_turn(alloc, column.len(), rows)?;
    Ok(column.gather(alloc, places.as_slice())?)
}

// A place for each row, one after another, and the first again behind the last.
fn in_turn(alloc: Global, count: usize, rows: usize) -> Result<Vec<usize>, Fail>
    requires { 0 < count }
    ensures { IfOk result (λ places. All (λ i. i < count) places.items) }
{
    let mut places = Vec::new(alloc);
    for row in 0..rows {
        places.push(row % count)?;
    }
    Ok(places)
}

fn ordered(alloc: Global, direction: Direction, key: Column) -> Result<String, Fail> {
    let count = key.len();
    let keys = vec![in alloc; key]?;
    let mut text = String::new(alloc);
    for row in &sorted_rows(alloc, count, keys.as_slice(), &[direction])? {
        write!(text, " {row}")?;
    }
    Ok(text)
}

// How a key sorts: down or up, and where null stands.
fn direction(words: &str) -> Direction {
    Direction::new(
        words.split_once("down").is_some(),
        words.split_once("last").is_some(),
    )
}

// The texts of ten rows, how they sort, and the rows in their order.
const ORDERS: &str = "b a a ab, up, null first is 1 2 5 6 9 3 7 0 4 8
b a a ab, down, null first is 0 4 8 3 7 1 2 5 6 9
b null ab a, up, null first is 1 5 9 3 7 2 6 0 4 8
b null ab a, up, null last is 3 7 2 6 0 4 8 1 5 9
b null ab a, down, null first is 1 5 9 0 4 8 2 6 3 7
b null ab a, down, null last is 0 4 8 2 6 3 7 1 5 9
null null, down, null last is 0 1 2 3 4 5 6 7 8 9
b a b c a, up, null first is 1 4 6 9 0 2 5 7 3 8";

#[test]
fn few_texts_in_order(rt: HostRuntime) -> Result<(), Fail> {
    let alloc = rt.alloc();
    for line in ORDERS.lines() {
        let (case, wanted) = parts(line)?;
        let Some((texts, how)) = case.split_once(", ") else {
            return Err(Fail::from("no texts"));
        };
        for letters in [0usize, 30, 200] {
            let key = picked(alloc, letters, texts, 10)?;
            assert_eq!(rt;
                ordered(alloc, direction(how), key)?.as_str(),
                wanted,
                "of {case} behind {letters}"
            );
        }
    }
    Ok(())
}

// Some rows of a long column have ranks by themselves.
#[test]
fn a_slice_of_long_texts(rt: HostRuntime) -> Result<(), Fail> {
    let alloc = rt.alloc();
    let key = picked(alloc, 200, "b a null c a", 10)?.slice(alloc, 3, 3)?;
    assert!(rt; ranks_of(alloc, &key)?.is_some());
    assert_eq!(rt;
        ordered(alloc, Direction::new(false, false), key)?.as_str(),
        " 1 2 0"
    );
    Ok(())
}

// A column in order has the values of its rows in order, and shares them.
#[test]
fn a_column_in_order(rt: HostRuntime) -> Result<(), Fail> {
    let alloc = rt.alloc();
    for (texts, wanted) in [
        ("b null a", " xa xa xa xb xb xb xb null null null"),
        ("xb b a", " xa xa xa xb xb xb xxb xxb xxb xxb"),
    ] {
        let key = picked(alloc, 1, texts, 10)?;
        let sorted = sorted_column(alloc, Direction::new(false, true), &key)?;
        assert!(rt; sorted.picks().is_some());
        let mut text = String::new(alloc);
        for i in 0..sorted.len() {
            match sorted.value(i) {
                Value::String(value) => write!(text, " {}", value.as_str())?,
                _ => text.push_str(" null")?,
            }
        }
        assert_eq!(rt; text.as_str(), wanted, "of {texts}");
    }
    Ok(())
}

// Over 6,000 rows: two nulls, two places of one text, and a greater one.
#[test]
fn many_rows_of_few_texts(rt: HostRuntime) -> Result<(), Fail> {
    let alloc = rt.alloc();
    let class = [2usize, 1, 0, 1, 0];
    let keys = vec![in alloc; picked(alloc, 500, "b a null a null", 6000)?]?;
    assert!(rt; ranks_of(alloc, &keys[0])?.is_some());
    let rows = sorted_rows(
        alloc,
        6000,
        keys.as_slice(),
        &[Direction::new(false, false)],
    )?;
    assert!(rt; rows.len() == 6000);
    let mut last = (0usize, 0usize);
    for (i, row) in rows.iter().enumerate() {
        let next = (class[*row % 5], *row);
        assert!(rt; i == 0 || last < next, "at {i}");
        last = next;
    }
    Ok(())
}
