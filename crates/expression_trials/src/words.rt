// Values as words, so that a trial is a line of text: `null`, `true`, `false`, a whole number as `7`, an index as `7i`, and a
// text as `'x`.
use ps_frame::value::Value;
use std::alloc::{AllocError, Global};
use std::test::Fail;

fn number(word: &str) -> Option<Value> {
    if let Some((index, _)) = word.split_once("i") {
        return Some(Value::IdxSize(index.parse::<u32>().ok()?));
    }
    Some(Value::Int64(word.parse::<i64>().ok()?))
}

/// The value of a word.
pub fn value(alloc: Global, word: &str) -> Result<Value, Fail> {
    if let Some(text) = word.strip_prefix("'") {
        return Ok(Value::of_text(alloc, text)?);
    }
    match word {
        "null" => Ok(Value::Null),
        "true" => Ok(Value::Boolean(true)),
        "false" => Ok(Value::Boolean(false)),
        _ => match number(word) {
            Some(value) => Ok(value),
            None => Err(Fail::from("no value")),
        },
    }
}

/// The values of words with a space between them; of no words none.
pub fn values(alloc: Global, words: &str) -> Result<Vec<Value>, Fail> {
    let mut values = Vec::new(alloc);
    if words.is_empty() {
        return Ok(values);
    }
    for word in words.split(" ") {
        values.push(value(alloc, word)?)?;
    }
    Ok(values)
}

/// Writes a value as a word, behind a space.
pub fn push_value(text: &mut String, value: &Value) -> Result<(), AllocError> {
    match value {
        Value::Null => text.push_str(" null"),
        Value::Boolean(b) => write!(text, " {b}"),
        Value::Int64(z) => write!(text, " {z}"),
        Value::IdxSize(n) => write!(text, " {n}i"),
        Value::String(s) => write!(text, " '{}", s.as_str()),
    }
}

/// The words of values, each behind a space.
pub fn words(alloc: Global, values: &[Value]) -> Result<String, AllocError> {
    let mut text = String::new(alloc);
    for value in values {
        push_value(&mut text, value)?;
    }
    Ok(text)
}

/// The two parts of a line, of which the second begins with a space.
pub fn parts(line: &str) -> Result<(&str, &str), Fail> {
    match line.split_once(" is") {
        Some(parts) => Ok(parts),
        None => Err(Fail::from("a line without an end")),
    }
}
