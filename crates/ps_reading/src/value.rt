// Small values, which are read whole.
ghost use Rattle.std.specs.Prelude.{◌≡◌, ◌∷◌, Some, List, IfOk, IfSome, map, option_map};
ghost use Rattle.json.specs.Reads.{token_of};
ghost use Rattle.json.specs.Token.{Token as SpecToken};
ghost use Rattle.serde_json.specs.Read.{number_of as number_in};
ghost use Rattle.serde_json.specs.View.{number_view, view};
ghost use Rattle.ps_reading.specs.Reading.{Reads, ReadsItems};

use crate::numbers::{count_of, whole_number_of};
use json::{Reader, Token};
use serde_json::{Number, Value};
use std::alloc::{AllocError, Global};

/// The value that comes first, where arrays nest in it no deeper than `depth`, no object stands in it,
/// and its numbers are whole ones of 64 bits.
///
/// `None` where no such value is told from the tokens; where the reader then stands isn't said. Fails
/// only for want of memory.
#[cycle(read_value)]
pub fn read_value(
    alloc: Global,
    reader: &mut Reader<'_>,
    depth: usize,
) -> Result<Option<Value>, AllocError>
    ensures { IfOk result (λ o. IfSome o (λ v. Reads depth reader.old (view v) reader.new)) }
{
    let Some(token) = reader.next() else {
        return Ok(None);
    };
    match token {
        Token::BeginArray => {
            if depth == 0 {
                return Ok(None);
            }
            let Some(items) = read_values(alloc, reader, depth - 1)? else {
                return Ok(None);
            };
            Ok(Some(Value::Array(items)))
        }
        _ => leaf_of(alloc, token),
    }
}

// The values up to the bracket that closes their array.
#[cycle(read_value)]
fn read_values(
    alloc: Global,
    reader: &mut Reader<'_>,
    depth: usize,
) -> Result<Option<Vec<Value>>, AllocError>
    ensures { IfOk result (λ o. IfSome o (λ vs. ReadsItems depth reader.old (map view vs.items) reader.new)) }
{
    let mut found = Vec::new(alloc);
    'items: while !reader.take_end_array() {
        match read_value(alloc, reader, depth)? {
            Some(item) => found.push(item)?,
            None => return Ok(None),
        }
    }
    Ok(Some(found))
}

// The value that is one token.
fn leaf_of(alloc: Global, token: Token<'_>) -> Result<Option<Value>, AllocError>
    ensures { IfOk result (λ o. IfSome o (λ v. (ts : List SpecToken) → Reads 0 (token_of token.entry ∷ ts) (view v) ts)) }
{
    match token {
        Token::String(text) => Ok(Some(Value::String(String::from_str(alloc, text)?))),
        Token::Number(text) => {
            let Some(number) = number_of(text) else {
                return Ok(None);
            };
            Ok(Some(Value::Number(number)))
        }
        Token::Bool(b) => Ok(Some(Value::Bool(b))),
        Token::Null => Ok(Some(Value::Null)),
        _ => Ok(None),
    }
}

fn number_of(text: &str) -> Option<Number>
    ensures { IfSome result (λ n. number_in text.now ≡ Some (number_view n)) }
{
    if let Some(n) = count_of(text) {
        return Some(Number::from(n));
    }
    if let Some(z) = whole_number_of(text) {
        return Some(Number::from(z));
    }
    None
}
