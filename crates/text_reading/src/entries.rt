// Items, keys and names with commas between, read off their tokens.
ghost use Rattle.std.specs.Prelude.{◌<◌, IfErr, IfOk, length, map};
ghost use Rattle.text_queries.specs.Grammar.{IsColumn, IsItem, IsKey, Listed};
ghost use Rattle.text_queries.specs.Views.{item_of, key_of};
ghost use Rattle.text_reading.specs.Reading.{Anything, Ends, EndsKey, EndsList, Found, HoldsShallow, IsRefusal, ReadsEach};

use crate::expressions::read_whole;
use crate::parts::{behind_sign, behind_word, first_token, read_name};
use ps_frame::items::Items;
use pu_base::PlSmallStr;
use std::alloc::Global;
use text_queries::query::{Item, Key};
use text_tokens::error::TextError;
use text_tokens::token::{Sign, Token};

/// The items at the front, with commas between, and the tokens behind them.
pub fn read_items(alloc: Global, tokens: &[Token]) -> Result<(Items<Item>, &[Token]), TextError>
    ensures found { Found (Listed (HoldsShallow IsItem (λ item. item.expr))) (λ items. map item_of items) tokens.now result }
    ensures shorter { IfOk result (λ x. length x.1.now < length tokens.now) }
    ensures reads { ReadsEach (Listed (HoldsShallow IsItem (λ item. item.expr))) (EndsList (Ends 1)) (λ items. map item_of items) tokens.now result }
    ensures causes { IfErr result IsRefusal }
{
    // By hand, here and below: the clauses tell the refusals of the call.
    let (first, mut rest) = match read_item(alloc, tokens) {
        Ok(first) => first,
        Err(error) => return Err(error),
    };
    let mut items = Vec::new(alloc);
    items.push(first)?;
    while let Some(behind) = behind_sign(rest, Sign::Comma) {
        match read_item(alloc, behind) {
            Ok((item, after)) => {
                items.push(item)?;
                rest = after;
            }
            Err(error) => return Err(error),
        }
    }
    Ok((Items::new(items), rest))
}

/// The item at the front, and the tokens behind it.
fn read_item(alloc: Global, tokens: &[Token]) -> Result<(Item, &[Token]), TextError>
    ensures found { Found (HoldsShallow IsItem (λ item. item.expr)) item_of tokens.now result }
    ensures shorter { IfOk result (λ x. length x.1.now < length tokens.now) }
    ensures reads { ReadsEach (HoldsShallow IsItem (λ item. item.expr)) (Ends 1) item_of tokens.now result }
    ensures causes { IfErr result IsRefusal }
{
    let Some((first, behind)) = first_token(tokens) else {
        return Err(TextError::NoReading);
    };
    let Some(rest) = behind_sign(behind, Sign::Is) else {
        return Err(TextError::NoReading);
    };
    let name = match read_name(alloc, first) {
        Ok(name) => name,
        Err(error) => return Err(error),
    };
    match read_whole(alloc, rest) {
        Ok((expr, after)) => Ok((Item { name, expr }, after)),
        Err(error) => Err(error),
    }
}

/// The keys at the front, with commas between, and the tokens behind them.
pub fn read_keys(alloc: Global, tokens: &[Token]) -> Result<(Items<Key>, &[Token]), TextError>
    ensures found { Found (Listed (HoldsShallow IsKey (λ key. key.expr))) (λ keys. map key_of keys) tokens.now result }
    ensures shorter { IfOk result (λ x. length x.1.now < length tokens.now) }
    ensures reads { ReadsEach (Listed (HoldsShallow IsKey (λ key. key.expr))) (EndsList EndsKey) (λ keys. map key_of keys) tokens.now result }
    ensures causes { IfErr result IsRefusal }
{
    let (first, mut rest) = match read_key(alloc, tokens) {
        Ok(first) => first,
        Err(error) => return Err(error),
    };
    let mut keys = Vec::new(alloc);
    keys.push(first)?;
    while let Some(behind) = behind_sign(rest, Sign::Comma) {
        match read_key(alloc, behind) {
            Ok((key, after)) => {
                keys.push(key)?;
                rest = after;
            }
            Err(error) => return Err(error),
        }
    }
    Ok((Items::new(keys), rest))
}

/// The key at the front, and the tokens behind it.
fn read_key(alloc: Global, tokens: &[Token]) -> Result<(Key, &[Token]), TextError>
    ensures found { Found (HoldsShallow IsKey (λ key. key.expr)) key_of tokens.now result }
    ensures shorter { IfOk result (λ x. length x.1.now < length tokens.now) }
    ensures reads { ReadsEach (HoldsShallow IsKey (λ key. key.expr)) EndsKey key_of tokens.now result }
    ensures causes { IfErr result IsRefusal }
{
    let (expr, rest) = match read_whole(alloc, tokens) {
        Ok(found) => found,
        Err(error) => return Err(error),
    };
    match behind_word(rest, "desc") {
        Some(behind) => Ok((Key { expr, desc: true }, behind)),
        None => Ok((Key { expr, desc: false }, rest)),
    }
}

/// The names at the front, with commas between, and the tokens behind them.
pub fn read_names(
    alloc: Global,
    tokens: &[Token],
) -> Result<(Items<PlSmallStr>, &[Token]), TextError>
    ensures found { Found (Listed IsColumn) (λ names. names) tokens.now result }
    ensures shorter { IfOk result (λ x. length x.1.now < length tokens.now) }
    ensures reads { ReadsEach (Listed IsColumn) (EndsList Anything) (λ names. names) tokens.now result }
    ensures causes { IfErr result IsRefusal }
{
    let (first, mut rest) = match read_column(alloc, tokens) {
        Ok(first) => first,
        Err(error) => return Err(error),
    };
    let mut names = Vec::new(alloc);
    names.push(first)?;
    while let Some(behind) = behind_sign(rest, Sign::Comma) {
        match read_column(alloc, behind) {
            Ok((name, after)) => {
                names.push(name)?;
                rest = after;
            }
            Err(error) => return Err(error),
        }
    }
    Ok((Items::new(names), rest))
}

/// The name at the front, and the tokens behind it.
pub fn read_column(alloc: Global, tokens: &[Token]) -> Result<(PlSmallStr, &[Token]), TextError>
    ensures found { Found IsColumn (λ name. name) tokens.now result }
    ensures shorter { IfOk result (λ x. length x.1.now < length tokens.now) }
    ensures reads { ReadsEach IsColumn Anything (λ name. name) tokens.now result }
    ensures causes { IfErr result IsRefusal }
{
    let Some((first, rest)) = first_token(tokens) else {
        return Err(TextError::NoReading);
    };
    match read_name(alloc, first) {
        Ok(name) => Ok((name, rest)),
        Err(error) => Err(error),
    }
}
