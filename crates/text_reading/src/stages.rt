// Stages, read off their tokens.
ghost use Rattle.std.specs.Prelude.{◌<◌, ◌≤◌, IfErr, IfOk, codes, length};
ghost use Rattle.text_queries.specs.Grammar.{IsOn};
ghost use Rattle.text_queries.specs.Views.{stage_of};
ghost use Rattle.text_reading.specs.Reading.{BehindWord, EndsStage, Found, IsRefusal, IsShallowStage, ReadsEach};

use crate::entries::{read_column, read_items, read_keys, read_names};
use crate::expressions::read_whole;
use crate::numbers::{read_digits, read_integer};
use crate::parts::{behind_word, first_digits, first_word};
use ps_frame::items::Items;
use ps_meaning::options::JoinType;
use pu_base::PlSmallStr;
use std::alloc::Global;
use text_queries::query::Stage;
use text_queries::spelled::how_of;
use text_tokens::error::TextError;
use text_tokens::token::Token;

/// The stage at the front, and the tokens behind it.
pub fn read_stage(alloc: Global, tokens: &[Token]) -> Result<(Stage, &[Token]), TextError>
    ensures found { Found IsShallowStage stage_of tokens.now result }
    ensures shorter { IfOk result (λ x. length x.1.now < length tokens.now) }
    ensures reads { ReadsEach IsShallowStage EndsStage stage_of tokens.now result }
    ensures causes { IfErr result IsRefusal }
{
    let Some((word, rest)) = first_word(tokens) else {
        return Err(TextError::NoReading);
    };
    match word.as_str() {
        "filter" => read_filter(alloc, rest),
        "select" => read_select(alloc, rest),
        "with" => read_with(alloc, rest),
        "group" => read_group(alloc, rest),
        "sort" => read_sort(alloc, rest),
        "slice" => read_slice(rest),
        "distinct" => Ok((Stage::Distinct, rest)),
        "join" => read_join(alloc, rest),
        _ => Err(TextError::NoReading),
    }
}

/// The predicate behind the word `filter`, and the tokens behind it.
fn read_filter(alloc: Global, tokens: &[Token]) -> Result<(Stage, &[Token]), TextError>
    ensures found { Found (BehindWord (codes "filter")) stage_of tokens.now result }
    ensures shorter { IfOk result (λ x. length x.1.now ≤ length tokens.now) }
    ensures reads { ReadsEach (BehindWord (codes "filter")) EndsStage stage_of tokens.now result }
    ensures causes { IfErr result IsRefusal }
{
    // By hand, here and below: the clauses tell the refusals of the call.
    match read_whole(alloc, tokens) {
        Ok((predicate, after)) => Ok((Stage::Filter(predicate), after)),
        Err(error) => Err(error),
    }
}

/// The items behind the word `select`, and the tokens behind them.
fn read_select(alloc: Global, tokens: &[Token]) -> Result<(Stage, &[Token]), TextError>
    ensures found { Found (BehindWord (codes "select")) stage_of tokens.now result }
    ensures shorter { IfOk result (λ x. length x.1.now ≤ length tokens.now) }
    ensures reads { ReadsEach (BehindWord (codes "select")) EndsStage stage_of tokens.now result }
    ensures causes { IfErr result IsRefusal }
{
    match read_items(alloc, tokens) {
        Ok((items, after)) => Ok((Stage::Select(items), after)),
        Err(error) => Err(error),
    }
}

/// The items behind the word `with`, and the tokens behind them.
fn read_with(alloc: Global, tokens: &[Token]) -> Result<(Stage, &[Token]), TextError>
    ensures found { Found (BehindWord (codes "with")) stage_of tokens.now result }
    ensures shorter { IfOk result (λ x. length x.1.now ≤ length tokens.now) }
    ensures reads { ReadsEach (BehindWord (codes "with")) EndsStage stage_of tokens.now result }
    ensures causes { IfErr result IsRefusal }
{
    match read_items(alloc, tokens) {
        Ok((items, after)) => Ok((Stage::With(items), after)),
        Err(error) => Err(error),
    }
}

/// The keys and the aggregates behind the word `group`, and the tokens behind them.
fn read_group(alloc: Global, tokens: &[Token]) -> Result<(Stage, &[Token]), TextError>
    ensures found { Found (BehindWord (codes "group")) stage_of tokens.now result }
    ensures shorter { IfOk result (λ x. length x.1.now ≤ length tokens.now) }
    ensures reads { ReadsEach (BehindWord (codes "group")) EndsStage stage_of tokens.now result }
    ensures causes { IfErr result IsRefusal }
{
    let (keys, rest) = match read_items(alloc, tokens) {
        Ok(keys) => keys,
        Err(error) => return Err(error),
    };
    let Some(behind) = behind_word(rest, "agg") else {
        return Err(TextError::NoReading);
    };
    match read_items(alloc, behind) {
        Ok((aggs, after)) => Ok((Stage::Group { keys, aggs }, after)),
        Err(error) => Err(error),
    }
}

/// The keys behind the word `sort`, and the tokens behind them.
fn read_sort(alloc: Global, tokens: &[Token]) -> Result<(Stage, &[Token]), TextError>
    ensures found { Found (BehindWord (codes "sort")) stage_of tokens.now result }
    ensures shorter { IfOk result (λ x. length x.1.now ≤ length tokens.now) }
    ensures reads { ReadsEach (BehindWord (codes "sort")) EndsStage stage_of tokens.now result }
    ensures causes { IfErr result IsRefusal }
{
    match read_keys(alloc, tokens) {
        Ok((keys, after)) => Ok((Stage::Sort(keys), after)),
        Err(error) => Err(error),
    }
}

/// The offset and the length behind the word `slice`, and the tokens behind them.
fn read_slice(tokens: &[Token]) -> Result<(Stage, &[Token]), TextError>
    ensures found { Found (BehindWord (codes "slice")) stage_of tokens.now result }
    ensures shorter { IfOk result (λ x. length x.1.now ≤ length tokens.now) }
    ensures reads { ReadsEach (BehindWord (codes "slice")) EndsStage stage_of tokens.now result }
    ensures causes { IfErr result IsRefusal }
{
    let (offset, rest) = match read_integer(tokens) {
        Ok(found) => found,
        Err(error) => return Err(error),
    };
    let Some((digits, after)) = first_digits(rest) else {
        return Err(TextError::NoReading);
    };
    match read_digits(digits.as_str()) {
        Some(length) => Ok((Stage::Slice { offset, length }, after)),
        None => Err(TextError::NoReading),
    }
}

/// The kind, the table and the names behind the word `join`, and the tokens behind them.
fn read_join(alloc: Global, tokens: &[Token]) -> Result<(Stage, &[Token]), TextError>
    ensures found { Found (BehindWord (codes "join")) stage_of tokens.now result }
    ensures shorter { IfOk result (λ x. length x.1.now ≤ length tokens.now) }
    ensures reads { ReadsEach (BehindWord (codes "join")) EndsStage stage_of tokens.now result }
    ensures causes { IfErr result IsRefusal }
{
    let Some((word, rest)) = first_word(tokens) else {
        return Err(TextError::NoReading);
    };
    let Some(how) = how_of(word.as_str()) else {
        return Err(TextError::NoReading);
    };
    let (table, rest) = match read_column(alloc, rest) {
        Ok(table) => table,
        Err(error) => return Err(error),
    };
    match read_on(alloc, how, rest) {
        Ok((on, after)) => Ok((Stage::Join { how, table, on }, after)),
        Err(error) => Err(error),
    }
}

/// The names behind the table of a join, and the tokens behind them.
fn read_on(
    alloc: Global,
    how: JoinType,
    tokens: &[Token],
) -> Result<(Items<PlSmallStr>, &[Token]), TextError>
    ensures found { Found (IsOn how) (λ on. on) tokens.now result }
    ensures shorter { IfOk result (λ x. length x.1.now ≤ length tokens.now) }
    ensures reads { ReadsEach (IsOn how) EndsStage (λ on. on) tokens.now result }
    ensures causes { IfErr result IsRefusal }
{
    if let JoinType::Cross = how {
        return Ok((Items::new(Vec::new(alloc)), tokens));
    }
    let Some(behind) = behind_word(tokens, "on") else {
        return Err(TextError::NoReading);
    };
    read_names(alloc, behind)
}
