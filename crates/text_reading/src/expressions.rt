// Expressions, read off their tokens.
ghost use Rattle.std.specs.Prelude.{◌<◌, ◌≤◌, IfErr, IfOk, length};
ghost use Rattle.text_queries.specs.Grammar.{IsExpr, IsWhole};
ghost use Rattle.text_queries.specs.Views.{expr_of};
ghost use Rattle.text_reading.specs.Reading.{Anything, Ends, Found, IsCall, IsClosed, IsLenOf, IsRefusal, IsShallow, ReadsEach};

use crate::deep::Deep;
use crate::leaves::read_leaf;
use crate::operators::{COMPARISON, PRODUCT, next_operator};
use crate::parts::{behind_call, behind_sign};
use pu_base::PlSmallStr;
use std::alloc::Global;
use text_queries::query::TextExpr;
use text_queries::spelled::function_of;
use text_tokens::error::TextError;
use text_tokens::token::{Sign, Token};

/// How deep parentheses may nest.
const NESTING: usize = 100;

/// The whole expression at the front, at most 200 deep, and the tokens behind it.
pub fn read_whole(alloc: Global, tokens: &[Token]) -> Result<(TextExpr, &[Token]), TextError>
    ensures found { Found (IsShallow IsWhole) expr_of tokens.now result }
    ensures shorter { IfOk result (λ x. length x.1.now < length tokens.now) }
    ensures reads { ReadsEach (IsShallow IsWhole) (Ends 1) expr_of tokens.now result }
    ensures causes { IfErr result IsRefusal }
{
    match read_expr(alloc, tokens, 1, NESTING) {
        Ok((deep, rest)) => Ok((deep.expr, rest)),
        Err(error) => Err(error),
    }
}

/// The expression at the front whose operators outside of parentheses bind at least so tightly, and the tokens behind it.
/// At most so many parentheses are open within one another.
#[cycle(expressions)]
fn read_expr(
    alloc: Global,
    tokens: &[Token],
    least: usize,
    opens: usize,
) -> Result<(Deep, &[Token]), TextError>
    requires { least ≤ 6 }
    ensures found { Found (IsShallow (IsExpr opens least)) (λ deep. expr_of deep.expr) tokens.now result }
    ensures shorter { IfOk result (λ x. length x.1.now < length tokens.now) }
    ensures reads { ReadsEach (IsShallow (IsExpr opens least)) (Ends least) (λ deep. expr_of deep.expr) tokens.now result }
    ensures causes { IfErr result IsRefusal }
{
    if least > PRODUCT {
        return read_primary(alloc, tokens, opens);
    }
    // By hand, here and below: the clauses tell the refusals of the call.
    let (mut left, mut rest) = match read_expr(alloc, tokens, least + 1, opens) {
        Ok(first) => first,
        Err(error) => return Err(error),
    };
    while let Some((op, behind)) = next_operator(rest, least) {
        let (right, after) = match read_expr(alloc, behind, least + 1, opens) {
            Ok(next) => next,
            Err(error) => return Err(error),
        };
        let both = match Deep::binary(alloc, op, left, right) {
            Ok(both) => both,
            Err(error) => return Err(error),
        };
        if least == COMPARISON {
            return Ok((both, after));
        }
        left = both;
        rest = after;
    }
    Ok((left, rest))
}

/// The expression at the front that has no operator outside of parentheses, and the tokens behind it.
#[cycle(expressions)]
fn read_primary(
    alloc: Global,
    tokens: &[Token],
    opens: usize,
) -> Result<(Deep, &[Token]), TextError>
    ensures found { Found (IsShallow (IsExpr opens 6)) (λ deep. expr_of deep.expr) tokens.now result }
    ensures shorter { IfOk result (λ x. length x.1.now < length tokens.now) }
    ensures reads { ReadsEach (IsShallow (IsExpr opens 6)) (Ends 6) (λ deep. expr_of deep.expr) tokens.now result }
    ensures causes { IfErr result IsRefusal }
{
    if let Some(rest) = behind_sign(tokens, Sign::Open) {
        return read_closed(alloc, rest, opens);
    }
    if let Some((word, rest)) = behind_call(tokens) {
        return read_call(alloc, word, rest, opens);
    }
    match read_leaf(alloc, tokens) {
        Ok((leaf, rest)) => Ok((Deep::leaf(leaf), rest)),
        Err(error) => Err(error),
    }
}

/// The call of a word behind the parenthesis that opens, and the tokens behind the one that closes it.
#[cycle(expressions)]
fn read_call<'a>(
    alloc: Global,
    word: &PlSmallStr,
    tokens: &'a [Token],
    opens: usize,
) -> Result<(Deep, &'a [Token]), TextError>
    ensures found { Found (IsShallow (IsCall opens word.now)) (λ deep. expr_of deep.expr) tokens.now result }
    ensures shorter { IfOk result (λ x. length x.1.now < length tokens.now) }
    ensures reads { ReadsEach (IsShallow (IsCall opens word.now)) Anything (λ deep. expr_of deep.expr) tokens.now result }
    ensures causes { IfErr result IsRefusal }
{
    let Some(name) = function_of(word.as_str()) else {
        return read_len(word, tokens, opens);
    };
    let (of, after) = match read_closed(alloc, tokens, opens) {
        Ok(closed) => closed,
        Err(error) => return Err(error),
    };
    match Deep::call(alloc, name, of) {
        Ok(call) => Ok((call, after)),
        Err(error) => Err(error),
    }
}

/// The number of rows, which is the call of `len` without an argument, and the tokens behind the parenthesis that closes.
fn read_len<'a>(
    word: &PlSmallStr,
    tokens: &'a [Token],
    opens: usize,
) -> Result<(Deep, &'a [Token]), TextError>
    ensures found { Found (IsLenOf opens word.now) (λ deep. expr_of deep.expr) tokens.now result }
    ensures shorter { IfOk result (λ x. length x.1.now < length tokens.now) }
    ensures reads { ReadsEach (IsLenOf opens word.now) Anything (λ deep. expr_of deep.expr) tokens.now result }
    ensures causes { IfErr result IsRefusal }
{
    if opens == 0 || !word.eq_str("len") {
        return Err(TextError::NoReading);
    }
    match behind_sign(tokens, Sign::Close) {
        Some(after) => Ok((Deep::leaf(TextExpr::Len), after)),
        None => Err(TextError::NoReading),
    }
}

/// The expression behind a parenthesis that opens, and the tokens behind the one that closes it.
#[cycle(expressions)]
fn read_closed(alloc: Global, tokens: &[Token], opens: usize) -> Result<(Deep, &[Token]), TextError>
    ensures found { Found (IsShallow (IsClosed opens)) (λ deep. expr_of deep.expr) tokens.now result }
    ensures shorter { IfOk result (λ x. length x.1.now < length tokens.now) }
    ensures reads { ReadsEach (IsShallow (IsClosed opens)) Anything (λ deep. expr_of deep.expr) tokens.now result }
    ensures causes { IfErr result IsRefusal }
{
    let Some(inner) = opens.checked_sub(1) else {
        return Err(TextError::NoReading);
    };
    let (deep, rest) = match read_expr(alloc, tokens, 1, inner) {
        Ok(found) => found,
        Err(error) => return Err(error),
    };
    match behind_sign(rest, Sign::Close) {
        Some(after) => Ok((deep, after)),
        None => Err(TextError::NoReading),
    }
}
