// Expressions without operators and parentheses, read off their tokens.
ghost use Rattle.std.specs.Prelude.{◌≡◌, ◌<◌, ◌≤◌, IfErr, IfOk, codes, length};
ghost use Rattle.text_reading.specs.Reading.{Anything, Behind, Found, IsLeaf, IsRefusal, ReadsEach};
ghost use Rattle.text_queries.specs.Views.{expr_of};
ghost use Rattle.text_tokens.specs.declared.token.Token.TheVariants as token;

use crate::numbers::read_integer;
use crate::parts::{first_token, first_word};
use pu_base::PlSmallStr;
use std::alloc::Global;
use text_queries::names::is_reserved;
use text_queries::query::TextExpr;
use text_queries::spelled::kind_of;
use text_tokens::error::TextError;
use text_tokens::token::Token;

/// The name, number, text, truth value or null at the front, and the tokens behind it.
pub fn read_leaf(alloc: Global, tokens: &[Token]) -> Result<(TextExpr, &[Token]), TextError>
    ensures found { Found IsLeaf expr_of tokens.now result }
    ensures shorter { IfOk result (λ x. length x.1.now < length tokens.now) }
    ensures reads { ReadsEach IsLeaf Anything expr_of tokens.now result }
    ensures causes { IfErr result IsRefusal }
{
    let Some((first, rest)) = first_token(tokens) else {
        return Err(TextError::NoReading);
    };
    match first {
        Token::Word(word) => read_word(alloc, word, rest),
        Token::Name(name) => Ok((TextExpr::Name(name.try_clone(alloc)?), rest)),
        Token::Text(content) => Ok((TextExpr::Text(content.try_clone(alloc)?), rest)),
        Token::Digits(_) | Token::Sign(_) => match read_integer(tokens) {
            Ok((number, after)) => Ok((TextExpr::Int(number), after)),
            Err(error) => Err(error),
        },
    }
}

/// The name, truth value or null that begins with a word, and the tokens behind it.
fn read_word<'a>(
    alloc: Global,
    word: &PlSmallStr,
    tokens: &'a [Token],
) -> Result<(TextExpr, &'a [Token]), TextError>
    ensures found { Found (Behind (token.Word word.now) IsLeaf) expr_of tokens.now result }
    ensures shorter { IfOk result (λ x. length x.1.now ≤ length tokens.now) }
    ensures reads { ReadsEach (Behind (token.Word word.now) IsLeaf) Anything expr_of tokens.now result }
    ensures causes { IfErr result IsRefusal }
{
    match word.as_str() {
        "true" => Ok((TextExpr::Bool(true), tokens)),
        "false" => Ok((TextExpr::Bool(false), tokens)),
        "null" => read_null(tokens),
        text => {
            if is_reserved(text) {
                return Err(TextError::NoReading);
            }
            Ok((TextExpr::Name(word.try_clone(alloc)?), tokens))
        }
    }
}

/// The null of the kind behind the word `null`, and the tokens behind it.
fn read_null(tokens: &[Token]) -> Result<(TextExpr, &[Token]), TextError>
    ensures found { Found (Behind (token.Word (codes "null")) IsLeaf) expr_of tokens.now result }
    ensures shorter { IfOk result (λ x. length x.1.now ≤ length tokens.now) }
    ensures reads { ReadsEach (Behind (token.Word (codes "null")) IsLeaf) Anything expr_of tokens.now result }
    ensures causes { IfErr result IsRefusal }
{
    let Some((word, rest)) = first_word(tokens) else {
        return Err(TextError::NoReading);
    };
    match kind_of(word.as_str()) {
        Some(kind) => Ok((TextExpr::Null(kind), rest)),
        None => Err(TextError::NoReading),
    }
}
