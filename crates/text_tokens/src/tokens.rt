// A text is cut into its tokens.
ghost use Rattle.std.specs.Prelude.{◌≡◌, ◌≢◌, ℕ, List, Err, IfOk, IfSome, IfNone, IfErr};
ghost use Rattle.text_tokens.specs.declared.error.TextError.TheVariants as refusal;
ghost use Rattle.text_tokens.specs.declared.token.Token.{Token};
ghost use Rattle.text_tokens.specs.declared.token.Token.TheVariants as tokens;
ghost use Rattle.text_tokens.specs.Tokens.{AreTokens, BeginsWith};

use crate::error::TextError;
use crate::quoted::read_quoted;
use crate::run::{Class, begins_with, split_run};
use crate::sign::read_sign;
use crate::token::Token;
use pu_base::PlSmallStr;
use std::alloc::Global;

/// The tokens of a text, each as long as it can be, with spaces and newlines between them alone.
///
/// NoReading exactly where the text isn't cut into tokens so, and no other error but want of memory.
pub fn read_tokens(alloc: Global, text: &str) -> Result<Vec<Token>, TextError>
    ensures found { IfOk result (λ v. AreTokens v.items text.now) }
    ensures only { IfOk result (λ v. (tokens : List Token) → AreTokens tokens text.now → v.items ≡ tokens) }
    ensures none { result ≡ Err refusal.NoReading → (tokens : List Token) → ¬ AreTokens tokens text.now }
    ensures causes { IfErr result (λ e. (name : List ℕ) → e ≢ refusal.UnknownTable name) }
{
    if begins_with(text, Class::Blank) {
        return Err(TextError::NoReading);
    }
    let mut tokens = Vec::new(alloc);
    let mut rest = text;
    while !rest.is_empty() {
        let (_, begun) = split_run(rest, Class::Blank);
        // By hand: the clauses tell the refusals of the call.
        match first_token(alloc, begun) {
            Ok((token, after)) => {
                tokens.push(token)?;
                rest = after;
            }
            Err(error) => return Err(error),
        }
    }
    Ok(tokens)
}

/// The token at the front of a text, as long as it can be, and what stands behind it.
fn first_token(alloc: Global, text: &str) -> Result<(Token, &str), TextError>
    ensures found { IfOk result (λ x. BeginsWith text.now x.0 x.1.now) }
    ensures none { result ≡ Err refusal.NoReading → (token : Token) (after : List ℕ) → ¬ BeginsWith text.now token after }
    ensures causes { IfErr result (λ e. (name : List ℕ) → e ≢ refusal.UnknownTable name) }
{
    if let Some((word, after)) = split_word(text) {
        return Ok((Token::Word(PlSmallStr::from_str(alloc, word)?), after));
    }
    if let Some((digits, after)) = split_digits(text) {
        return Ok((Token::Digits(PlSmallStr::from_str(alloc, digits)?), after));
    }
    if let Some(opened) = text.strip_prefix('"') {
        // By hand, here and below: the clauses tell the refusals of the call.
        return match read_quoted(alloc, opened, '"') {
            Ok((name, after)) => Ok((Token::Name(name), after)),
            Err(error) => Err(error),
        };
    }
    if let Some(opened) = text.strip_prefix('\'') {
        return match read_quoted(alloc, opened, '\'') {
            Ok((content, after)) => Ok((Token::Text(content), after)),
            Err(error) => Err(error),
        };
    }
    match read_sign(text) {
        Some((sign, after)) => Ok((Token::Sign(sign), after)),
        None => Err(TextError::NoReading),
    }
}

/// The word at the front of a text, and what stands behind it.
fn split_word(text: &str) -> Option<(&str, &str)>
    ensures some { IfSome result (λ x. BeginsWith text.now (tokens.Word x.0.now) x.1.now) }
    ensures none { IfNone result ((word after : List ℕ) → ¬ BeginsWith text.now (tokens.Word word) after) }
{
    let (word, after) = split_run(text, Class::Word);
    if begins_with(word, Class::Letter) {
        Some((word, after))
    } else {
        None
    }
}

/// The digits at the front of a text, and what stands behind them.
fn split_digits(text: &str) -> Option<(&str, &str)>
    ensures some { IfSome result (λ x. BeginsWith text.now (tokens.Digits x.0.now) x.1.now) }
    ensures none { IfNone result ((digits after : List ℕ) → ¬ BeginsWith text.now (tokens.Digits digits) after) }
{
    let (digits, after) = split_run(text, Class::Digit);
    if begins_with(digits, Class::Digit) {
        Some((digits, after))
    } else {
        None
    }
}
