// The least parts of a query, read off its tokens.
ghost use Rattle.std.specs.Prelude.{◌≡◌, ◌≢◌, ◌∷◌, [], ℕ, List, Err, IfErr, IfOk, IfSome, IfNone};
ghost use Rattle.text_queries.specs.Grammar.{IsName};
ghost use Rattle.text_reading.specs.Reading.{IsRefusal};
ghost use Rattle.text_tokens.specs.declared.error.TextError.TheVariants as refusal;
ghost use Rattle.text_tokens.specs.declared.token.Sign.TheVariants as sign;
ghost use Rattle.text_tokens.specs.declared.token.Token.{Token};
ghost use Rattle.text_tokens.specs.declared.token.Token.TheVariants as token;

use pu_base::PlSmallStr;
use std::alloc::Global;
use text_queries::names::is_reserved;
use text_tokens::error::TextError;
use text_tokens::token::{Sign, Token};

/// The tokens behind a word, where they begin with it.
pub fn behind_word<'a>(tokens: &'a [Token], word: &str) -> Option<&'a [Token]>
    ensures some { IfSome result (λ rest. tokens.now ≡ token.Word word.now ∷ rest.now) }
    ensures none { IfNone result ((rest : List Token) → tokens.now ≢ token.Word word.now ∷ rest) }
{
    match tokens {
        [Token::Word(first), rest @ ..] if first.eq_str(word) => Some(rest),
        _ => None,
    }
}

/// The tokens behind a sign, where they begin with it.
pub fn behind_sign(tokens: &[Token], sign: Sign) -> Option<&[Token]>
    ensures some { IfSome result (λ rest. tokens.now ≡ token.Sign sign ∷ rest.now) }
    ensures none { IfNone result ((rest : List Token) → tokens.now ≢ token.Sign sign ∷ rest) }
{
    match tokens {
        [Token::Sign(first), rest @ ..] if *first == sign => Some(rest),
        _ => None,
    }
}

/// The token at the front, and the tokens behind it.
pub fn first_token(tokens: &[Token]) -> Option<(&Token, &[Token])>
    ensures some { IfSome result (λ x. tokens.now ≡ x.0.now ∷ x.1.now) }
    ensures none { IfNone result (tokens.now ≡ []) }
{
    tokens.split_first()
}

/// The word at the front, and the tokens behind it.
pub fn first_word(tokens: &[Token]) -> Option<(&PlSmallStr, &[Token])>
    ensures some { IfSome result (λ x. tokens.now ≡ token.Word x.0.now ∷ x.1.now) }
    ensures none { IfNone result ((word : List ℕ) (rest : List Token) → tokens.now ≢ token.Word word ∷ rest) }
{
    match tokens {
        [Token::Word(word), rest @ ..] => Some((word, rest)),
        _ => None,
    }
}

/// The digits at the front, and the tokens behind them.
pub fn first_digits(tokens: &[Token]) -> Option<(&PlSmallStr, &[Token])>
    ensures some { IfSome result (λ x. tokens.now ≡ token.Digits x.0.now ∷ x.1.now) }
    ensures none { IfNone result ((digits : List ℕ) (rest : List Token) → tokens.now ≢ token.Digits digits ∷ rest) }
{
    match tokens {
        [Token::Digits(digits), rest @ ..] => Some((digits, rest)),
        _ => None,
    }
}

/// A word before a parenthesis that opens, and the tokens behind it.
pub fn behind_call(tokens: &[Token]) -> Option<(&PlSmallStr, &[Token])>
    ensures some { IfSome result (λ x. tokens.now ≡ token.Word x.0.now ∷ token.Sign sign.Open ∷ x.1.now) }
    ensures none { IfNone result ((word : List ℕ) (rest : List Token) → tokens.now ≢ token.Word word ∷ token.Sign sign.Open ∷ rest) }
{
    match tokens {
        [Token::Word(word), Token::Sign(Sign::Open), rest @ ..] => Some((word, rest)),
        _ => None,
    }
}

/// The name that a token is.
pub fn read_name(alloc: Global, token: &Token) -> Result<PlSmallStr, TextError>
    ensures found { IfOk result (λ name. IsName token.now name) }
    ensures none { result ≡ Err refusal.NoReading → (name : List ℕ) → ¬ IsName token.now name }
    ensures causes { IfErr result IsRefusal }
{
    match token {
        Token::Word(word) => {
            if is_reserved(word.as_str()) {
                Err(TextError::NoReading)
            } else {
                Ok(word.try_clone(alloc)?)
            }
        }
        Token::Name(name) => Ok(name.try_clone(alloc)?),
        Token::Digits(_) | Token::Text(_) | Token::Sign(_) => Err(TextError::NoReading),
    }
}
