// Numbers, read off their digits.
ghost use Rattle.std.specs.Prelude.{◌≡◌, ◌∷◌, [], ◌<◌, ◌≤◌, ◌^◌, IfErr, IfNone, IfOk, IfSome, length, neg_ℤ, pos};
ghost use Rattle.std.specs.Char.{is_ascii_digit};
ghost use Rattle.std.specs.List.{list_all};
ghost use Rattle.text_queries.specs.Grammar.{IsInteger, number};
ghost use Rattle.text_reading.specs.Reading.{Anything, Found, IsRefusal, ReadsEach};
ghost use Rattle.text_tokens.specs.Tokens.{IsToken};
ghost use Rattle.text_tokens.specs.declared.token.Token.TheVariants as token;

use crate::parts::{behind_sign, first_digits};
use text_tokens::error::TextError;
use text_tokens::token::{Sign, Token};

/// The number that digits write, where 64 bits hold it.
pub fn read_digits(digits: &str) -> Option<u64>
    ensures some { IfSome result (λ n. IsToken (token.Digits digits.now) × (n ≡ number digits.now)) }
    ensures none { IfNone result (IsToken (token.Digits digits.now) → 2 ^ 64 ≤ number digits.now) }
{
    if has_digits_alone(digits) {
        digits.parse::<u64>().ok()
    } else {
        None
    }
}

/// Whether each byte is a digit.
fn has_digits_alone(digits: &str) -> bool
    ensures { result ≡ list_all is_ascii_digit digits.now }
{
    digits.bytes().all(|byte| byte.is_ascii_digit())
}

/// The integer that digits write, where 64 bits hold it.
fn read_positive(digits: &str) -> Option<i64>
    ensures some { IfSome result (λ n. IsInteger (token.Digits digits.now ∷ []) n) }
    ensures none { IfNone result (IsToken (token.Digits digits.now) → 2 ^ 63 ≤ number digits.now) }
{
    let number = read_digits(digits)?;
    0i64.checked_add_unsigned(number)
}

/// The integer that digits write behind a `-`, where 64 bits hold it.
fn read_negative(digits: &str) -> Option<i64>
    ensures some { IfSome result (λ n. IsToken (token.Digits digits.now) × (n ≡ neg_ℤ (pos (number digits.now))) × (number digits.now ≤ 2 ^ 63)) }
    ensures none { IfNone result (IsToken (token.Digits digits.now) → 2 ^ 63 < number digits.now) }
{
    let number = read_digits(digits)?;
    0i64.checked_sub_unsigned(number)
}

/// The integer at the front, and the tokens behind it.
pub fn read_integer(tokens: &[Token]) -> Result<(i64, &[Token]), TextError>
    ensures found { Found IsInteger (λ n. n) tokens.now result }
    ensures shorter { IfOk result (λ x. length x.1.now < length tokens.now) }
    ensures reads { ReadsEach IsInteger Anything (λ n. n) tokens.now result }
    ensures causes { IfErr result IsRefusal }
{
    if let Some((digits, rest)) = first_digits(tokens) {
        return match read_positive(digits.as_str()) {
            Some(number) => Ok((number, rest)),
            None => Err(TextError::NoReading),
        };
    }
    let Some(behind) = behind_sign(tokens, Sign::Minus) else {
        return Err(TextError::NoReading);
    };
    let Some((digits, rest)) = first_digits(behind) else {
        return Err(TextError::NoReading);
    };
    match read_negative(digits.as_str()) {
        Some(number) => Ok((number, rest)),
        None => Err(TextError::NoReading),
    }
}
