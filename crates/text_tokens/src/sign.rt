// Signs at the front of a text.
ghost use Rattle.std.specs.Prelude.{◌≡◌, ℕ, List, IfSome, IfNone};
ghost use Rattle.text_tokens.specs.SignBytes.{one_byte_sign, two_byte_sign};
ghost use Rattle.text_tokens.specs.Tokens.{BeginsWith, sign_spelling};
ghost use Rattle.text_tokens.specs.declared.token.Sign as signs;
ghost use Rattle.text_tokens.specs.declared.token.Token.TheVariants as tokens;

use crate::token::Sign;

impl Sign {
    /// How the sign is written.
    pub fn spelling(self) -> &'static str
        ensures { result.now ≡ sign_spelling self }
    {
        match self {
            Sign::Bar => "|",
            Sign::Comma => ",",
            Sign::Is => "=",
            Sign::Equal => "==",
            Sign::NotEqual => "!=",
            Sign::AtMost => "<=",
            Sign::AtLeast => ">=",
            Sign::Below => "<",
            Sign::Above => ">",
            Sign::Plus => "+",
            Sign::Minus => "-",
            Sign::Times => "*",
            Sign::Over => "//",
            Sign::Modulo => "%",
            Sign::Open => "(",
            Sign::Close => ")",
        }
    }
}

/// The sign that one byte is.
fn one_byte(byte: u8) -> Option<Sign>
    ensures { result ≡ one_byte_sign byte }
{
    match byte {
        b'|' => Some(Sign::Bar),
        b',' => Some(Sign::Comma),
        b'=' => Some(Sign::Is),
        b'<' => Some(Sign::Below),
        b'>' => Some(Sign::Above),
        b'+' => Some(Sign::Plus),
        b'-' => Some(Sign::Minus),
        b'*' => Some(Sign::Times),
        b'%' => Some(Sign::Modulo),
        b'(' => Some(Sign::Open),
        b')' => Some(Sign::Close),
        _ => None,
    }
}

/// The sign that two bytes are.
fn two_bytes(first: u8, second: u8) -> Option<Sign>
    ensures { result ≡ two_byte_sign first second }
{
    if second == b'=' {
        match first {
            b'=' => Some(Sign::Equal),
            b'!' => Some(Sign::NotEqual),
            b'<' => Some(Sign::AtMost),
            b'>' => Some(Sign::AtLeast),
            _ => None,
        }
    } else if first == b'/' && second == b'/' {
        Some(Sign::Over)
    } else {
        None
    }
}

/// The sign at the front of a text, as long as it can be, and what stands behind it.
pub fn read_sign(text: &str) -> Option<(Sign, &str)>
    ensures some { IfSome result (λ x. BeginsWith text.now (tokens.Sign x.0) x.1.now) }
    ensures none { IfNone result ((sign : signs.Sign) (after : List ℕ) → ¬ BeginsWith text.now (tokens.Sign sign) after) }
{
    let bytes = text.as_bytes();
    if let [first, second, ..] = bytes {
        if let Some(sign) = two_bytes(*first, *second) {
            return Some((sign, text.split_at(2).1));
        }
    }
    let sign = one_byte(*bytes.first()?)?;
    Some((sign, text.split_at(1).1))
}
