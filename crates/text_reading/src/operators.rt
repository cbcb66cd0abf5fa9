// Operators, and how tightly they bind.
ghost use Rattle.std.specs.Prelude.{◌≡◌, ◌≢◌, ◌∷◌, List, IfSome, IfNone};
ghost use Rattle.ps_frame.specs.declared.expr.Operator.{Operator};
ghost use Rattle.text_queries.specs.Grammar.{binding, operator_token};
ghost use Rattle.text_tokens.specs.declared.token.Token.{Token};
ghost use Rattle.text_tokens.specs.declared.token.Token.TheVariants as token;

use ps_frame::expr::Operator;
use text_tokens::token::{Sign, Token};

/// How tightly comparisons bind, of which no chains are made.
pub const COMPARISON: usize = 3;

/// How tightly products bind, which is tightest.
pub const PRODUCT: usize = 5;

/// The operator at the front, where it binds exactly so tightly, and the tokens behind it.
pub fn next_operator(tokens: &[Token], least: usize) -> Option<(Operator, &[Token])>
    ensures some { IfSome result (λ x. (tokens.now ≡ operator_token x.0 ∷ x.1.now) × (binding x.0 ≡ least)) }
    ensures none { IfNone result ((operator : Operator) (rest : List Token) → tokens.now ≡ operator_token operator ∷ rest → binding operator ≢ least) }
{
    let (first, rest) = tokens.split_first()?;
    let operator = operator_of(first)?;
    if binding_of(operator) == least {
        Some((operator, rest))
    } else {
        None
    }
}

/// The operator that a token is.
fn operator_of(token: &Token) -> Option<Operator>
    ensures some { IfSome result (λ operator. token.now ≡ operator_token operator) }
    ensures none { IfNone result ((operator : Operator) → token.now ≢ operator_token operator) }
{
    match token {
        Token::Word(word) => match word.as_str() {
            "or" => Some(Operator::Or),
            "and" => Some(Operator::And),
            _ => None,
        },
        Token::Sign(sign) => operator_of_sign(*sign),
        Token::Digits(_) | Token::Name(_) | Token::Text(_) => None,
    }
}

/// The operator that a sign is.
fn operator_of_sign(sign: Sign) -> Option<Operator>
    ensures some { IfSome result (λ operator. token.Sign sign ≡ operator_token operator) }
    ensures none { IfNone result ((operator : Operator) → token.Sign sign ≢ operator_token operator) }
{
    match sign {
        Sign::Equal => Some(Operator::Eq),
        Sign::NotEqual => Some(Operator::NotEq),
        Sign::Below => Some(Operator::Lt),
        Sign::AtMost => Some(Operator::LtEq),
        Sign::Above => Some(Operator::Gt),
        Sign::AtLeast => Some(Operator::GtEq),
        Sign::Plus => Some(Operator::Plus),
        Sign::Minus => Some(Operator::Minus),
        Sign::Times => Some(Operator::Multiply),
        Sign::Over => Some(Operator::FloorDivide),
        Sign::Modulo => Some(Operator::Modulus),
        Sign::Bar | Sign::Comma | Sign::Is | Sign::Open | Sign::Close => None,
    }
}

/// How tightly an operator binds: `or` least, then `and`, comparisons, sums, and products most.
fn binding_of(operator: Operator) -> usize
    ensures { result ≡ binding operator }
{
    match operator {
        Operator::Or => 1,
        Operator::And => 2,
        Operator::Eq
        | Operator::NotEq
        | Operator::Lt
        | Operator::LtEq
        | Operator::Gt
        | Operator::GtEq => COMPARISON,
        Operator::Plus | Operator::Minus => 4,
        Operator::Multiply | Operator::FloorDivide | Operator::Modulus => PRODUCT,
    }
}
