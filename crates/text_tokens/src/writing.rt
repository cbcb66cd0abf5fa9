// Tokens are written.
ghost use Rattle.std.specs.Prelude.{◌≡◌, ◌<◌, ◌++◌, Err, IfOk, OnErr, OnOk, string_bytes};
ghost use Rattle.std.specs.List.{AllByRecursion};
ghost use Rattle.text_tokens.specs.Tokens.{AreTokens, IsToken, quoted, spaced, spelling};
ghost use Rattle.text_tokens.specs.declared.error.TextError.TheVariants as refusal;

use crate::error::TextError;
use crate::token::Token;
use std::alloc::Global;

/// The tokens with single spaces between them, which is cut into these tokens again.
///
/// Fails only for want of memory.
pub fn write_tokens(alloc: Global, tokens: &[Token]) -> Result<String, TextError>
    ensures spaced { IfOk result (λ text. string_bytes text ≡ spaced tokens.now) }
    ensures again { AllByRecursion IsToken tokens.now → IfOk result (λ text. AreTokens tokens.now (string_bytes text)) }
    ensures memory { OnErr result (result ≡ Err refusal.OutOfMemory) }
{
    joined(alloc, tokens)
}

/// The tokens with single spaces between them.
fn joined(alloc: Global, tokens: &[Token]) -> Result<String, TextError>
    ensures spaced { IfOk result (λ text. string_bytes text ≡ spaced tokens.now) }
    ensures memory { OnErr result (result ≡ Err refusal.OutOfMemory) }
{
    let mut text = String::new(alloc);
    let Some((first, others)) = tokens.split_first() else {
        return Ok(text);
    };
    write_token(&mut text, first)?;
    for token in others {
        text.push(' ')?;
        write_token(&mut text, token)?;
    }
    Ok(text)
}

/// Writes a token behind a text.
fn write_token(text: &mut String, token: &Token) -> Result<(), TextError>
    ensures written { OnOk result (string_bytes text.new ≡ string_bytes text.old ++ spelling token.now) }
    ensures memory { OnErr result (result ≡ Err refusal.OutOfMemory) }
{
    match token {
        Token::Word(word) => text.push_str(word.as_str())?,
        Token::Digits(digits) => text.push_str(digits.as_str())?,
        Token::Name(name) => return write_quoted(text, name.as_str(), '"'),
        Token::Text(content) => return write_quoted(text, content.as_str(), '\''),
        Token::Sign(sign) => text.push_str(sign.spelling())?,
    }
    Ok(())
}

/// Writes a content in quotes behind a text, with the quotes in it doubled.
fn write_quoted(text: &mut String, content: &str, quote: char) -> Result<(), TextError>
    requires { quote < 128 }
    ensures written { OnOk result (string_bytes text.new ≡ string_bytes text.old ++ quoted quote content.now) }
    ensures memory { OnErr result (result ≡ Err refusal.OutOfMemory) }
{
    text.push(quote)?;
    let mut rest = content;
    while let Some((before, after)) = rest.split_once(quote) {
        text.push_str(before)?;
        text.push(quote)?;
        text.push(quote)?;
        rest = after;
    }
    text.push_str(rest)?;
    text.push(quote)?;
    Ok(())
}
