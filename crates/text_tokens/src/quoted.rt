// What stands in quotes, in which the quote itself is doubled.
ghost use Rattle.std.specs.Prelude.{◌≡◌, ◌≢◌, ◌<◌, ℕ, List, Err, IfOk, IfErr};
ghost use Rattle.text_tokens.specs.declared.error.TextError.TheVariants as refusal;
ghost use Rattle.text_tokens.specs.Quotes.{IsQuoted};

use crate::error::TextError;
use pu_base::PlSmallStr;
use std::alloc::Global;

/// The content of what was opened by a quote just before the text, and what stands behind the quote that closes it.
///
/// NoReading exactly where no quote closes it.
pub fn read_quoted(alloc: Global, text: &str, quote: char) -> Result<(PlSmallStr, &str), TextError>
    requires { quote < 128 }
    ensures found { IfOk result (λ x. IsQuoted quote text.now x.0 x.1.now) }
    ensures none { result ≡ Err refusal.NoReading → (content after : List ℕ) → ¬ IsQuoted quote text.now content after }
    ensures causes { IfErr result (λ e. (name : List ℕ) → e ≢ refusal.UnknownTable name) }
{
    let mut content = String::new(alloc);
    let mut rest = text;
    while let Some((before, after)) = rest.split_once(quote) {
        content.push_str(before)?;
        match after.strip_prefix(quote) {
            Some(more) => {
                content.push(quote)?;
                rest = more;
            }
            None => return Ok((PlSmallStr::from_string(content), after)),
        }
    }
    Err(TextError::NoReading)
}
