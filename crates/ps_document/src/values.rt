// The JSON values of which a document is made.
ghost use Rattle.std.specs.Prelude.{◌≡◌, ◌≢◌, ◌↔◌, ◌∷◌, [], ℕ, ◌<◌, ◌^◌, ℤ, Bool, List, IsTrue, IfSome, IfNone, map, FitsSigned};
ghost use Rattle.std.specs.Int.{w64};
ghost use Rattle.serde_json.specs.Data.{Data, null};
ghost use Rattle.serde_json.specs.View.{view};
ghost use Rattle.ps_document.specs.Expressions.{entry_number};
ghost use Rattle.ps_document.specs.Json.{count, list, text, truth, whole_number as whole};

use pu_base::Node;
use serde_json::Value;

/// The elements of an array.
pub fn elements(value: &Value) -> Option<&[Value]>
    ensures some { IfSome result (λ items. view value.now ≡ list (map view items.now)) }
    ensures none { IfNone result ((ds : List Data) → view value.now ≢ list ds) }
{
    value.as_array().map(|items| items.as_slice())
}

/// The word that an entry begins with, and what follows it.
pub fn word_and_parts(value: &Value) -> Option<(&str, &[Value])>
    ensures some { IfSome result (λ t. view value.now ≡ list (text t.0.now ∷ map view t.1.now)) }
    ensures none { IfNone result ((word : List ℕ) (ds : List Data) → view value.now ≢ list (text word ∷ ds)) }
{
    match elements(value)? {
        [first, parts @ ..] => Some((text_of(first)?, parts)),
        [] => None,
    }
}

/// The elements of an array of two.
pub fn pair(value: &Value) -> Option<(&Value, &Value)>
    ensures some { IfSome result (λ t. view value.now ≡ list (view t.0.now ∷ view t.1.now ∷ [])) }
    ensures none { IfNone result ((a b : Data) → view value.now ≢ list (a ∷ b ∷ [])) }
{
    two(elements(value)?)
}

/// The part, where there is one.
pub fn one(parts: &[Value]) -> Option<&Value>
    ensures some { IfSome result (λ a. list (map view parts.now) ≡ list (view a.now ∷ [])) }
    ensures none { IfNone result ((first a : Data) → list (first ∷ map view parts.now) ≢ list (first ∷ a ∷ [])) }
{
    if parts.len() == 1 {
        Some(&parts[0])
    } else {
        None
    }
}

/// The parts, where there are two.
pub fn two(parts: &[Value]) -> Option<(&Value, &Value)>
    ensures some { IfSome result (λ t. list (map view parts.now) ≡ list (view t.0.now ∷ view t.1.now ∷ [])) }
    ensures none { IfNone result ((first a b : Data) → list (first ∷ map view parts.now) ≢ list (first ∷ a ∷ b ∷ [])) }
{
    if parts.len() == 2 {
        Some((&parts[0], &parts[1]))
    } else {
        None
    }
}

/// The parts, where there are three.
pub fn three(parts: &[Value]) -> Option<(&Value, &Value, &Value)>
    ensures some { IfSome result (λ t. list (map view parts.now) ≡ list (view t.0.now ∷ view t.1.now ∷ view t.2.now ∷ [])) }
    ensures none { IfNone result ((first a b c : Data) → list (first ∷ map view parts.now) ≢ list (first ∷ a ∷ b ∷ c ∷ [])) }
{
    if parts.len() == 3 {
        Some((&parts[0], &parts[1], &parts[2]))
    } else {
        None
    }
}

/// The parts, where there are four.
pub fn four(parts: &[Value]) -> Option<(&Value, &Value, &Value, &Value)>
    ensures some { IfSome result (λ t. list (map view parts.now) ≡ list (view t.0.now ∷ view t.1.now ∷ view t.2.now ∷ view t.3.now ∷ [])) }
    ensures none { IfNone result ((first a b c d : Data) → list (first ∷ map view parts.now) ≢ list (first ∷ a ∷ b ∷ c ∷ d ∷ [])) }
{
    if parts.len() == 4 {
        Some((&parts[0], &parts[1], &parts[2], &parts[3]))
    } else {
        None
    }
}

/// The parts, where there are five.
pub fn five(parts: &[Value]) -> Option<(&Value, &Value, &Value, &Value, &Value)>
    ensures some { IfSome result (λ t. list (map view parts.now) ≡ list (view t.0.now ∷ view t.1.now ∷ view t.2.now ∷ view t.3.now ∷ view t.4.now ∷ [])) }
    ensures none { IfNone result ((first a b c d e : Data) → list (first ∷ map view parts.now) ≢ list (first ∷ a ∷ b ∷ c ∷ d ∷ e ∷ [])) }
{
    if parts.len() == 5 {
        Some((&parts[0], &parts[1], &parts[2], &parts[3], &parts[4]))
    } else {
        None
    }
}

/// The parts, where there are nine.
pub fn nine(
    parts: &[Value],
) -> Option<
    (
        &Value,
        &Value,
        &Value,
        &Value,
        &Value,
        &Value,
        &Value,
        &Value,
        &Value,
    ),
>
    ensures some { IfSome result (λ t. list (map view parts.now) ≡ list (view t.0.now ∷ view t.1.now ∷ view t.2.now ∷ view t.3.now ∷ view t.4.now ∷ view t.5.now ∷ view t.6.now ∷ view t.7.now ∷ view t.8.now ∷ [])) }
    ensures none { IfNone result ((first a b c d e f g h i : Data) → list (first ∷ map view parts.now) ≢ list (first ∷ a ∷ b ∷ c ∷ d ∷ e ∷ f ∷ g ∷ h ∷ i ∷ [])) }
{
    if parts.len() == 9 {
        Some((
            &parts[0], &parts[1], &parts[2], &parts[3], &parts[4], &parts[5], &parts[6], &parts[7],
            &parts[8],
        ))
    } else {
        None
    }
}

/// A text.
pub fn text_of(value: &Value) -> Option<&str>
    ensures some { IfSome result (λ s. view value.now ≡ text s.now) }
    ensures none { IfNone result ((s : List ℕ) → view value.now ≢ text s) }
{
    value.as_str()
}

/// Whether this is null.
pub fn is_null(value: &Value) -> bool
    ensures { IsTrue result ↔ (view value.now ≡ null) }
{
    value.is_null()
}

/// A truth value.
pub fn truth_of(value: &Value) -> Option<bool>
    ensures some { IfSome result (λ b. view value.now ≡ truth b) }
    ensures none { IfNone result ((b : Bool) → view value.now ≢ truth b) }
{
    value.as_bool()
}

/// A number that counts or names something.
pub fn number_of(value: &Value) -> Option<usize>
    ensures some { IfSome result (λ n. view value.now ≡ count n) }
    ensures none { IfNone result ((n : ℕ) → view value.now ≢ count n) }
{
    value.as_u64().map(|n| n as usize)
}

/// A number of 32 bits.
pub fn short_number_of(value: &Value) -> Option<u32>
    ensures some { IfSome result (λ n. view value.now ≡ count n) }
    ensures none { IfNone result ((n : ℕ) → n < 2 ^ 32 → view value.now ≢ count n) }
{
    match value.as_u64() {
        Some(n) if n <= u32::MAX as u64 => Some(n as u32),
        _ => None,
    }
}

/// A whole number of 64 bits with a sign.
pub fn whole_number_of(value: &Value) -> Option<i64>
    ensures some { IfSome result (λ z. view value.now ≡ whole z) }
    ensures in_range { IfSome result (FitsSigned w64) }
    ensures none { IfNone result ((z : ℤ) → FitsSigned w64 z → view value.now ≢ whole z) }
{
    match value {
        Value::Number(number) => number.as_i64(),
        _ => None,
    }
}

/// The number of an entry.
pub fn entry_of(value: &Value) -> Option<Node>
    ensures some { IfSome result (λ n. view value.now ≡ entry_number n) }
    ensures none { IfNone result ((n : Node) → view value.now ≢ entry_number n) }
{
    number_of(value).map(Node)
}
