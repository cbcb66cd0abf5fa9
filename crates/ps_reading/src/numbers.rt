// The numbers that tokens write.
ghost use Rattle.std.specs.Prelude.{◌≡◌, ◌≢◌, ◌<◌, ◌^◌, ℕ, ℤ, Some, IsTrue, true, false, ◌==◌, length, slice_index, IfNone, IfSome, FitsSigned};
ghost use Rattle.std.specs.Int.{w64};
ghost use Rattle.serde_json.specs.Data.{unsigned};
ghost use Rattle.serde_json.specs.Find.{of_integer};
ghost use Rattle.serde_json.specs.Read.{number_from, number_of};

use fast_float::Numeral;

// So many digits write a number that 64 bits hold, with a sign too.
const SHORT: usize = 18;

/// The number of 64 bits that a text writes, where it writes one that isn't below 0.
pub fn count_of(text: &str) -> Option<u64>
    ensures some { IfSome result (λ n. number_of text.now ≡ Some (unsigned n)) }
    ensures none { IfNone result ((n : ℕ) → number_of text.now ≢ Some (unsigned n)) }
{
    let bytes = text.as_bytes();
    if let Some(n) = short_count_of(bytes) {
        return Some(n);
    }
    if has_minus(bytes) {
        None
    } else {
        unsigned_of(&Numeral::scan(bytes))
    }
}

fn unsigned_of(numeral: &Numeral<'_>) -> Option<u64>
    ensures some { IfSome result (λ n. number_from false numeral.now ≡ Some (unsigned n)) }
    ensures none { IfNone result ((n : ℕ) → number_from false numeral.now ≢ Some (unsigned n)) }
{
    numeral.to_u64()
}

/// The whole number of 64 bits with a sign that a text writes.
pub fn whole_number_of(text: &str) -> Option<i64>
    ensures number { IfSome result (λ z. number_of text.now ≡ Some (of_integer z)) }
    ensures in_range { IfSome result (FitsSigned w64) }
    ensures none { IfNone result ((z : ℤ) → FitsSigned w64 z → number_of text.now ≢ Some (of_integer z)) }
{
    let bytes = text.as_bytes();
    if let Some(n) = short_count_of(bytes) {
        return Some(n as i64);
    }
    if has_minus(bytes) {
        negative_of(&Numeral::scan(&bytes[1..]))
    } else {
        signed_of(&Numeral::scan(bytes))
    }
}

fn signed_of(numeral: &Numeral<'_>) -> Option<i64>
    ensures number { IfSome result (λ z. number_from false numeral.now ≡ Some (of_integer z)) }
    ensures in_range { IfSome result (FitsSigned w64) }
    ensures none { IfNone result ((z : ℤ) → FitsSigned w64 z → number_from false numeral.now ≢ Some (of_integer z)) }
{
    match numeral.to_u64() {
        Some(n) if n <= i64::MAX as u64 => Some(n as i64),
        _ => None,
    }
}

fn negative_of(numeral: &Numeral<'_>) -> Option<i64>
    ensures number { IfSome result (λ z. number_from true numeral.now ≡ Some (of_integer z)) }
    ensures in_range { IfSome result (FitsSigned w64) }
    ensures none { IfNone result ((z : ℤ) → FitsSigned w64 z → number_from true numeral.now ≢ Some (of_integer z)) }
{
    match numeral.to_i64(true) {
        Some(z) if z < 0 => Some(z),
        _ => None,
    }
}

// The number that a few digits write: most numbers are such, and this is their short way.
fn short_count_of(bytes: &[u8]) -> Option<u64>
    ensures some { IfSome result (λ n. number_of bytes.now ≡ Some (unsigned n)) }
    ensures small { IfSome result (λ n. n < 10 ^ 18) }
{
    if bytes.is_empty() || bytes.len() > SHORT {
        return None;
    }
    let mut number = 0u64;
    for byte in bytes {
        if !byte.is_ascii_digit() {
            return None;
        }
        number = number * 10 + u64::from(*byte - b'0');
    }
    Some(number)
}

fn has_minus(bytes: &[u8]) -> bool
    ensures value { result ≡ (slice_index bytes.now 0 == 45) }
    ensures len { IsTrue result → 0 < length bytes.now }
{
    !bytes.is_empty() && bytes[0] == b'-'
}
