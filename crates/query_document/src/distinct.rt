// Whether names differ.
ghost use Rattle.std.specs.Prelude.{◌≡◌, ◌≢◌, ◌↔◌, AllPairs, IfOk, IsTrue, length};

use pu_base::PlSmallStr;
use std::alloc::{AllocError, Global};
use std::collections::BTreeSet;

/// Whether there are so many names and no two of them are alike.
///
/// Fails only for want of memory.
pub fn is_naming(alloc: Global, names: &[PlSmallStr], count: usize) -> Result<bool, AllocError>
    ensures { IfOk result (λ b. IsTrue b ↔ ((length names.now ≡ count) × AllPairs (λ a b. a ≢ b) names.now)) }
{
    if names.len() != count {
        return Ok(false);
    }
    are_distinct(alloc, names)
}

/// Whether no two of the names are alike.
///
/// Fails only for want of memory.
fn are_distinct(alloc: Global, names: &[PlSmallStr]) -> Result<bool, AllocError>
    ensures { IfOk result (λ b. IsTrue b ↔ AllPairs (λ a b. a ≢ b) names.now) }
{
    // In order, since a set by hashes would be slow at names that were chosen for it.
    let mut seen = BTreeSet::new(alloc);
    for name in names {
        if seen.contains(name.as_str()) {
            return Ok(false);
        }
        seen.insert(String::from_str(alloc, name.as_str())?)?;
    }
    Ok(true)
}
