// Temporary names: how they are written, and which numbers those among some names have.
ghost use Rattle.std.specs.Prelude.{◌≡◌, ◌++◌, ◌∷◌, [], Err, IfNone, IfOk, IfSome, List, Some, ℕ, OnErr, OnOk};
ghost use Rattle.ps_frame.specs.declared.refusal.PolarsError.{PolarsError};
ghost use Rattle.ps_meaning.specs.Schemas.{names_of};
ghost use Rattle.ps_meaning.specs.Steps.{Name};
ghost use Rattle.ps_rules.specs.Names.{IsTemporary, temporary};
ghost use Rattle.ps_fresh.specs.Collected.{AreNumbersOf};

use ps_frame::refusal::{PolarsError, PolarsResult};
use ps_frame::schema::Schema;
use pu_base::{PlSmallStr, format_pl_smallstr};
use std::alloc::Global;
use std::collections::BTreeSet;

// What a temporary name begins with.
const TEMPORARY: &str = "__POLARS_STMP_";

/// The temporary name of a number.
///
/// Fails only for want of memory.
pub(crate) fn temporary_name(alloc: Global, number: u64) -> PolarsResult<PlSmallStr>
    ensures name { IfOk result (λ name. name ≡ temporary number) }
    ensures memory { OnErr result (result ≡ Err PolarsError.OutOfMemory) }
{
    // A match and no `?`: an error of names doesn't convert, and is want of memory alone.
    match format_pl_smallstr!(alloc, "{TEMPORARY}{number}") {
        Ok(name) => Ok(name),
        Err(_error) => Err(PolarsError::OutOfMemory),
    }
}

/// The number whose temporary name this is, if there is one.
///
/// Fails only for want of memory.
fn temporary_number(alloc: Global, name: &str) -> PolarsResult<Option<u64>>
    ensures some { IfOk result (λ number. IfSome number (λ k. IsTemporary k name.now)) }
    ensures none { IfOk result (λ number. IfNone number ((k : ℕ) → ¬ IsTemporary k name.now)) }
    ensures memory { OnErr result (result ≡ Err PolarsError.OutOfMemory) }
{
    let Some(number) = read_number(name) else {
        return Ok(None);
    };
    // Leading zeros and a sign would read as the same number.
    let written = temporary_name(alloc, number)?;
    if !written.eq_str(name) {
        return Ok(None);
    }
    Ok(Some(number))
}

/// The number that stands behind the word of a temporary name, however it is written there.
fn read_number(name: &str) -> Option<u64>
    ensures { (k : ℕ) → IsTemporary k name.now → result ≡ Some k }
{
    let digits = name.strip_prefix(TEMPORARY)?;
    digits.parse::<u64>().ok()
}

/// Adds the number of a name to those that are taken, if the name is a temporary one.
///
/// Fails only for want of memory.
fn add_name(alloc: Global, name: &PlSmallStr, taken: &mut BTreeSet<u64>) -> PolarsResult<()>
    ensures added { OnOk result ((names : List Name) → AreNumbersOf taken.old.keys names → AreNumbersOf taken.new.keys (names ++ name.now ∷ [])) }
    ensures memory { OnErr result (result ≡ Err PolarsError.OutOfMemory) }
{
    let Some(number) = temporary_number(alloc, name.as_str())? else {
        return Ok(());
    };
    taken.insert(number)?;
    Ok(())
}

/// Adds those of a schema's names.
///
/// Fails only for want of memory.
pub(crate) fn add_names(
    alloc: Global,
    schema: &Schema,
    taken: &mut BTreeSet<u64>,
) -> PolarsResult<()>
    ensures added { OnOk result ((names : List Name) → AreNumbersOf taken.old.keys names → AreNumbersOf taken.new.keys (names ++ names_of schema.now)) }
    ensures memory { OnErr result (result ≡ Err PolarsError.OutOfMemory) }
{
    for i in 0..schema.len() {
        add_name(alloc, schema.name(i), taken)?;
    }
    Ok(())
}
