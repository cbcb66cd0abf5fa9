// The rows that a distinct keeps, by the numbers of their keys.
ghost use Rattle.std.specs.Prelude.{◌≡◌, IfOk};
ghost use Rattle.ps_groups.specs.KeptRows.{AreLasts, last_places, single_places};
ghost use Rattle.ps_keys.specs.KeyRows.{AreBelow};

use ps_keys::key_rows::counts_of;
use std::alloc::{AllocError, Global};

/// The rows whose key comes once, where each row's key is given by its number below the count.
pub(crate) fn single_rows(
    alloc: Global,
    keys: &[usize],
    count: usize,
) -> Result<Vec<usize>, AllocError>
    requires { AreBelow count keys.now }
    ensures { IfOk result (λ rows. rows.items ≡ single_places keys.now) }
{
    let counts = counts_of(alloc, keys, count)?;
    let mut rows = Vec::new(alloc);
    for (row, key) in keys.iter().enumerate() {
        if counts[*key] == 1 {
            rows.push(row)?;
        }
    }
    Ok(rows)
}

/// The last row of each key, in order.
pub(crate) fn last_rows(
    alloc: Global,
    keys: &[usize],
    count: usize,
) -> Result<Vec<usize>, AllocError>
    requires { AreBelow count keys.now }
    ensures { IfOk result (λ rows. rows.items ≡ last_places keys.now) }
{
    let lasts = lasts_of(alloc, keys, count)?;
    let mut rows = Vec::new(alloc);
    for (row, key) in keys.iter().enumerate() {
        if lasts[*key] == row {
            rows.push(row)?;
        }
    }
    Ok(rows)
}

// The last row of each key by its number.
fn lasts_of(alloc: Global, keys: &[usize], count: usize) -> Result<Vec<usize>, AllocError>
    requires { AreBelow count keys.now }
    ensures { IfOk result (λ lasts. AreLasts count keys.now lasts.items) }
{
    let mut lasts = vec![in alloc; 0usize; count]?;
    for (row, key) in keys.iter().enumerate() {
        lasts[*key] = row;
    }
    Ok(lasts)
}
