// The rows of a table at some places.
ghost use Rattle.std.specs.Prelude.{◌≡◌, ◌<◌, ◌≤◌, IfOk, length};
ghost use Rattle.std.specs.List.{All};
ghost use Rattle.ps_frame.specs.Aggregates.{max_rows};
ghost use Rattle.ps_frame.specs.Gathered.{rows_at};

use ps_frame::frame::DataFrame;
use std::alloc::{AllocError, Global};

/// The rows at these places, in this order.
///
/// Fails only for want of memory.
pub fn gathered(alloc: Global, df: &DataFrame, rows: &[usize]) -> Result<DataFrame, AllocError>
    requires there { All (λ i. i < length df.now.rows) rows.now }
    requires few { length rows.now ≤ max_rows }
    ensures schema { IfOk result (λ f. f.schema ≡ df.now.schema) }
    ensures rows { IfOk result (λ f. f.rows ≡ rows_at rows.now df.now.rows) }
{
    match df.gather(alloc, rows) {
        Ok(df) => Ok(df),
        Err(_) => Err(AllocError),
    }
}
