// The numbers of rows by their keys.
ghost use Rattle.std.specs.Prelude.{IfOk};
ghost use Rattle.ps_frame.specs.Frames.{AllOfHeight, column_values};
ghost use Rattle.ps_frame.specs.Tables.{rows_of};
ghost use Rattle.ps_keys.specs.Numbering.{Numbers};

use crate::known::KnownKeys;
use crate::table::KeyTable;
use ps_frame::column::Column;
use std::alloc::{AllocError, Global};

/// Rows by their keys: for each row the number of its key, in the order in which keys come first, and for
/// each key the row that has it first.
#[derive(Drop)]
pub struct Numbering {
    pub keys: Vec<usize>,
    pub firsts: Vec<usize>,
}

/// The numbers of the rows of columns, whose values are the keys; null is the same as null.
///
/// Fails only for want of memory.
pub fn number_rows(
    alloc: Global,
    columns: &[Column],
    height: usize,
) -> Result<Numbering, AllocError>
    requires { AllOfHeight height columns.now }
    ensures { IfOk result (Numbers (rows_of height (column_values columns.now))) }
{
    let mut table = KeyTable::new(alloc)?;
    let mut known = KnownKeys::new(alloc, columns, height)?;
    let mut keys = Vec::with_capacity(alloc, height)?;
    for row in 0..height {
        keys.push(known.number_of(alloc, &mut table, columns, row)?)?;
    }
    let firsts = table.into_firsts();
    Ok(Numbering { keys, firsts })
}
