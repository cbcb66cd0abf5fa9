// The tables of groups, for the expressions that are evaluated over them.
ghost use Rattle.std.specs.Prelude.{◌≡◌, ◌<◌, IfOk, length, take, drop};
ghost use Rattle.ps_groups.specs.GroupTables.{IsByGroup, IsNumberingOf, part_in};
ghost use Rattle.ps_keys.specs.KeyRows.{places_of_each};

use ps_frame::frame::DataFrame;
use ps_keys::key_rows::RowsByKey;
use ps_keys::numbering::Numbering;
use ps_rows::gathered::gathered;
use std::alloc::{AllocError, Global};

/// A table with the rows of each group one after another, where they are put together by their numbers. The columns
/// share their places where they can.
///
/// Fails only for want of memory.
pub(crate) fn table_by_group(
    alloc: Global,
    df: &DataFrame,
    numbering: &Numbering,
    groups: &RowsByKey,
) -> Result<DataFrame, AllocError>
    requires numbering { IsNumberingOf df.now numbering.now }
    requires groups { groups.now ≡ places_of_each (length numbering.now.firsts.items) numbering.now.keys.items }
    ensures { IfOk result (IsByGroup df.now (places_of_each (length numbering.now.firsts.items) numbering.now.keys.items)) }
{
    // Read for its clause alone: the rows are few enough for the one table that holds all groups.
    let _height = df.height();
    let table = gathered(alloc, df, groups.all())?;
    Ok(table)
}

/// The table of a group, as a part of one in which the rows of each group lie one after another; its values are not
/// copied.
///
/// Fails only for want of memory.
pub(crate) fn table_of_group(
    alloc: Global,
    table: &DataFrame,
    groups: &RowsByKey,
    group: usize,
) -> Result<DataFrame, AllocError>
    requires { group < length groups.now }
    ensures { IfOk result (λ f. f ≡ part_in table.now groups.now group) }
{
    let count = groups.rows(group).len();
    part(alloc, table, groups.start(group), count)
}

// The rows of a table from one on, as many as asked.
fn part(alloc: Global, df: &DataFrame, start: usize, count: usize) -> Result<DataFrame, AllocError>
    ensures { IfOk result (λ f. f ≡ record { schema = df.now.schema; rows = take count (drop start df.now.rows) }) }
{
    match df.slice(alloc, start, count) {
        Ok(part) => Ok(part),
        Err(_) => Err(AllocError),
    }
}
