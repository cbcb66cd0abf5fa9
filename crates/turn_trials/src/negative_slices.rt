// Slices from the end: what they answer to each pair of states, in each of their stages, and how many rows they give.
ghost use Rattle.std.specs.Prelude.{◌≡◌, IfOk};

use crate::keepers::{GIVES, OVER, TAKES, answers_behind, gives_morsels};
use crate::stored::Stored;
use plain_nodes::negative_slice::NegativeSliceNode;
use std::alloc::Global;
use std::test::Fail;
use turn_scripts::fixtures::{options, table, table_named};
use turn_scripts::tables::{ONE_INPUT, answer_in};

// So many rows from so many before the end on, of tables of so many rows, with so many workers and so many rows a morsel.
fn stored(
    alloc: Global,
    (back, length): (u64, usize),
    heights: &[usize],
    (workers, morsel_rows): (usize, usize),
) -> Result<Stored, Fail> {
    let mut stored = Stored::new(back, length, options(workers, morsel_rows)?);
    for height in heights {
        stored = stored.store(alloc, table(alloc, *height)?)?;
    }
    Ok(stored)
}

// The last three of so many rows, with one row a morsel.
fn last_three(alloc: Global, heights: &[usize]) -> Result<NegativeSliceNode, Fail>
    ensures { IfOk result (λ n. n.made.sent ≡ 0) }
{
    let stored = stored(alloc, (3, 3), heights, (1, 1))?;
    Ok(stored.into_slice())
}

// All states behind a script and so many claims, each for a slice of its own.
fn holds_behind(
    alloc: Global,
    heights: &[usize],
    before: &str,
    claims: u16,
    table: &str,
) -> Result<(), Fail> {
    for states in ONE_INPUT.split_whitespace() {
        let wanted = answer_in(&[table], states)?;
        let slice = last_three(alloc, heights)?;
        answers_behind(alloc, slice, before, claims, states, wanted)?;
    }
    Ok(())
}

// Where it has no rows it gives one morsel.
#[test]
fn a_negative_slice_takes_its_input_gives_rows_and_is_done(rt: HostRuntime) -> Result<(), Fail> {
    let alloc = rt.alloc();
    for (before, claims, table) in [
        ("", 0, TAKES),
        ("R/R -> R/B", 0, TAKES),
        ("B/B -> R/B\nR/R -> R/B\nB/R -> R/B", 0, TAKES),
        ("D/B -> D/R", 0, GIVES),
        ("R/R -> R/B\nD/R -> D/R", 2, GIVES),
        ("D/R -> D/R", 3, OVER),
        ("B/D -> D/D", 0, OVER),
        ("R/R -> R/B\nR/D -> D/D", 0, OVER),
        ("D/D -> D/D", 0, OVER),
        ("D/R -> D/R\nD/D -> D/D", 0, OVER),
        ("D/R -> D/R\nD/D -> D/D", 1, OVER),
    ] {
        holds_behind(alloc, &[2, 3, 1], before, claims, table)?;
    }
    for (before, claims, table) in [
        ("", 0, TAKES),
        ("D/B -> D/R", 0, GIVES),
        ("D/R -> D/R", 1, OVER),
    ] {
        holds_behind(alloc, &[], before, claims, table)?;
    }
    Ok(())
}

// With one row a morsel it gives a morsel for each of its rows.
fn gives_rows(
    alloc: Global,
    slice: (u64, usize),
    heights: &[usize],
    rows: u16,
) -> Result<(), Fail> {
    let stored = stored(alloc, slice, heights, (1, 1))?;
    gives_morsels(alloc, stored.into_slice(), rows.max(1))
}

#[test]
fn a_negative_slice_gives_rows_before_the_end(rt: HostRuntime) -> Result<(), Fail> {
    let alloc = rt.alloc();
    for (slice, rows) in [
        ((2, 1), 1),
        ((3, 3), 3),
        ((3, 2), 2),
        ((2, 5), 2),
        ((3, usize::MAX), 3),
        ((1, 0), 0),
    ] {
        gives_rows(alloc, slice, &[3], rows)?;
        gives_rows(alloc, slice, &[1, 0, 2], rows)?;
        gives_rows(alloc, slice, &[5, 4, 1, 2], rows)?;
    }
    Ok(())
}

// Where it begins before the first row, as many rows as stood before that are wanting.
#[test]
fn a_negative_slice_may_begin_before_the_first_row(rt: HostRuntime) -> Result<(), Fail> {
    let alloc = rt.alloc();
    for (slice, rows) in [
        ((5, 3), 1),
        ((5, 1), 0),
        ((4, 3), 2),
        ((4, usize::MAX), 3),
        ((1 << 63, usize::MAX), 3),
        ((1 << 63, 1 << 63), 3),
        ((1 << 63, (1 << 63) - 2), 1),
        ((1 << 63, (1 << 63) - 3), 0),
    ] {
        gives_rows(alloc, slice, &[3], rows)?;
        gives_rows(alloc, slice, &[2, 1], rows)?;
    }
    gives_rows(alloc, (2, 2), &[], 0)?;
    gives_rows(alloc, (2, 2), &[0, 0], 0)?;
    gives_rows(alloc, (6, 6), &[2, 3], 5)
}

// There are so many morsels as the five rows fill, raised to a multiple of the workers, and those at the end that would be empty
// aren't given. Only 1 to 256 workers can be told.
#[test]
fn a_negative_slice_is_told_by_how_many_its_rows_are_cut(rt: HostRuntime) -> Result<(), Fail> {
    let alloc = rt.alloc();
    for (cut, told, morsels) in [
        ((2, 10), 1, 1),
        ((2, 10), 2, 2),
        ((2, 10), 3, 3),
        ((2, 10), 4, 3),
        ((2, 10), 5, 5),
        ((2, 10), 256, 5),
        ((2, 10), 0, 2),
        ((2, 10), 257, 2),
        ((1, 2), 1, 2),
        ((1, 2), 2, 2),
        ((1, 2), 3, 3),
        ((1, 2), 0, 2),
    ] {
        let stored = stored(alloc, (5, 5), &[4, 1], cut)?;
        gives_morsels(alloc, stored.cut_for(told).into_slice(), morsels)?;
    }
    Ok(())
}

#[test]
fn a_negative_slice_stores_many_tables(rt: HostRuntime) -> Result<(), Fail> {
    let alloc = rt.alloc();
    let row = table(alloc, 1)?;
    for (slice, tables, morsels) in [((1000, 1000), 1200, 1000), ((2, 7), 20_000, 2)] {
        let stored = stored(alloc, slice, &[], (1, 1))?.store_many(alloc, &row, tables)?;
        gives_morsels(alloc, stored.into_slice(), morsels)?;
    }
    Ok(())
}

const OTHER_SCHEMA: &str = "the kinds differ";

// A table of another schema than those that it keeps is refused, and it keeps none then.
#[test]
fn a_negative_slice_takes_tables_of_one_schema(rt: HostRuntime) -> Result<(), Fail> {
    let alloc = rt.alloc();
    let (first, other) = (table(alloc, 1)?, table_named(alloc, "b", 1)?);
    let stored = stored(alloc, (4, 4), &[2, 1], (1, 1))?;
    let refused = stored.refuses(alloc, &other, OTHER_SCHEMA)?;
    let anew = refused.store(alloc, other)?;
    anew.refuses(alloc, &first, OTHER_SCHEMA)?;
    Ok(())
}

// It may keep 16,383 tables of so many rows, and not one more. Those that it lets go of don't count.
#[test]
fn a_negative_slice_keeps_only_so_many_rows(rt: HostRuntime) -> Result<(), Fail> {
    let alloc = rt.alloc();
    let rows = table(alloc, 1 << 18)?;
    let all = stored(alloc, (1 << 40, 1), &[], (1, 1))?;
    let full = all.store_many(alloc, &rows, 16_383)?;
    full.refuses(alloc, &rows, "too many rows")?;
    let last = stored(alloc, (1 << 18, 1), &[], (1, 1))?;
    last.store_many(alloc, &rows, 20_000)?;
    Ok(())
}
