// Cuts of a source's table, and what a slice keeps of morsels.
use crate::tables::{has_numbers, table_of};
use ps_options::options::Options;
use ps_pieces::views::{sliced_morsel, source_morsel};
use std::alloc::Global;
use std::test::Fail;

// Whether a morsel of five rows has these, for two workers, of two rows a morsel.
fn cut_has(alloc: Global, number: u64, wanted: &[i64]) -> Result<bool, Fail> {
    let Some(options) = Options::new(2, 2, 1, 0) else {
        return Ok(false);
    };
    let table = table_of(alloc, &[1, 2, 3, 4, 5])?;
    let morsel = source_morsel(alloc, &table, &options, number)?;
    has_numbers(alloc, &morsel, wanted)
}

// Two morsels, of three and of two rows.
#[test]
fn a_source_is_cut_for_its_workers(rt: HostRuntime) -> Result<(), Fail> {
    let alloc = rt.alloc();
    assert!(rt; cut_has(alloc, 0, &[1, 2, 3])?);
    assert!(rt; cut_has(alloc, 1, &[4, 5])?);
    assert!(rt; cut_has(alloc, u64::MAX, &[])?);
    Ok(())
}

// Whether a slice of two rows from the third on keeps these, of a morsel that comes behind so many rows.
fn slice_keeps(
    alloc: Global,
    booked: usize,
    numbers: &[i64],
    wanted: &[i64],
) -> Result<bool, Fail> {
    let table = table_of(alloc, numbers)?;
    let morsel = sliced_morsel(alloc, &table, 2, 2, booked)?;
    has_numbers(alloc, &morsel, wanted)
}

#[test]
fn a_slice_keeps_its_rows(rt: HostRuntime) -> Result<(), Fail> {
    let alloc = rt.alloc();
    assert!(rt; slice_keeps(alloc, 0, &[1, 2, 3], &[3])?);
    assert!(rt; slice_keeps(alloc, 3, &[4, 5, 6], &[4])?);
    assert!(rt; slice_keeps(alloc, 6, &[7], &[])?);
    Ok(())
}
