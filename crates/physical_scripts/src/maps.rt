// What a map does, built from words.
use crate::words::{exprs, flags, names, number, parts};
use ps_meaning::map::MapKind;
use ps_meaning::options::{DistinctOptions, SortMultipleOptions, UniqueKeepStrategy};
use std::alloc::Global;
use std::test::Fail;

/// The directions of a sort: so many flags of each sort, none of which holds.
pub fn sort_options(alloc: Global, count: &str) -> Result<SortMultipleOptions, Fail> {
    let descending = flags(alloc, count)?;
    let nulls_last = flags(alloc, count)?;
    Ok(SortMultipleOptions {
        descending,
        nulls_last,
    })
}

fn function(text: &str) -> Result<MapKind, Fail> {
    Ok(MapKind::Function(number(text)?))
}

fn select(alloc: Global, text: &str) -> Result<MapKind, Fail> {
    Ok(MapKind::Select(exprs(alloc, text)?))
}

// A sort by keys, with so many flags of each sort, as `0,1/1`.
fn sort(alloc: Global, text: &str) -> Result<MapKind, Fail> {
    let (by, count) = parts(text, "/")?;
    let by_column = exprs(alloc, by)?;
    let sort_options = sort_options(alloc, count)?;
    Ok(MapKind::Sort {
        by_column,
        slice: None,
        sort_options,
    })
}

// Groups, as `a=0/s=4`.
fn groups(alloc: Global, text: &str) -> Result<MapKind, Fail> {
    let (keys, aggs) = parts(text, "/")?;
    let keys = exprs(alloc, keys)?;
    let aggs = exprs(alloc, aggs)?;
    Ok(MapKind::GroupBy {
        keys,
        aggs,
        maintain_order: true,
        slice: None,
    })
}

// Distinct rows by these columns, or by all of them for `all`.
fn distinct(alloc: Global, text: &str) -> Result<MapKind, Fail> {
    let subset = if text == "all" {
        None
    } else {
        Some(names(alloc, text)?)
    };
    Ok(MapKind::Distinct(DistinctOptions {
        subset,
        maintain_order: true,
        keep_strategy: UniqueKeepStrategy::First,
        slice: None,
    }))
}

/// What the map of a word does, with its parameters.
pub fn map(alloc: Global, word: &str, text: &str) -> Result<MapKind, Fail> {
    match word {
        "function" => function(text),
        "select" => select(alloc, text),
        "sort" => sort(alloc, text),
        "groups" => groups(alloc, text),
        "distinct" => distinct(alloc, text),
        _ => Err(Fail::from("no word of a map")),
    }
}
