// What physical nodes compute, as text: parts have a semicolon between them.

use crate::exprs::{push_expr, push_keys, push_named, push_names};
use ps_frame::expr::AExpr;
use ps_meaning::map::MapKind;
use ps_meaning::options::{DistinctOptions, ExprIR, JoinArgs, SortMultipleOptions};
use ps_phys::phys::PhysNodeKind;
use pu_base::{Arena, PlSmallStr};
use std::test::Fail;

/// What a node computes.
pub fn push_kind(arena: &Arena<AExpr>, kind: &PhysNodeKind, text: &mut String) -> Result<(), Fail> {
    match kind {
        PhysNodeKind::Select { selectors, .. } => push_named(arena, selectors.as_slice(), text),
        PhysNodeKind::InputIndependentSelect { selectors } => {
            push_named(arena, selectors.as_slice(), text)
        }
        PhysNodeKind::Reduce { exprs, .. } => push_named(arena, exprs.as_slice(), text),
        PhysNodeKind::Filter { predicate, .. } => push_expr(arena, predicate.node, 10, text),
        PhysNodeKind::SimpleProjection { columns, .. } => push_names(columns.as_slice(), text),
        PhysNodeKind::WithRowIndex { name, offset, .. } => push_row_index(name, offset, text),
        PhysNodeKind::StreamingSlice { offset, length, .. } => push_slice(*offset, *length, text),
        PhysNodeKind::NegativeSlice { offset, length, .. } => {
            push_end_slice(*offset, *length, text)
        }
        PhysNodeKind::GroupBy { key, aggs, .. } => {
            push_groups(arena, key.as_slice(), aggs.as_slice(), text)
        }
        PhysNodeKind::Sort {
            by_column,
            slice,
            sort_options,
            ..
        } => push_sort(arena, by_column.as_slice(), slice, sort_options, text),
        PhysNodeKind::EquiJoin {
            left_on,
            right_on,
            args,
            ..
        }
        | PhysNodeKind::InMemoryJoin {
            left_on,
            right_on,
            args,
            ..
        } => push_join(arena, left_on.as_slice(), right_on.as_slice(), args, text),
        PhysNodeKind::InMemoryMap { map, .. } | PhysNodeKind::Map { map, .. } => {
            push_map(arena, map, text)
        }
        PhysNodeKind::InMemorySource { .. }
        | PhysNodeKind::InMemorySink { .. }
        | PhysNodeKind::OrderedUnion { .. }
        | PhysNodeKind::Zip { .. }
        | PhysNodeKind::Multiplexer { .. } => push_word("-", text),
    }
}

fn push_word(word: &str, text: &mut String) -> Result<(), Fail> {
    text.push_str(word)?;
    Ok(())
}

fn push_row_index(name: &PlSmallStr, offset: &Option<u32>, text: &mut String) -> Result<(), Fail> {
    text.push_str(name.as_str())?;
    if let Some(offset) = offset {
        write!(text, ";{offset}")?;
    }
    Ok(())
}

fn push_slice(offset: usize, length: usize, text: &mut String) -> Result<(), Fail> {
    write!(text, "{offset},{length}")?;
    Ok(())
}

fn push_end_slice(offset: i64, length: usize, text: &mut String) -> Result<(), Fail> {
    write!(text, "{offset},{length}")?;
    Ok(())
}

// The slice that a node applies itself.
fn push_cut(slice: &Option<(i64, usize)>, text: &mut String) -> Result<(), Fail> {
    if let Some((offset, length)) = slice {
        write!(text, ";cut({offset},{length})")?;
    }
    Ok(())
}

fn push_flag(is: bool, word: &str, text: &mut String) -> Result<(), Fail> {
    if is {
        text.push_str(word)?;
    }
    Ok(())
}

fn push_flags(flags: &[bool], text: &mut String) -> Result<(), Fail> {
    let mut separator = ";";
    for flag in flags {
        text.push_str(separator)?;
        text.write(*flag)?;
        separator = ",";
    }
    Ok(())
}

fn push_groups(
    arena: &Arena<AExpr>,
    keys: &[ExprIR],
    aggs: &[ExprIR],
    text: &mut String,
) -> Result<(), Fail> {
    push_named(arena, keys, text)?;
    text.push_str(";")?;
    push_named(arena, aggs, text)
}

fn push_sort(
    arena: &Arena<AExpr>,
    keys: &[ExprIR],
    slice: &Option<(i64, usize)>,
    options: &SortMultipleOptions,
    text: &mut String,
) -> Result<(), Fail> {
    push_keys(arena, keys, text)?;
    push_flags(options.descending.as_slice(), text)?;
    push_flags(options.nulls_last.as_slice(), text)?;
    push_cut(slice, text)
}

fn push_join(
    arena: &Arena<AExpr>,
    left_on: &[ExprIR],
    right_on: &[ExprIR],
    args: &JoinArgs,
    text: &mut String,
) -> Result<(), Fail> {
    let how = args.how;
    write!(text, "{how:?};")?;
    push_keys(arena, left_on, text)?;
    text.push_str(";")?;
    push_keys(arena, right_on, text)?;
    if let Some(suffix) = &args.suffix {
        text.push_str(";suffix ")?;
        text.push_str(suffix.as_str())?;
    }
    push_flag(args.join_nulls, ";nulls", text)?;
    push_cut(&args.slice, text)
}

fn push_map(arena: &Arena<AExpr>, map: &MapKind, text: &mut String) -> Result<(), Fail> {
    match map {
        MapKind::Select(exprs) => push_named(arena, exprs.as_slice(), text),
        MapKind::Function(number) => push_function(*number, text),
        MapKind::GroupBy {
            keys,
            aggs,
            maintain_order,
            slice,
        } => {
            push_groups(arena, keys.as_slice(), aggs.as_slice(), text)?;
            push_flag(*maintain_order, ";ordered", text)?;
            push_cut(slice, text)
        }
        MapKind::Distinct(options) => push_distinct(options, text),
        MapKind::Sort { .. } => Err(Fail::from("a map that no rule makes")),
    }
}

fn push_function(number: usize, text: &mut String) -> Result<(), Fail> {
    write!(text, "function {number}")?;
    Ok(())
}

fn push_distinct(options: &DistinctOptions, text: &mut String) -> Result<(), Fail> {
    let keep = options.keep_strategy;
    match &options.subset {
        Some(subset) => push_names(subset.as_slice(), text)?,
        None => push_word("all", text)?,
    }
    write!(text, ";{keep:?}")?;
    push_flag(options.maintain_order, ";ordered", text)?;
    push_cut(&options.slice, text)
}
