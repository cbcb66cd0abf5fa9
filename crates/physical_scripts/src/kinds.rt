// Kinds of physical nodes, built from words.
use crate::maps::{map, sort_options};
use crate::words::{exprs, key, name, names, number, parts, schema};
use keyed_slots::Key;
use ps_frame::frame::DataFrame;
use ps_frame::items::Items;
use ps_meaning::options::{ExprIR, JoinArgs, JoinType, JoinValidation};
use ps_phys::phys::{PhysNodeKey, PhysNodeKind, PhysStream};
use std::alloc::Global;
use std::test::Fail;

// The stream that a text names by the number of a node and a port.
fn stream(text: &str) -> Result<PhysStream, Fail> {
    let (node, port) = parts(text, ".")?;
    let Ok(node) = node.parse::<u32>() else {
        return Err(Fail::from("a stream without a node"));
    };
    Ok(PhysStream::new(PhysNodeKey::from_number(node), number(port)?))
}

fn streams(alloc: Global, text: &str) -> Result<Items<PhysStream>, Fail> {
    let mut streams = Vec::new(alloc);
    if text == "-" {
        return Ok(Items::new(streams));
    }
    for part in text.split(",") {
        streams.push(stream(part)?)?;
    }
    Ok(Items::new(streams))
}

// A table without rows.
fn source(alloc: Global, fields: &str) -> Result<PhysNodeKind, Fail> {
    let schema = schema(alloc, fields)?;
    let Ok(df) = DataFrame::empty_with_schema(alloc, &schema) else {
        return Err(Fail::from("no table"));
    };
    Ok(PhysNodeKind::InMemorySource { df })
}

fn independent(alloc: Global, text: &str) -> Result<PhysNodeKind, Fail> {
    let selectors = exprs(alloc, text)?;
    Ok(PhysNodeKind::InputIndependentSelect { selectors })
}

// A select, which keeps the input's columns or doesn't.
fn select(
    alloc: Global,
    input: PhysStream,
    extend_original: bool,
    text: &str,
) -> Result<PhysNodeKind, Fail> {
    let selectors = exprs(alloc, text)?;
    Ok(PhysNodeKind::Select {
        input,
        selectors,
        extend_original,
    })
}

fn row_index(alloc: Global, input: PhysStream, text: &str) -> Result<PhysNodeKind, Fail> {
    let name = name(alloc, text)?;
    Ok(PhysNodeKind::WithRowIndex {
        input,
        name,
        offset: None,
    })
}

fn reduce(alloc: Global, input: PhysStream, text: &str) -> Result<PhysNodeKind, Fail> {
    let exprs = exprs(alloc, text)?;
    Ok(PhysNodeKind::Reduce { input, exprs })
}

// A slice, from the front or from an offset that is told.
fn slice(input: PhysStream, text: &str) -> Result<PhysNodeKind, Fail> {
    let length = 1;
    if text == "-" {
        return Ok(PhysNodeKind::StreamingSlice {
            input,
            offset: 0,
            length,
        });
    }
    let Ok(offset) = text.parse::<i64>() else {
        return Err(Fail::from("a slice without an offset"));
    };
    Ok(PhysNodeKind::NegativeSlice {
        input,
        offset,
        length,
    })
}

fn filter(alloc: Global, input: PhysStream, text: &str) -> Result<PhysNodeKind, Fail> {
    let predicate = key(alloc, text)?;
    Ok(PhysNodeKind::Filter { input, predicate })
}

fn project(alloc: Global, input: PhysStream, text: &str) -> Result<PhysNodeKind, Fail> {
    let columns = names(alloc, text)?;
    Ok(PhysNodeKind::SimpleProjection { input, columns })
}

// A sort by keys, with so many flags of each sort, as `0,1/1`.
fn sort(alloc: Global, input: PhysStream, text: &str) -> Result<PhysNodeKind, Fail> {
    let (by, count) = parts(text, "/")?;
    let by_column = exprs(alloc, by)?;
    let sort_options = sort_options(alloc, count)?;
    Ok(PhysNodeKind::Sort {
        input,
        by_column,
        slice: None,
        sort_options,
    })
}

// Groups, as `a=0/s=4`.
fn group_by(alloc: Global, input: PhysStream, text: &str) -> Result<PhysNodeKind, Fail> {
    let (keys, aggs) = parts(text, "/")?;
    let key = exprs(alloc, keys)?;
    let aggs = exprs(alloc, aggs)?;
    Ok(PhysNodeKind::GroupBy { input, key, aggs })
}

// A map of a word, as its input streams.
fn streamed_map(
    alloc: Global,
    input: PhysStream,
    word: &str,
    text: &str,
) -> Result<PhysNodeKind, Fail> {
    let map = map(alloc, word, text)?;
    Ok(PhysNodeKind::Map { input, map })
}

// A map of a word, over its whole input.
fn whole_map(
    alloc: Global,
    input: PhysStream,
    word: &str,
    text: &str,
) -> Result<PhysNodeKind, Fail> {
    let map = map(alloc, word, text)?;
    Ok(PhysNodeKind::InMemoryMap { input, map })
}

// A map as `map-select` or `whole-select`.
fn any_map(alloc: Global, input: PhysStream, word: &str, text: &str) -> Result<PhysNodeKind, Fail> {
    match word.split_once("-") {
        Some(("map", word)) => streamed_map(alloc, input, word, text),
        Some(("whole", word)) => whole_map(alloc, input, word, text),
        _ => Err(Fail::from("no word of a node")),
    }
}

fn union(alloc: Global, inputs: &str) -> Result<PhysNodeKind, Fail> {
    let inputs = streams(alloc, inputs)?;
    Ok(PhysNodeKind::OrderedUnion { inputs })
}

fn zip(alloc: Global, null_extend: bool, inputs: &str) -> Result<PhysNodeKind, Fail> {
    let inputs = streams(alloc, inputs)?;
    Ok(PhysNodeKind::Zip {
        inputs,
        null_extend,
    })
}

fn join_type(word: &str) -> Result<JoinType, Fail> {
    match word {
        "inner" => Ok(JoinType::Inner),
        "left" => Ok(JoinType::Left),
        "semi" => Ok(JoinType::Semi),
        "cross" => Ok(JoinType::Cross),
        _ => Err(Fail::from("no word of a join")),
    }
}

// How tables are joined: `+cut` behind the word is a slice, and `+once` a validation.
fn join_args(text: &str) -> Result<JoinArgs, Fail> {
    let (word, slice, validation) = match text.split_once("+") {
        None => (text, None, JoinValidation::ManyToMany),
        Some((word, "cut")) => (word, Some((0, 1)), JoinValidation::ManyToMany),
        Some((word, _)) => (word, None, JoinValidation::OneToOne),
    };
    Ok(JoinArgs {
        how: join_type(word)?,
        suffix: None,
        join_nulls: false,
        validation,
        slice,
    })
}

// What a join of either kind is made of.
#[derive(Drop)]
struct Sides {
    input_left: PhysStream,
    input_right: PhysStream,
    left_on: Items<ExprIR>,
    right_on: Items<ExprIR>,
    args: JoinArgs,
}

// A join, as `inner/0/0` behind its inputs.
fn joined(alloc: Global, inputs: &str, text: &str) -> Result<Sides, Fail> {
    let (left, right) = parts(inputs, ",")?;
    let input_left = stream(left)?;
    let input_right = stream(right)?;
    let (how, on) = parts(text, "/")?;
    let (left, right) = parts(on, "/")?;
    let left_on = exprs(alloc, left)?;
    let right_on = exprs(alloc, right)?;
    let args = join_args(how)?;
    Ok(Sides {
        input_left,
        input_right,
        left_on,
        right_on,
        args,
    })
}

fn equi_join(joined: Sides) -> PhysNodeKind {
    let Sides {
        input_left,
        input_right,
        left_on,
        right_on,
        args,
    } = joined;
    PhysNodeKind::EquiJoin {
        input_left,
        input_right,
        left_on,
        right_on,
        args,
    }
}

// A join of whole tables.
fn join(joined: Sides) -> PhysNodeKind {
    let Sides {
        input_left,
        input_right,
        left_on,
        right_on,
        args,
    } = joined;
    PhysNodeKind::InMemoryJoin {
        input_left,
        input_right,
        left_on,
        right_on,
        args,
    }
}

// A node of a word over one stream.
fn over_one(
    alloc: Global,
    word: &str,
    input: PhysStream,
    text: &str,
) -> Result<PhysNodeKind, Fail> {
    match word {
        "select" => select(alloc, input, false, text),
        "with-columns" => select(alloc, input, true, text),
        "row-index" => row_index(alloc, input, text),
        "reduce" => reduce(alloc, input, text),
        "slice" => slice(input, text),
        "filter" => filter(alloc, input, text),
        "project" => project(alloc, input, text),
        "sink" => Ok(PhysNodeKind::InMemorySink { input }),
        "multiplexer" => Ok(PhysNodeKind::Multiplexer { input }),
        "sort" => sort(alloc, input, text),
        "group-by" => group_by(alloc, input, text),
        _ => any_map(alloc, input, word, text),
    }
}

/// A node of a word over these inputs, with its parameters.
pub fn kind(alloc: Global, word: &str, inputs: &str, text: &str) -> Result<PhysNodeKind, Fail> {
    match word {
        "source" => source(alloc, text),
        "independent" => independent(alloc, text),
        "union" => union(alloc, inputs),
        "zip" => zip(alloc, false, inputs),
        "zip-extend" => zip(alloc, true, inputs),
        "equi-join" => Ok(equi_join(joined(alloc, inputs, text)?)),
        "join" => Ok(join(joined(alloc, inputs, text)?)),
        _ => over_one(alloc, word, stream(inputs)?, text),
    }
}

/// A node of a word over these inputs, with parameters of no account.
pub fn bare_kind(alloc: Global, word: &str, inputs: &str) -> Result<PhysNodeKind, Fail> {
    match word {
        "negative-slice" => kind(alloc, "slice", inputs, "-1"),
        "filter" => kind(alloc, word, inputs, "0"),
        "join" => kind(alloc, word, inputs, "cross/-/-"),
        "zip-null-extend" => kind(alloc, "zip-extend", inputs, "-"),
        _ => kind(alloc, word, inputs, "-"),
    }
}
