// The nodes of a document.
ghost use Rattle.std.specs.Prelude.{◌≡◌, ◌≢◌, ◌∷◌, ℕ, ℤ, Bool, List, Option, Some, slice_get, IfOk, IfSome, IfNone, IsTrue, FitsSigned, codes, map};
ghost use Rattle.std.specs.Int.{w64};
ghost use Rattle.serde_json.specs.Data.{Data};
ghost use Rattle.serde_json.specs.View.{view};
ghost use Rattle.ps_frame.specs.Tables.{Frame};
ghost use Rattle.ps_meaning.specs.Steps.{Cut};
ghost use Rattle.ps_plan.specs.declared.ir.IR.TheVariants as entry;
ghost use Rattle.ps_meaning.specs.declared.options.FunctionIR.TheVariants as call;
ghost use Rattle.ps_document.specs.Nodes.{CutFits, IsNode, OffsetFits, cut_json, function_json, node_json};
ghost use Rattle.ps_document.specs.Expressions.{entry_number};
ghost use Rattle.ps_document.specs.Json.{list, text, truth};
ghost use Rattle.ps_document.specs.Words.{is_left_out_kind, join_word, keep_word, validation_word};

use crate::options::{cut_of, names_of, offset_of, suffix_of};
use crate::parts::{FromJson, Key, Named, Plain, left_out_of, list_from};
use crate::taking::TakeJson;
use crate::values::{
    entry_of, five, nine, number_of, one, text_of, three, truth_of, two, whole_number_of,
    word_and_parts,
};
use crate::words::{join_of, keep_of, sink_of, validation_of};
use ps_frame::expr::What;
use ps_frame::frame::DataFrame;
use ps_meaning::options::{
    DistinctOptions, ExprIR, FunctionIR, GroupbyOptions, JoinArgs, JoinType, JoinValidation,
    SinkType, SortMultipleOptions, UnionOptions, UniqueKeepStrategy,
};
use ps_plan::ir::IR;
use pu_base::{Node, PlSmallStr};
use serde_json::Value;
use std::alloc::{AllocError, Global};

fn scan_of(
    alloc: Global,
    tables: &Vec<DataFrame>,
    parts: &[Value],
) -> Result<Option<IR>, AllocError>
    ensures some { IfOk result (λ o. IfSome o (λ e. IsNode tables.now.items e (list (text (codes "scan") ∷ map view parts.now)))) }
    ensures none { IfOk result (λ o. IfNone o ((table : ℕ) (df : Frame) (columns : Option (List (List ℕ))) → slice_get tables.now.items table ≡ Some df → list (text (codes "scan") ∷ map view parts.now) ≢ node_json table (entry.DataFrameScan df columns))) }
{
    let Some((table, columns)) = two(parts) else {
        return Ok(None);
    };
    let Some(table) = number_of(table) else {
        return Ok(None);
    };
    let Some(df) = tables.as_slice().get(table) else {
        return Ok(None);
    };
    let Some(projection) = names_of(alloc, columns)? else {
        return Ok(None);
    };
    // The only error is want of memory; `map_err` would hide the value in a closure.
    match df.share(alloc) {
        Ok(df) => Ok(Some(IR::DataFrameScan { df, projection })),
        Err(_) => Err(AllocError),
    }
}

fn projection_of(alloc: Global, parts: &[Value]) -> Result<Option<IR>, AllocError>
    ensures some { IfOk result (λ o. IfSome o (λ e. (tables : List Frame) → IsNode tables e (list (text (codes "project") ∷ map view parts.now)))) }
    ensures none { IfOk result (λ o. IfNone o ((i : Node) (columns : List (List ℕ)) → list (text (codes "project") ∷ map view parts.now) ≢ node_json 0 (entry.SimpleProjection i columns))) }
{
    let Some((input, columns)) = two(parts) else {
        return Ok(None);
    };
    let Some(input) = entry_of(input) else {
        return Ok(None);
    };
    let Some(columns) = list_from::<Plain, PlSmallStr>(alloc, columns)? else {
        return Ok(None);
    };
    Ok(Some(IR::SimpleProjection { input, columns }))
}

fn select_of(alloc: Global, parts: &[Value]) -> Result<Option<IR>, AllocError>
    ensures some { IfOk result (λ o. IfSome o (λ e. (tables : List Frame) → IsNode tables e (list (text (codes "select") ∷ map view parts.now)))) }
    ensures none { IfOk result (λ o. IfNone o ((i : Node) (es : List ExprIR) → list (text (codes "select") ∷ map view parts.now) ≢ node_json 0 (entry.Select i es))) }
{
    let Some((input, expr)) = two(parts) else {
        return Ok(None);
    };
    let Some(input) = entry_of(input) else {
        return Ok(None);
    };
    let Some(expr) = list_from::<Named, ExprIR>(alloc, expr)? else {
        return Ok(None);
    };
    Ok(Some(IR::Select { input, expr }))
}

fn hstack_of(alloc: Global, parts: &[Value]) -> Result<Option<IR>, AllocError>
    ensures some { IfOk result (λ o. IfSome o (λ e. (tables : List Frame) → IsNode tables e (list (text (codes "hstack") ∷ map view parts.now)))) }
    ensures none { IfOk result (λ o. IfNone o ((i : Node) (es : List ExprIR) → list (text (codes "hstack") ∷ map view parts.now) ≢ node_json 0 (entry.HStack i es))) }
{
    let Some((input, exprs)) = two(parts) else {
        return Ok(None);
    };
    let Some(input) = entry_of(input) else {
        return Ok(None);
    };
    let Some(exprs) = list_from::<Named, ExprIR>(alloc, exprs)? else {
        return Ok(None);
    };
    Ok(Some(IR::HStack { input, exprs }))
}

fn filter_of(alloc: Global, parts: &[Value]) -> Result<Option<IR>, AllocError>
    ensures some { IfOk result (λ o. IfSome o (λ e. (tables : List Frame) → IsNode tables e (list (text (codes "filter") ∷ map view parts.now)))) }
    ensures none { IfOk result (λ o. IfNone o ((i : Node) (predicate : ExprIR) → list (text (codes "filter") ∷ map view parts.now) ≢ node_json 0 (entry.Filter i predicate))) }
{
    let Some((input, predicate)) = two(parts) else {
        return Ok(None);
    };
    let Some(input) = entry_of(input) else {
        return Ok(None);
    };
    let predicate = <ExprIR as FromJson<Key>>::from_json(alloc, predicate)?;
    Ok(predicate.map(|predicate| IR::Filter { input, predicate }))
}

fn slice_of(parts: &[Value]) -> Option<IR>
    ensures some { IfSome result (λ e. (tables : List Frame) → IsNode tables e (list (text (codes "slice") ∷ map view parts.now))) }
    ensures none { IfNone result ((i : Node) (offset : ℤ) (len : ℕ) → FitsSigned w64 offset → list (text (codes "slice") ∷ map view parts.now) ≢ node_json 0 (entry.Slice i offset len)) }
{
    let (input, offset, len) = three(parts)?;
    Some(IR::Slice {
        input: entry_of(input)?,
        offset: whole_number_of(offset)?,
        len: number_of(len)?,
    })
}

fn sink_node_of(word: &str, parts: &[Value]) -> Option<IR>
    ensures some { IfSome result (λ e. (tables : List Frame) → IsNode tables e (list (text word.now ∷ map view parts.now))) }
    ensures none { IfNone result ((i : Node) (payload : SinkType) → list (text word.now ∷ map view parts.now) ≢ node_json 0 (entry.Sink i payload)) }
{
    let payload = sink_of(word)?;
    Some(IR::Sink {
        input: entry_of(one(parts)?)?,
        payload,
    })
}

fn row_index_of(alloc: Global, parts: &[Value]) -> Result<Option<IR>, AllocError>
    ensures some { IfOk result (λ o. IfSome o (λ e. (tables : List Frame) → IsNode tables e (list (text (codes "row_index") ∷ map view parts.now)))) }
    ensures none { IfOk result (λ o. IfNone o ((i : Node) (name : List ℕ) (offset : Option ℕ) → OffsetFits offset → list (text (codes "row_index") ∷ map view parts.now) ≢ function_json (entry_number i) (call.RowIndex name offset))) }
{
    let Some((input, name, offset)) = three(parts) else {
        return Ok(None);
    };
    let Some(input) = entry_of(input) else {
        return Ok(None);
    };
    let Some(offset) = offset_of(offset) else {
        return Ok(None);
    };
    let name = PlSmallStr::from_json(alloc, name)?;
    Ok(name.map(|name| IR::MapFunction {
        input,
        function: FunctionIR::RowIndex { name, offset },
    }))
}

fn map_of(parts: &[Value]) -> Option<IR>
    ensures some { IfSome result (λ e. (tables : List Frame) → IsNode tables e (list (text (codes "map") ∷ map view parts.now))) }
    ensures none { IfNone result ((i : Node) (n : ℕ) → list (text (codes "map") ∷ map view parts.now) ≢ function_json (entry_number i) (call.User n)) }
{
    let (input, function) = two(parts)?;
    Some(IR::MapFunction {
        input: entry_of(input)?,
        function: FunctionIR::User(number_of(function)?),
    })
}

fn sort_of(alloc: Global, parts: &[Value]) -> Result<Option<IR>, AllocError>
    ensures some { IfOk result (λ o. IfSome o (λ e. (tables : List Frame) → IsNode tables e (list (text (codes "sort") ∷ map view parts.now)))) }
    ensures none { IfOk result (λ o. IfNone o ((i : Node) (by : List ExprIR) (cut : Cut) (options : SortMultipleOptions) → CutFits cut → list (text (codes "sort") ∷ map view parts.now) ≢ node_json 0 (entry.Sort i by cut options))) }
{
    let Some((input, by, descending, nulls_last, slice)) = five(parts) else {
        return Ok(None);
    };
    let Some(input) = entry_of(input) else {
        return Ok(None);
    };
    let Some(slice) = cut_of(slice) else {
        return Ok(None);
    };
    let Some(by_column) = list_from::<Key, ExprIR>(alloc, by)? else {
        return Ok(None);
    };
    let Some(descending) = list_from::<Plain, bool>(alloc, descending)? else {
        return Ok(None);
    };
    let Some(nulls_last) = list_from::<Plain, bool>(alloc, nulls_last)? else {
        return Ok(None);
    };
    Ok(Some(IR::Sort {
        input,
        by_column,
        slice,
        sort_options: SortMultipleOptions {
            descending,
            nulls_last,
        },
    }))
}

fn union_of(alloc: Global, parts: &[Value]) -> Result<Option<IR>, AllocError>
    ensures some { IfOk result (λ o. IfSome o (λ e. (tables : List Frame) → IsNode tables e (list (text (codes "union") ∷ map view parts.now)))) }
    ensures none { IfOk result (λ o. IfNone o ((inputs : List Node) (options : UnionOptions) → CutFits options.slice → list (text (codes "union") ∷ map view parts.now) ≢ node_json 0 (entry.Union inputs options))) }
{
    let Some((inputs, slice)) = two(parts) else {
        return Ok(None);
    };
    let Some(slice) = cut_of(slice) else {
        return Ok(None);
    };
    let Some(inputs) = list_from::<Plain, Node>(alloc, inputs)? else {
        return Ok(None);
    };
    Ok(Some(IR::Union {
        inputs,
        options: UnionOptions { slice },
    }))
}

fn hconcat_of(alloc: Global, parts: &[Value]) -> Result<Option<IR>, AllocError>
    ensures some { IfOk result (λ o. IfSome o (λ e. (tables : List Frame) → IsNode tables e (list (text (codes "hconcat") ∷ map view parts.now)))) }
    ensures none { IfOk result (λ o. IfNone o ((inputs : List Node) → list (text (codes "hconcat") ∷ map view parts.now) ≢ node_json 0 (entry.HConcat inputs))) }
{
    let Some(inputs) = one(parts) else {
        return Ok(None);
    };
    let Some(inputs) = list_from::<Plain, Node>(alloc, inputs)? else {
        return Ok(None);
    };
    Ok(Some(IR::HConcat { inputs }))
}

fn cache_of(parts: &[Value]) -> Option<IR>
    ensures some { IfSome result (λ e. (tables : List Frame) → IsNode tables e (list (text (codes "cache") ∷ map view parts.now))) }
    ensures none { IfNone result ((i : Node) (id hits : ℕ) → list (text (codes "cache") ∷ map view parts.now) ≢ node_json 0 (entry.Cache i id hits)) }
{
    let (input, id) = two(parts)?;
    Some(IR::Cache {
        input: entry_of(input)?,
        id: number_of(id)?,
        cache_hits: 0,
    })
}

fn group_by_of(alloc: Global, parts: &[Value]) -> Result<Option<IR>, AllocError>
    ensures some { IfOk result (λ o. IfSome o (λ e. (tables : List Frame) → IsNode tables e (list (text (codes "group_by") ∷ map view parts.now)))) }
    ensures none { IfOk result (λ o. IfNone o ((i : Node) (keys aggs : List ExprIR) (maintain : Bool) (options : GroupbyOptions) → CutFits options.slice → list (text (codes "group_by") ∷ map view parts.now) ≢ node_json 0 (entry.GroupBy i keys aggs maintain options))) }
{
    let Some((input, keys, aggs, maintain_order, slice)) = five(parts) else {
        return Ok(None);
    };
    let Some(input) = entry_of(input) else {
        return Ok(None);
    };
    let Some(maintain_order) = truth_of(maintain_order) else {
        return Ok(None);
    };
    let Some(slice) = cut_of(slice) else {
        return Ok(None);
    };
    let Some(keys) = list_from::<Named, ExprIR>(alloc, keys)? else {
        return Ok(None);
    };
    let Some(aggs) = list_from::<Named, ExprIR>(alloc, aggs)? else {
        return Ok(None);
    };
    Ok(Some(IR::GroupBy {
        input,
        keys,
        aggs,
        maintain_order,
        options: GroupbyOptions { slice },
    }))
}

fn distinct_of(alloc: Global, parts: &[Value]) -> Result<Option<IR>, AllocError>
    ensures some { IfOk result (λ o. IfSome o (λ e. (tables : List Frame) → IsNode tables e (list (text (codes "distinct") ∷ map view parts.now)))) }
    ensures none { IfOk result (λ o. IfNone o ((i : Node) (options : DistinctOptions) → CutFits options.slice → list (text (codes "distinct") ∷ map view parts.now) ≢ node_json 0 (entry.Distinct i options))) }
{
    let Some((input, subset, maintain_order, keep, slice)) = five(parts) else {
        return Ok(None);
    };
    let Some(input) = entry_of(input) else {
        return Ok(None);
    };
    let Some((maintain_order, keep_strategy, slice)) = distinct_parts(maintain_order, keep, slice)
    else {
        return Ok(None);
    };
    let Some(subset) = names_of(alloc, subset)? else {
        return Ok(None);
    };
    Ok(Some(IR::Distinct {
        input,
        options: DistinctOptions {
            subset,
            maintain_order,
            keep_strategy,
            slice,
        },
    }))
}

/// The flag, the rows to keep and the slice of a distinct.
fn distinct_parts(
    maintain_order: &Value,
    keep: &Value,
    slice: &Value,
) -> Option<(bool, UniqueKeepStrategy, Option<(i64, usize)>)>
    ensures flag { IfSome result (λ t. view maintain_order.now ≡ truth t.0) }
    ensures keep { IfSome result (λ t. view keep.now ≡ text (keep_word t.1)) }
    ensures slice { IfSome result (λ t. view slice.now ≡ cut_json t.2) }
    ensures fits { IfSome result (λ t. CutFits t.2) }
    ensures none { IfNone result ((b : Bool) (k : UniqueKeepStrategy) (cut : Cut) → CutFits cut → view maintain_order.now ≡ truth b → view keep.now ≡ text (keep_word k) → view slice.now ≡ cut_json cut → ⊥) }
{
    let keep = keep_of(text_of(keep)?)?;
    Some((truth_of(maintain_order)?, keep, cut_of(slice)?))
}

/// The way of joining, the two flags and the slice of a join.
fn join_parts(
    how: &Value,
    join_nulls: &Value,
    validation: &Value,
    slice: &Value,
) -> Option<(JoinType, bool, JoinValidation, Option<(i64, usize)>)>
    ensures how { IfSome result (λ t. view how.now ≡ text (join_word t.0)) }
    ensures flag { IfSome result (λ t. view join_nulls.now ≡ truth t.1) }
    ensures validation { IfSome result (λ t. view validation.now ≡ text (validation_word t.2)) }
    ensures slice { IfSome result (λ t. view slice.now ≡ cut_json t.3) }
    ensures fits { IfSome result (λ t. CutFits t.3) }
    ensures none { IfNone result ((h : JoinType) (b : Bool) (v : JoinValidation) (cut : Cut) → CutFits cut → view how.now ≡ text (join_word h) → view join_nulls.now ≡ truth b → view validation.now ≡ text (validation_word v) → view slice.now ≡ cut_json cut → ⊥) }
{
    let how = join_of(text_of(how)?)?;
    let validation = validation_of(text_of(validation)?)?;
    Some((how, truth_of(join_nulls)?, validation, cut_of(slice)?))
}

fn join_node_of(alloc: Global, parts: &[Value]) -> Result<Option<IR>, AllocError>
    ensures some { IfOk result (λ o. IfSome o (λ e. (tables : List Frame) → IsNode tables e (list (text (codes "join") ∷ map view parts.now)))) }
    ensures none { IfOk result (λ o. IfNone o ((l r : Node) (left_on right_on : List ExprIR) (args : JoinArgs) → CutFits args.slice → list (text (codes "join") ∷ map view parts.now) ≢ node_json 0 (entry.Join l r left_on right_on args))) }
{
    let Some((left, right, how, left_on, right_on, suffix, nulls, validation, slice)) = nine(parts)
    else {
        return Ok(None);
    };
    let Some(input_left) = entry_of(left) else {
        return Ok(None);
    };
    let Some(input_right) = entry_of(right) else {
        return Ok(None);
    };
    let Some((how, join_nulls, validation, slice)) = join_parts(how, nulls, validation, slice)
    else {
        return Ok(None);
    };
    let Some(left_on) = list_from::<Key, ExprIR>(alloc, left_on)? else {
        return Ok(None);
    };
    let Some(right_on) = list_from::<Key, ExprIR>(alloc, right_on)? else {
        return Ok(None);
    };
    let Some(suffix) = suffix_of(alloc, suffix)? else {
        return Ok(None);
    };
    Ok(Some(IR::Join {
        input_left,
        input_right,
        left_on,
        right_on,
        options: JoinArgs {
            how,
            suffix,
            join_nulls,
            validation,
            slice,
        },
    }))
}

fn left_out_node_of(parts: &[Value]) -> Option<IR>
    ensures some { IfSome result (λ e. (tables : List Frame) → IsNode tables e (list (text (codes "left_out") ∷ map view parts.now))) }
    ensures none { IfNone result ((w : What) → IsTrue (is_left_out_kind w) → list (text (codes "left_out") ∷ map view parts.now) ≢ node_json 0 (entry.LeftOut w)) }
{
    let kind = left_out_of(parts)?;
    Some(IR::LeftOut(kind))
}

/// The node of a word and what follows it.
///
/// Fails only for want of memory.
fn node_of(
    alloc: Global,
    tables: &Vec<DataFrame>,
    word: &str,
    parts: &[Value],
) -> Result<Option<IR>, AllocError>
    ensures some { IfOk result (λ o. IfSome o (λ e. IsNode tables.now.items e (list (text word.now ∷ map view parts.now)))) }
    ensures none { IfOk result (λ o. IfNone o ((e : IR) → IsNode tables.now.items e (list (text word.now ∷ map view parts.now)) → ⊥)) }
{
    match word {
        "scan" => scan_of(alloc, tables, parts),
        "project" => projection_of(alloc, parts),
        "select" => select_of(alloc, parts),
        "hstack" => hstack_of(alloc, parts),
        "filter" => filter_of(alloc, parts),
        "slice" => Ok(slice_of(parts)),
        "row_index" => row_index_of(alloc, parts),
        "map" => Ok(map_of(parts)),
        "sort" => sort_of(alloc, parts),
        "union" => union_of(alloc, parts),
        "hconcat" => hconcat_of(alloc, parts),
        "cache" => Ok(cache_of(parts)),
        "group_by" => group_by_of(alloc, parts),
        "join" => join_node_of(alloc, parts),
        "distinct" => distinct_of(alloc, parts),
        "left_out" => Ok(left_out_node_of(parts)),
        _ => Ok(sink_node_of(word, parts)),
    }
}

impl TakeJson<Vec<DataFrame>> for IR {
    ghost use Rattle.ps_document.specs.Nodes.{IsNode};

    ghost is_json = { λ tables e d. IsNode tables.items e d };

    fn take_json(
        alloc: Global,
        tables: &Vec<DataFrame>,
        value: Value,
    ) -> Result<Option<IR>, AllocError> {
        match word_and_parts(&value) {
            Some((word, parts)) => node_of(alloc, tables, word, parts),
            None => Ok(None),
        }
    }
}
