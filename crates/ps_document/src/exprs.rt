// The expressions of a document.
ghost use Rattle.std.specs.Prelude.{◌≡◌, ◌≢◌, ◌<◌, ◌^◌, ◌∷◌, [], ℕ, ℤ, Bool, List, IsTrue, IfOk, IfSome, IfNone, codes, map, FitsSigned};
ghost use Rattle.std.specs.Int.{w64};
ghost use Rattle.serde_json.specs.View.{view};
ghost use Rattle.ps_frame.specs.declared.expr.AExpr.TheVariants as expr;
ghost use Rattle.ps_frame.specs.declared.expr.IRAggExpr.TheVariants as agg;
ghost use Rattle.ps_frame.specs.declared.expr.LiteralValue.TheVariants as lit;
ghost use Rattle.ps_document.specs.Expressions.{CanStand, IsExpr, aggregate_json, entry_number, expr_json};
ghost use Rattle.ps_document.specs.Json.{list, text};
ghost use Rattle.ps_document.specs.Words.{is_left_out_kind};

use crate::parts::{FromJson, Plain, left_out_of, list_from};
use crate::taking::TakeJson;
use crate::values::{
    entry_of, four, one, short_number_of, text_of, three, truth_of, two, whole_number_of,
    word_and_parts,
};
use crate::words::{function_of, kind_of, operator_of};
use ps_frame::expr::{AExpr, FunctionExpr, IRAggExpr, LiteralValue, Operator, What};
use ps_frame::value::DataType;
use pu_base::{Node, PlSmallStr};
use serde_json::Value;
use std::alloc::{AllocError, Global};

fn len_of(parts: &[Value]) -> Option<AExpr>
    ensures some { IfSome result (λ e. IsExpr e (list (text (codes "len") ∷ map view parts.now))) }
    ensures none { IfNone result (list (text (codes "len") ∷ map view parts.now) ≢ expr_json expr.Len) }
{
    if parts.is_empty() {
        Some(AExpr::Len)
    } else {
        None
    }
}

fn cast_of(parts: &[Value]) -> Option<AExpr>
    ensures some { IfSome result (λ e. IsExpr e (list (text (codes "cast") ∷ map view parts.now))) }
    ensures none { IfNone result ((e : Node) (k : DataType) (strict : Bool) → list (text (codes "cast") ∷ map view parts.now) ≢ expr_json (expr.Cast e k strict)) }
{
    let (expr, dtype, strict) = three(parts)?;
    Some(AExpr::Cast {
        expr: entry_of(expr)?,
        dtype: kind_of(text_of(dtype)?)?,
        strict: truth_of(strict)?,
    })
}

fn sort_of(parts: &[Value]) -> Option<AExpr>
    ensures some { IfSome result (λ e. IsExpr e (list (text (codes "sort") ∷ map view parts.now))) }
    ensures none { IfNone result ((e : Node) (descending nulls_last : Bool) → list (text (codes "sort") ∷ map view parts.now) ≢ expr_json (expr.Sort e descending nulls_last)) }
{
    let (expr, descending, nulls_last) = three(parts)?;
    Some(AExpr::Sort {
        expr: entry_of(expr)?,
        descending: truth_of(descending)?,
        nulls_last: truth_of(nulls_last)?,
    })
}

fn gather_of(parts: &[Value]) -> Option<AExpr>
    ensures some { IfSome result (λ e. IsExpr e (list (text (codes "gather") ∷ map view parts.now))) }
    ensures none { IfNone result ((e i : Node) (scalar : Bool) → list (text (codes "gather") ∷ map view parts.now) ≢ expr_json (expr.Gather e i scalar)) }
{
    let (expr, idx, returns_scalar) = three(parts)?;
    Some(AExpr::Gather {
        expr: entry_of(expr)?,
        idx: entry_of(idx)?,
        returns_scalar: truth_of(returns_scalar)?,
    })
}

fn filter_of(parts: &[Value]) -> Option<AExpr>
    ensures some { IfSome result (λ e. IsExpr e (list (text (codes "filter") ∷ map view parts.now))) }
    ensures none { IfNone result ((e by : Node) → list (text (codes "filter") ∷ map view parts.now) ≢ expr_json (expr.Filter e by)) }
{
    let (input, by) = two(parts)?;
    Some(AExpr::Filter {
        input: entry_of(input)?,
        by: entry_of(by)?,
    })
}

fn slice_of(parts: &[Value]) -> Option<AExpr>
    ensures some { IfSome result (λ e. IsExpr e (list (text (codes "slice") ∷ map view parts.now))) }
    ensures none { IfNone result ((e o l : Node) → list (text (codes "slice") ∷ map view parts.now) ≢ expr_json (expr.Slice e o l)) }
{
    let (input, offset, length) = three(parts)?;
    Some(AExpr::Slice {
        input: entry_of(input)?,
        offset: entry_of(offset)?,
        length: entry_of(length)?,
    })
}

fn ternary_of(parts: &[Value]) -> Option<AExpr>
    ensures some { IfSome result (λ e. IsExpr e (list (text (codes "ternary") ∷ map view parts.now))) }
    ensures none { IfNone result ((p a b : Node) → list (text (codes "ternary") ∷ map view parts.now) ≢ expr_json (expr.Ternary p a b)) }
{
    let (predicate, truthy, falsy) = three(parts)?;
    Some(AExpr::Ternary {
        predicate: entry_of(predicate)?,
        truthy: entry_of(truthy)?,
        falsy: entry_of(falsy)?,
    })
}

/// The aggregate of a word and an operand.
fn aggregate_of(word: &str, input: Node) -> Option<IRAggExpr>
    ensures some { IfSome result (λ a. list (text word.now ∷ entry_number input ∷ []) ≡ aggregate_json a) }
    ensures none { IfNone result ((a : IRAggExpr) → list (text word.now ∷ entry_number input ∷ []) ≢ aggregate_json a) }
{
    match word {
        "min" => Some(IRAggExpr::Min(input)),
        "max" => Some(IRAggExpr::Max(input)),
        "first" => Some(IRAggExpr::First(input)),
        "last" => Some(IRAggExpr::Last(input)),
        "sum" => Some(IRAggExpr::Sum(input)),
        "n_unique" => Some(IRAggExpr::NUnique(input)),
        _ => None,
    }
}

fn count_of(parts: &[Value]) -> Option<AExpr>
    ensures some { IfSome result (λ e. IsExpr e (list (text (codes "count") ∷ map view parts.now))) }
    ensures none { IfNone result ((n : Node) (all : Bool) → list (text (codes "count") ∷ map view parts.now) ≢ expr_json (expr.Agg (agg.Count n all))) }
{
    let (input, all) = two(parts)?;
    Some(AExpr::Agg(IRAggExpr::Count(entry_of(input)?, truth_of(all)?)))
}

/// The expression that a word makes of one operand, by a function or an aggregate.
fn unary_of(word: &str, input: Node) -> Option<AExpr>
    ensures some { IfSome result (λ e. IsExpr e (list (text word.now ∷ entry_number input ∷ []))) }
    ensures no_function { IfNone result ((g : FunctionExpr) → list (text word.now ∷ entry_number input ∷ []) ≢ expr_json (expr.Function input g)) }
    ensures no_aggregate { IfNone result ((a : IRAggExpr) → list (text word.now ∷ entry_number input ∷ []) ≢ aggregate_json a) }
{
    if let Some(function) = function_of(word) {
        return Some(AExpr::Function { input, function });
    }
    aggregate_of(word, input).map(AExpr::Agg)
}

/// The expression that a word makes of its operands, by a function, an aggregate or an operator.
fn operation_of(word: &str, operands: &[Value]) -> Option<AExpr>
    ensures some { IfSome result (λ e. IsExpr e (list (text word.now ∷ map view operands.now))) }
    ensures no_binary { IfNone result ((l : Node) (o : Operator) (r : Node) → list (text word.now ∷ map view operands.now) ≢ expr_json (expr.BinaryExpr l o r)) }
    ensures no_function { IfNone result ((n : Node) (g : FunctionExpr) → list (text word.now ∷ map view operands.now) ≢ expr_json (expr.Function n g)) }
    ensures no_aggregate { IfNone result ((n : Node) (a : IRAggExpr) → aggregate_json a ≡ list (text word.now ∷ entry_number n ∷ []) → list (text word.now ∷ map view operands.now) ≢ aggregate_json a) }
{
    if let Some(input) = one(operands) {
        return unary_of(word, entry_of(input)?);
    }
    let (left, right) = two(operands)?;
    Some(AExpr::BinaryExpr {
        left: entry_of(left)?,
        op: operator_of(word)?,
        right: entry_of(right)?,
    })
}

fn null_of(parts: &[Value]) -> Option<AExpr>
    ensures some { IfSome result (λ e. IsExpr e (list (text (codes "null") ∷ map view parts.now))) }
    ensures none { IfNone result ((k : DataType) → list (text (codes "null") ∷ map view parts.now) ≢ expr_json (expr.Literal (lit.Null k))) }
{
    let kind = one(parts)?;
    Some(AExpr::Literal(LiteralValue::Null(kind_of(text_of(kind)?)?)))
}

fn truth_literal_of(parts: &[Value]) -> Option<AExpr>
    ensures some { IfSome result (λ e. IsExpr e (list (text (codes "bool") ∷ map view parts.now))) }
    ensures none { IfNone result ((b : Bool) → list (text (codes "bool") ∷ map view parts.now) ≢ expr_json (expr.Literal (lit.Boolean b))) }
{
    let truth = one(parts)?;
    Some(AExpr::Literal(LiteralValue::Boolean(truth_of(truth)?)))
}

fn int_of(parts: &[Value]) -> Option<AExpr>
    ensures some { IfSome result (λ e. IsExpr e (list (text (codes "int") ∷ map view parts.now))) }
    ensures none { IfNone result ((z : ℤ) → FitsSigned w64 z → list (text (codes "int") ∷ map view parts.now) ≢ expr_json (expr.Literal (lit.Int64 z))) }
{
    let number = one(parts)?;
    Some(AExpr::Literal(LiteralValue::Int64(whole_number_of(number)?)))
}

fn idx_of(parts: &[Value]) -> Option<AExpr>
    ensures some { IfSome result (λ e. IsExpr e (list (text (codes "idx") ∷ map view parts.now))) }
    ensures none { IfNone result ((n : ℕ) → n < 2 ^ 32 → list (text (codes "idx") ∷ map view parts.now) ≢ expr_json (expr.Literal (lit.IdxSize n))) }
{
    let number = one(parts)?;
    Some(AExpr::Literal(LiteralValue::IdxSize(short_number_of(number)?)))
}

fn string_of(alloc: Global, parts: &[Value]) -> Result<Option<AExpr>, AllocError>
    ensures some { IfOk result (λ o. IfSome o (λ e. IsExpr e (list (text (codes "str") ∷ map view parts.now)))) }
    ensures none { IfOk result (λ o. IfNone o ((s : List ℕ) → list (text (codes "str") ∷ map view parts.now) ≢ expr_json (expr.Literal (lit.String s)))) }
{
    let Some(text) = one(parts) else {
        return Ok(None);
    };
    let text = PlSmallStr::from_json(alloc, text)?;
    Ok(text.map(|text| AExpr::Literal(LiteralValue::String(text))))
}

fn column_of(alloc: Global, parts: &[Value]) -> Result<Option<AExpr>, AllocError>
    ensures some { IfOk result (λ o. IfSome o (λ e. IsExpr e (list (text (codes "col") ∷ map view parts.now)))) }
    ensures none { IfOk result (λ o. IfNone o ((name : List ℕ) → list (text (codes "col") ∷ map view parts.now) ≢ expr_json (expr.Column name))) }
{
    let Some(name) = one(parts) else {
        return Ok(None);
    };
    let name = PlSmallStr::from_json(alloc, name)?;
    Ok(name.map(AExpr::Column))
}

fn sort_by_of(alloc: Global, parts: &[Value]) -> Result<Option<AExpr>, AllocError>
    ensures some { IfOk result (λ o. IfSome o (λ e. IsExpr e (list (text (codes "sort_by") ∷ map view parts.now)))) }
    ensures none { IfOk result (λ o. IfNone o ((e : Node) (by : List Node) (descending nulls_last : List Bool) → list (text (codes "sort_by") ∷ map view parts.now) ≢ expr_json (expr.SortBy e by descending nulls_last))) }
{
    let Some((expr, by, descending, nulls_last)) = four(parts) else {
        return Ok(None);
    };
    let Some(expr) = entry_of(expr) else {
        return Ok(None);
    };
    let Some(by) = list_from::<Plain, Node>(alloc, by)? else {
        return Ok(None);
    };
    let Some(descending) = list_from::<Plain, bool>(alloc, descending)? else {
        return Ok(None);
    };
    let Some(nulls_last) = list_from::<Plain, bool>(alloc, nulls_last)? else {
        return Ok(None);
    };
    Ok(Some(AExpr::SortBy {
        expr,
        by,
        descending,
        nulls_last,
    }))
}

fn left_out_expression_of(parts: &[Value]) -> Option<AExpr>
    ensures some { IfSome result (λ e. IsExpr e (list (text (codes "left_out") ∷ map view parts.now))) }
    ensures none { IfNone result ((w : What) → IsTrue (is_left_out_kind w) → list (text (codes "left_out") ∷ map view parts.now) ≢ expr_json (expr.LeftOut w)) }
{
    let kind = left_out_of(parts)?;
    Some(AExpr::LeftOut(kind))
}

/// The expression of a word and what follows it.
///
/// Fails only for want of memory.
fn expression_of(alloc: Global, word: &str, parts: &[Value]) -> Result<Option<AExpr>, AllocError>
    ensures some { IfOk result (λ o. IfSome o (λ e. IsExpr e (list (text word.now ∷ map view parts.now)))) }
    ensures none { IfOk result (λ o. IfNone o ((e : AExpr) → CanStand e → list (text word.now ∷ map view parts.now) ≢ expr_json e)) }
{
    match word {
        "col" => column_of(alloc, parts),
        "null" => Ok(null_of(parts)),
        "bool" => Ok(truth_literal_of(parts)),
        "int" => Ok(int_of(parts)),
        "idx" => Ok(idx_of(parts)),
        "str" => string_of(alloc, parts),
        "cast" => Ok(cast_of(parts)),
        "sort" => Ok(sort_of(parts)),
        "sort_by" => sort_by_of(alloc, parts),
        "gather" => Ok(gather_of(parts)),
        "filter" => Ok(filter_of(parts)),
        "slice" => Ok(slice_of(parts)),
        "ternary" => Ok(ternary_of(parts)),
        "count" => Ok(count_of(parts)),
        "len" => Ok(len_of(parts)),
        "left_out" => Ok(left_out_expression_of(parts)),
        _ => Ok(operation_of(word, parts)),
    }
}

impl TakeJson<()> for AExpr {
    ghost use Rattle.ps_document.specs.Expressions.{IsExpr};

    ghost is_json = { λ _ e d. IsExpr e d };

    fn take_json(alloc: Global, _context: &(), value: Value) -> Result<Option<AExpr>, AllocError> {
        match word_and_parts(&value) {
            Some((word, parts)) => expression_of(alloc, word, parts),
            None => Ok(None),
        }
    }
}
