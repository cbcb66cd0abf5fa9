// Parts of nodes that may be null.
ghost use Rattle.std.specs.Prelude.{◌≡◌, ◌≢◌, ℕ, List, Option, IfOk, IfSome, IfNone};
ghost use Rattle.serde_json.specs.View.{view};
ghost use Rattle.ps_meaning.specs.Steps.{Cut};
ghost use Rattle.ps_document.specs.Json.{count, or_null, text};
ghost use Rattle.ps_document.specs.Nodes.{CutFits, OffsetFits, cut_json, names_json};

use crate::parts::{FromJson, Plain, list_from};
use crate::values::{is_null, number_of, pair, short_number_of, whole_number_of};
use ps_frame::items::Items;
use pu_base::PlSmallStr;
use serde_json::Value;
use std::alloc::{AllocError, Global};

/// A slice, as an offset and a length, or none.
pub fn cut_of(value: &Value) -> Option<Option<(i64, usize)>>
    ensures some { IfSome result (λ cut. view value.now ≡ cut_json cut) }
    ensures fits { IfSome result CutFits }
    ensures none { IfNone result ((cut : Cut) → CutFits cut → view value.now ≢ cut_json cut) }
{
    if is_null(value) {
        return Some(None);
    }
    let (offset, len) = pair(value)?;
    Some(Some((whole_number_of(offset)?, number_of(len)?)))
}

/// The first number of a row index, or none.
pub fn offset_of(value: &Value) -> Option<Option<u32>>
    ensures some { IfSome result (λ offset. view value.now ≡ or_null count offset) }
    ensures fits { IfSome result OffsetFits }
    ensures none { IfNone result ((offset : Option ℕ) → OffsetFits offset → view value.now ≢ or_null count offset) }
{
    if is_null(value) {
        return Some(None);
    }
    Some(Some(short_number_of(value)?))
}

/// The suffix of a join, or none.
pub fn suffix_of(alloc: Global, value: &Value) -> Result<Option<Option<PlSmallStr>>, AllocError>
    ensures some { IfOk result (λ o. IfSome o (λ suffix. view value.now ≡ or_null text suffix)) }
    ensures none { IfOk result (λ o. IfNone o ((suffix : Option (List ℕ)) → view value.now ≢ or_null text suffix)) }
{
    if is_null(value) {
        return Ok(Some(None));
    }
    let suffix = PlSmallStr::from_json(alloc, value)?;
    Ok(suffix.map(Some))
}

/// Names, or none.
pub fn names_of(
    alloc: Global,
    value: &Value,
) -> Result<Option<Option<Items<PlSmallStr>>>, AllocError>
    ensures some { IfOk result (λ o. IfSome o (λ names. view value.now ≡ names_json names)) }
    ensures none { IfOk result (λ o. IfNone o ((names : Option (List (List ℕ))) → view value.now ≢ names_json names)) }
{
    if is_null(value) {
        return Ok(Some(None));
    }
    let names = list_from::<Plain, PlSmallStr>(alloc, value)?;
    Ok(names.map(Some))
}
