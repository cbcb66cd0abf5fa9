// Lists of parts, whose JSON is let go as they are read.
ghost use Rattle.std.specs.Prelude.{◌≡◌, ◌≢◌, List, IfOk, IfSome, IfNone, map};
ghost use Rattle.std.specs.List.{AllZip};
ghost use Rattle.serde_json.specs.Data.{Data};
ghost use Rattle.serde_json.specs.View.{view};
ghost use Rattle.ps_document.specs.Json.{list};

use serde_json::Value;
use std::alloc::{AllocError, Global};

/// A part of a document, which is made of its JSON, under what stood before it.
pub trait TakeJson<C>: Drop {
    ghost use Rattle.std.specs.Prelude.{IfOk, IfSome, IfNone};
    ghost use Rattle.serde_json.specs.Data.{Data};
    ghost use Rattle.serde_json.specs.View.{view};

    ghost is_json: { C → Self → Data → Type 0 };

    /// The part that a value is the JSON of.
    ///
    /// `None` where it is that of none. Fails only for want of memory.
    fn take_json(alloc: Global, context: &C, value: Value) -> Result<Option<Self>, AllocError>
        ensures some { IfOk result (λ o. IfSome o (λ x. is_json context.now x (view value))) }
        ensures none { IfOk result (λ o. IfNone o ((x : Self) → ¬ is_json context.now x (view value))) };
}

/// After how many elements the room of those that were taken is given back.
const RELEASED_ITEMS: usize = 65_536;

/// The parts that an array holds. The JSON is let go on the way.
///
/// `None` where the value is no array of such parts. Fails only for want of memory.
pub fn take_list<C, T: TakeJson<C>>(
    alloc: Global,
    context: &C,
    value: Value,
) -> Result<Option<Vec<T>>, AllocError>
    ensures some { IfOk result (λ o. IfSome o (λ xs. (ds : List Data) × (view value ≡ list ds) × AllZip (T.TakeJson.is_json context.now) xs.items ds)) }
    ensures none { IfOk result (λ o. IfNone o ((xs : List T) (ds : List Data) → AllZip (T.TakeJson.is_json context.now) xs ds → view value ≢ list ds)) }
{
    match value {
        Value::Array(items) => take_items(alloc, context, items),
        _ => Ok(None),
    }
}

fn take_items<C, T: TakeJson<C>>(
    alloc: Global,
    context: &C,
    items: Vec<Value>,
) -> Result<Option<Vec<T>>, AllocError>
    ensures some { IfOk result (λ o. IfSome o (λ xs. (ds : List Data) × (list (map view items.items) ≡ list ds) × AllZip (T.TakeJson.is_json context.now) xs.items ds)) }
    ensures none { IfOk result (λ o. IfNone o ((xs : List T) (ds : List Data) → AllZip (T.TakeJson.is_json context.now) xs ds → list (map view items.items) ≢ list ds)) }
{
    let mut parts = Vec::with_capacity(alloc, items.len())?;
    let mut left = items;
    left.reverse();
    'items: while let Some(item) = left.pop() {
        match T::take_json(alloc, context, item)? {
            Some(part) => parts.push(part)?,
            None => return Ok(None),
        }
        if left.len() % RELEASED_ITEMS == 0 {
            left.shrink_to_fit();
        }
    }
    Ok(Some(parts))
}
