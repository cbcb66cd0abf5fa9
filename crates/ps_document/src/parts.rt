// Parts of a document, and lists of them.
ghost use Rattle.std.specs.Prelude.{◌≡◌, ◌≢◌, ◌∷◌, [], List, All, IsTrue, IfOk, IfSome, IfNone, codes, map};
ghost use Rattle.serde_json.specs.View.{view};
ghost use Rattle.ps_frame.specs.Lines.{what_name};
ghost use Rattle.ps_document.specs.Json.{list, list_of, text};
ghost use Rattle.ps_document.specs.Words.{is_left_out_kind};

use crate::values::{elements, entry_of, one, pair, text_of, truth_of};
use crate::words::left_out_kind_of;
use ps_frame::expr::What;
use ps_frame::items::Items;
use ps_meaning::options::{ExprIR, OutputName};
use pu_base::{Node, PlSmallStr};
use serde_json::Value;
use std::alloc::{AllocError, Global};

/// A part of a document, which is read from its JSON. A part of several forms is read in the form `F`.
pub trait FromJson<F>: Drop {
    ghost use Rattle.std.specs.Prelude.{◌≡◌, ◌≢◌, IfOk, IfSome, IfNone};
    ghost use Rattle.serde_json.specs.Data.{Data};
    ghost use Rattle.serde_json.specs.View.{view};

    ghost json: { Self → Data };

    ghost stands: { Self → Type 0 };

    /// The part that a value is the JSON of. What the JSON leaves unsaid is as `stands` says.
    ///
    /// `None` where it is that of none. Fails only for want of memory.
    fn from_json(alloc: Global, value: &Value) -> Result<Option<Self>, AllocError>
        ensures some { IfOk result (λ o. IfSome o (λ x. view value.now ≡ json x)) }
        ensures stands { IfOk result (λ o. IfSome o stands) }
        ensures none { IfOk result (λ o. IfNone o ((x : Self) → view value.now ≢ json x)) };
}

/// The only form that a part has.
pub struct Plain;

/// An expression under its output name.
pub struct Named;

/// An expression of which only its number stands.
pub struct Key;

/// The parts that an array holds.
///
/// `None` where the value is no array of such parts. Fails only for want of memory.
pub fn list_from<F, T: FromJson<F>>(
    alloc: Global,
    value: &Value,
) -> Result<Option<Items<T>>, AllocError>
    ensures some { IfOk result (λ o. IfSome o (λ xs. view value.now ≡ list_of T.FromJson.json xs)) }
    ensures stand { IfOk result (λ o. IfSome o (All T.FromJson.stands)) }
    ensures none { IfOk result (λ o. IfNone o ((xs : List T) → view value.now ≢ list_of T.FromJson.json xs)) }
{
    let Some(items) = elements(value) else {
        return Ok(None);
    };
    let mut parts = Vec::with_capacity(alloc, items.len())?;
    for item in items {
        match T::from_json(alloc, item)? {
            Some(part) => parts.push(part)?,
            None => return Ok(None),
        }
    }
    Ok(Some(Items::new(parts)))
}

impl FromJson<Plain> for Node {
    ghost use Rattle.std.specs.Prelude.{⊤};
    ghost use Rattle.ps_document.specs.Expressions.{entry_number};

    ghost json = { entry_number };

    ghost stands = { λ _. ⊤ };

    fn from_json(_alloc: Global, value: &Value) -> Result<Option<Node>, AllocError> {
        Ok(entry_of(value))
    }
}

impl FromJson<Plain> for bool {
    ghost use Rattle.std.specs.Prelude.{⊤};
    ghost use Rattle.ps_document.specs.Json.{truth};

    ghost json = { truth };

    ghost stands = { λ _. ⊤ };

    fn from_json(_alloc: Global, value: &Value) -> Result<Option<bool>, AllocError> {
        Ok(truth_of(value))
    }
}

impl FromJson<Plain> for PlSmallStr {
    ghost use Rattle.std.specs.Prelude.{⊤};
    ghost use Rattle.ps_document.specs.Json.{text};

    ghost json = { text };

    ghost stands = { λ _. ⊤ };

    fn from_json(alloc: Global, value: &Value) -> Result<Option<PlSmallStr>, AllocError> {
        let Some(text) = text_of(value) else {
            return Ok(None);
        };
        // The only error is want of memory; `map_err` would hide the value in a closure.
        match PlSmallStr::from_str(alloc, text) {
            Ok(text) => Ok(Some(text)),
            Err(_) => Err(AllocError),
        }
    }
}

impl FromJson<Named> for ExprIR {
    ghost use Rattle.ps_document.specs.Nodes.{IsNamed, named_json};

    ghost json = { named_json };

    ghost stands = { IsNamed };

    fn from_json(alloc: Global, value: &Value) -> Result<Option<ExprIR>, AllocError> {
        let Some((name, node)) = pair(value) else {
            return Ok(None);
        };
        let Some(node) = entry_of(node) else {
            return Ok(None);
        };
        let name = PlSmallStr::from_json(alloc, name)?;
        Ok(name.map(|name| ExprIR {
            node,
            output_name: OutputName::Alias(name),
        }))
    }
}

impl FromJson<Key> for ExprIR {
    ghost use Rattle.ps_document.specs.Nodes.{IsUnnamed, key_json};

    ghost json = { key_json };

    ghost stands = { IsUnnamed };

    fn from_json(alloc: Global, value: &Value) -> Result<Option<ExprIR>, AllocError> {
        let Some(node) = entry_of(value) else {
            return Ok(None);
        };
        Ok(Some(ExprIR {
            node,
            output_name: OutputName::ColumnLhs(PlSmallStr::empty(alloc)),
        }))
    }
}

/// The kind of an entry that is left out.
pub fn left_out_of(parts: &[Value]) -> Option<What>
    ensures some { IfSome result (λ w. list (text (codes "left_out") ∷ map view parts.now) ≡ list (text (codes "left_out") ∷ text (what_name w) ∷ [])) }
    ensures left_out { IfSome result (λ w. IsTrue (is_left_out_kind w)) }
    ensures none { IfNone result ((w : What) → IsTrue (is_left_out_kind w) → list (text (codes "left_out") ∷ map view parts.now) ≢ list (text (codes "left_out") ∷ text (what_name w) ∷ [])) }
{
    left_out_kind_of(text_of(one(parts)?)?)
}
