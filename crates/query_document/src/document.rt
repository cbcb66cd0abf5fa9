// Documents of a query over named tables.
ghost use Rattle.std.specs.Prelude.{◌≡◌, ◌≢◌, List, Err, IfOk, IfSome, IfNone};
ghost use Rattle.std.specs.List.{AllZip};
ghost use Rattle.serde_json.specs.Data.{Data, object};
ghost use Rattle.serde_json.specs.View.{members_view, view};
ghost use Rattle.ps_document.specs.Document.{IsJson};
ghost use Rattle.ps_document.specs.Json.{list};
ghost use Rattle.ps_document.specs.Tables.{IsTable};
ghost use Rattle.query_document.specs.QueryDocuments.{Asked, IsQueryDocument, IsQueryDocumentOf, IsQueryJson, asked_of, three_members};

use crate::distinct::is_naming;
use crate::found::read_off_tokens;
use ps_document::document::DocumentError;
use ps_document::objects::{has_no_members, take_member, take_two};
use ps_document::parts::{FromJson, Plain, list_from};
use ps_document::taking::take_list;
use ps_frame::frame::DataFrame;
use ps_frame::items::Items;
use pu_base::PlSmallStr;
use serde_json::{Map, Value};
use std::alloc::{AllocError, Global};

/// A query over named tables.
#[derive(Drop)]
pub struct QueryDocument {
    pub tables: Vec<DataFrame>,
    /// A name for each table, in their order; no two are alike.
    pub names: Items<PlSmallStr>,
    /// The text of the query.
    pub query: PlSmallStr,
}

/// Reads a document of a query: `{"tables": T, "names": [name, ..], "query": text}`, with the tables of any document and a
/// name for each, no two alike. It is read off the tokens of its text, and where it isn't told so, by way of the tree of its
/// JSON. Whether the text is a query isn't looked at.
///
/// Each error but `OutOfMemory` comes only for its reason. A table of more than 2^32 - 1 rows is out of memory too.
pub fn read_query_document(alloc: Global, bytes: Vec<u8>) -> Result<QueryDocument, DocumentError>
    ensures document { IfOk result (λ d. IsQueryDocumentOf (asked_of d) bytes.items) }
    ensures bad_json { result ≡ Err DocumentError.BadJson → IsJson bytes.items → ⊥ }
    ensures json { result ≡ Err DocumentError.BadDocument → IsJson bytes.items }
    ensures bad_document { result ≡ Err DocumentError.BadDocument → IsQueryDocument bytes.items → ⊥ }
{
    match read_off_tokens(alloc, bytes.as_slice()) {
        Ok(Some(document)) => Ok(document),
        Ok(None) => read_tree(alloc, bytes),
        Err(_) => Err(DocumentError::OutOfMemory),
    }
}

/// Reads a document by way of the tree of its JSON.
fn read_tree(alloc: Global, bytes: Vec<u8>) -> Result<QueryDocument, DocumentError>
    ensures document { IfOk result (λ d. IsQueryDocumentOf (asked_of d) bytes.items) }
    ensures bad_json { result ≡ Err DocumentError.BadJson → IsJson bytes.items → ⊥ }
    ensures json { result ≡ Err DocumentError.BadDocument → IsJson bytes.items }
    ensures bad_document { result ≡ Err DocumentError.BadDocument → IsQueryDocument bytes.items → ⊥ }
{
    match Value::from_slice(alloc, bytes.as_slice()) {
        Ok(value) => {
            drop(bytes);
            document_of(alloc, value)
        }
        Err(error) if error.is_memory() => Err(DocumentError::OutOfMemory),
        Err(_) => Err(DocumentError::BadJson),
    }
}

/// The document that a value is.
fn document_of(alloc: Global, value: Value) -> Result<QueryDocument, DocumentError>
    ensures document { IfOk result (λ d. IsQueryJson (asked_of d) (view value)) }
    ensures json { result ≢ Err DocumentError.BadJson }
    ensures none { result ≡ Err DocumentError.BadDocument → (asked : Asked) → IsQueryJson asked (view value) → ⊥ }
{
    let Some(members) = members_of(value) else {
        return Err(DocumentError::BadDocument);
    };
    match query_of(alloc, members) {
        Ok(Some(document)) => Ok(document),
        Ok(None) => Err(DocumentError::BadDocument),
        Err(_) => Err(DocumentError::OutOfMemory),
    }
}

/// The values of a document's members.
#[derive(Drop)]
struct Members {
    names: Value,
    query: Value,
    tables: Value,
}

/// What a document's members ask.
///
/// Fails only for want of memory.
fn query_of(alloc: Global, members: Members) -> Result<Option<QueryDocument>, AllocError>
    ensures some { IfOk result (λ o. IfSome o (λ d. IsQueryJson (asked_of d) (three_members (view members.names) (view members.query) (view members.tables)))) }
    ensures none { IfOk result (λ o. IfNone o ((asked : Asked) → IsQueryJson asked (three_members (view members.names) (view members.query) (view members.tables)) → ⊥)) }
{
    let Members {
        names,
        query,
        tables,
    } = members;
    let Some(tables) = take_list::<(), DataFrame>(alloc, &(), tables)? else {
        return Ok(None);
    };
    // By `let`-`else`, so that the proof cites the value by its name.
    let Some(document) = query_over(alloc, tables, &names, &query)? else {
        return Ok(None);
    };
    Ok(Some(document))
}

/// The query of this text over these tables with these names.
///
/// Fails only for want of memory.
pub(crate) fn query_over(
    alloc: Global,
    tables: Vec<DataFrame>,
    names: &Value,
    query: &Value,
) -> Result<Option<QueryDocument>, AllocError>
    ensures some { IfOk result (λ o. IfSome o (λ d. (ts : List Data) → AllZip IsTable tables.items ts → IsQueryJson (asked_of d) (three_members (view names.now) (view query.now) (list ts)))) }
    ensures none { IfOk result (λ o. IfNone o ((ts : List Data) → AllZip IsTable tables.items ts → (asked : Asked) → IsQueryJson asked (three_members (view names.now) (view query.now) (list ts)) → ⊥)) }
{
    let Some(names) = list_from::<Plain, PlSmallStr>(alloc, names)? else {
        return Ok(None);
    };
    let Some(query) = PlSmallStr::from_json(alloc, query)? else {
        return Ok(None);
    };
    let is_naming = is_naming(alloc, names.as_slice(), tables.len())?;
    if !is_naming {
        return Ok(None);
    }
    Ok(Some(QueryDocument {
        tables,
        names,
        query,
    }))
}

/// The members of a document, where a value is an object of just these.
fn members_of(value: Value) -> Option<Members>
    ensures some { IfSome result (λ m. view value ≡ three_members (view m.names) (view m.query) (view m.tables)) }
    ensures none { IfNone result ((names query tables : Data) → view value ≢ three_members names query tables) }
{
    match value {
        Value::Object(members) => take_members(members),
        _ => None,
    }
}

fn take_members(mut members: Map<String, Value>) -> Option<Members>
    ensures some { IfSome result (λ m. object (members_view members.entries) ≡ three_members (view m.names) (view m.query) (view m.tables)) }
    ensures none { IfNone result ((names query tables : Data) → object (members_view members.entries) ≢ three_members names query tables) }
{
    let (names, query) = take_two(&mut members, "names", "query")?;
    let tables = take_member(&mut members, "tables")?;
    if has_no_members(&members) {
        Some(Members {
            names,
            query,
            tables,
        })
    } else {
        None
    }
}
