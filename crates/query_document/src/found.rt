// The members of a document, read off its tokens with no tree of its tables.
ghost use Rattle.std.specs.Prelude.{◌≡◌, List, Some, IfOk, IfSome, codes};
ghost use Rattle.std.specs.List.{AllZip};
ghost use Rattle.serde_json.specs.Data.{Data, Members, no_members, object, put};
ghost use Rattle.serde_json.specs.Read.{read};
ghost use Rattle.serde_json.specs.View.{view};
ghost use Rattle.ps_reading.specs.Reading.{Reads, ReadsMembers};
ghost use Rattle.ps_document.specs.Json.{list};
ghost use Rattle.ps_document.specs.Tables.{IsTable};
ghost use Rattle.query_document.specs.Found.{IsFound};
ghost use Rattle.query_document.specs.QueryDocuments.{IsQueryDocumentOf, asked_of};

use crate::document::{QueryDocument, query_over};
use json::{Reader, Scratch, Token};
use ps_document::cells::ByToken;
use ps_frame::frame::DataFrame;
use ps_reading::list::read_list;
use ps_reading::value::read_value;
use serde_json::Value;
use std::alloc::{AllocError, Global};

/// What was found of a document's members.
#[derive(Drop)]
struct Found {
    tables: Option<Vec<DataFrame>>,
    names: Option<Value>,
    query: Option<Value>,
}

/// How deep arrays may nest in a member.
const MEMBER_DEPTH: usize = 126;

/// The document that bytes are, where it is told with no tree of its tables.
///
/// `None` says nothing of the bytes. Fails only for want of memory.
pub fn read_off_tokens(alloc: Global, bytes: &[u8]) -> Result<Option<QueryDocument>, AllocError>
    ensures { IfOk result (λ o. IfSome o (λ d. IsQueryDocumentOf (asked_of d) bytes.now)) }
{
    let Ok(text) = simdutf8::basic::from_utf8(bytes) else {
        return Ok(None);
    };
    let Some(found) = found_in(alloc, text)? else {
        return Ok(None);
    };
    let Found {
        tables,
        names,
        query,
    } = found;
    let Some(tables) = tables else {
        return Ok(None);
    };
    let Some(names) = names else {
        return Ok(None);
    };
    let Some(query) = query else {
        return Ok(None);
    };
    // By `let`-`else`, so that the proof cites the value by its name.
    let Some(document) = query_over(alloc, tables, &names, &query)? else {
        return Ok(None);
    };
    Ok(Some(document))
}

/// The members of the object that a text is.
///
/// Fails only for want of memory.
fn found_in(alloc: Global, text: &str) -> Result<Option<Found>, AllocError>
    ensures { IfOk result (λ o. IfSome o (λ f. (ms : Members) × IsFound f ms × (read text.now ≡ Some (object ms)))) }
{
    let mut scratch = Scratch::new(alloc);
    let mut reader = Reader::new(text, &mut scratch)?;
    let Some(Token::BeginObject) = reader.next() else {
        return Ok(None);
    };
    let Some(found) = read_members(alloc, &mut reader)? else {
        return Ok(None);
    };
    if reader.next().is_some() {
        return Ok(None);
    }
    Ok(Some(found))
}

/// The members up to the brace that closes their object.
///
/// Fails only for want of memory.
fn read_members(alloc: Global, reader: &mut Reader<'_>) -> Result<Option<Found>, AllocError>
    ensures { IfOk result (λ o. IfSome o (λ f. (ms : Members) × IsFound f ms × ReadsMembers 126 reader.old no_members ms reader.new)) }
{
    let mut found = Found {
        tables: None,
        names: None,
        query: None,
    };
    'members: loop {
        let Ok(key) = reader.next_key() else {
            return Ok(None);
        };
        let Some(name) = key else {
            return Ok(Some(found));
        };
        let Some(more) = read_member(alloc, reader, name, found)? else {
            return Ok(None);
        };
        found = more;
    }
}

/// What was found, with the value of one more member.
///
/// Fails only for want of memory.
fn read_member(
    alloc: Global,
    reader: &mut Reader<'_>,
    name: &str,
    found: Found,
) -> Result<Option<Found>, AllocError>
    ensures { IfOk result (λ o. IfSome o (λ more. (ms : Members) → IsFound found ms → (d : Data) × Reads 126 reader.old d reader.new × IsFound more (put name.now d ms))) }
{
    if name == "tables" {
        let Some(tables) = read_list::<ByToken, DataFrame>(alloc, &ByToken, reader)? else {
            return Ok(None);
        };
        let Some(more) = with_tables(found, tables) else {
            return Ok(None);
        };
        return Ok(Some(more));
    }
    let Some(value) = read_value(alloc, reader, MEMBER_DEPTH)? else {
        return Ok(None);
    };
    // By `let`-`else`, so that the proof cites the value by its name.
    let Some(more) = with_value(found, name, value) else {
        return Ok(None);
    };
    Ok(Some(more))
}

/// What was found, and the tables, where there were none.
fn with_tables(found: Found, tables: Vec<DataFrame>) -> Option<Found>
    ensures { IfSome result (λ more. (ds : List Data) → AllZip IsTable tables.items ds → (ms : Members) → IsFound found ms → IsFound more (put (codes "tables") (list ds) ms)) }
{
    let Found {
        tables: None,
        names,
        query,
    } = found
    else {
        return None;
    };
    Some(Found {
        tables: Some(tables),
        names,
        query,
    })
}

/// What was found, and the value of a member that isn't the tables, where there was none.
fn with_value(found: Found, name: &str, value: Value) -> Option<Found>
    ensures { IfSome result (λ more. (ms : Members) → IsFound found ms → IsFound more (put name.now (view value) ms)) }
{
    match name {
        "names" => with_names(found, value),
        "query" => with_query(found, value),
        _ => None,
    }
}

/// What was found, and the names, where there were none.
fn with_names(found: Found, value: Value) -> Option<Found>
    ensures { IfSome result (λ more. (ms : Members) → IsFound found ms → IsFound more (put (codes "names") (view value) ms)) }
{
    let Found {
        tables,
        names: None,
        query,
    } = found
    else {
        return None;
    };
    Some(Found {
        tables,
        names: Some(value),
        query,
    })
}

/// What was found, and the query's text, where there was none.
fn with_query(found: Found, value: Value) -> Option<Found>
    ensures { IfSome result (λ more. (ms : Members) → IsFound found ms → IsFound more (put (codes "query") (view value) ms)) }
{
    let Found {
        tables,
        names,
        query: None,
    } = found
    else {
        return None;
    };
    Some(Found {
        tables,
        names,
        query: Some(value),
    })
}
