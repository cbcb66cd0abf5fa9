// Documents, read into arenas.
ghost use Rattle.std.specs.Prelude.{◌≡◌, ◌≢◌, ◌↔◌, ℕ, List, IsTrue, Err, IfOk, IfSome, IfNone, codes};
ghost use Rattle.std.specs.List.{AllZip};
ghost use Rattle.serde_json.specs.Data.{Data, Members as JsonMembers, member, no_members, object};
ghost use Rattle.serde_json.specs.View.{members_view, view};
ghost use Rattle.ps_frame.specs.Tables.{Frame};
ghost use Rattle.ps_plan.specs.Plans.{Plan};
ghost use Rattle.ps_document.specs.Document.{IsDocument, IsDocumentOf, IsJson, IsPlanJson};
ghost use Rattle.ps_document.specs.Expressions.{entry_number};
ghost use Rattle.ps_document.specs.Json.{four_members, list};
ghost use Rattle.ps_document.specs.Tables.{IsTable};

use crate::found::read_off_tokens;
use crate::objects::{has_no_members, take_two};
use crate::taking::take_list;
use crate::values::entry_of;
use ps_frame::expr::AExpr;
use ps_frame::frame::DataFrame;
use ps_plan::ir::IR;
use pu_base::{Arena, Node};
use serde_json::{Map, Value};
use std::alloc::{AllocError, Global};

/// The plan of a document. The scanned tables stand in its nodes.
#[derive(Drop)]
pub struct Document {
    pub nodes: Arena<IR>,
    pub exprs: Arena<AExpr>,
    pub root: Node,
}

/// Why bytes are not read as a document.
#[derive(Clone, Copy, Debug, PartialEq, Eq)]
pub enum DocumentError {
    /// They are no JSON text.
    BadJson,
    /// They are a JSON text, and no document.
    BadDocument,
    /// There is not enough memory.
    OutOfMemory,
}

/// Reads a document: off the tokens of its text, and where the document isn't told so, by way of the
/// tree of its JSON. The bytes are let go once their tree stands, and the tree on the way.
///
/// Each error but `OutOfMemory` comes only for its reason. A table of more than 2^32 - 1 rows is out
/// of memory too.
pub fn read_document(alloc: Global, bytes: Vec<u8>) -> Result<Document, DocumentError>
    ensures document { IfOk result (λ d. IsDocumentOf (record { nodes = d.nodes.items; exprs = d.exprs.items; root = d.root }) bytes.items) }
    ensures bad_json { result ≡ Err DocumentError.BadJson → IsJson bytes.items → ⊥ }
    ensures json { result ≡ Err DocumentError.BadDocument → IsJson bytes.items }
    ensures bad_document { result ≡ Err DocumentError.BadDocument → IsDocument bytes.items → ⊥ }
{
    match read_off_tokens(alloc, bytes.as_slice()) {
        Ok(Some(document)) => Ok(document),
        Ok(None) => read_tree(alloc, bytes),
        Err(_) => Err(DocumentError::OutOfMemory),
    }
}

/// Reads a document by way of the tree of its JSON.
fn read_tree(alloc: Global, bytes: Vec<u8>) -> Result<Document, DocumentError>
    ensures document { IfOk result (λ d. IsDocumentOf (record { nodes = d.nodes.items; exprs = d.exprs.items; root = d.root }) bytes.items) }
    ensures bad_json { result ≡ Err DocumentError.BadJson → IsJson bytes.items → ⊥ }
    ensures json { result ≡ Err DocumentError.BadDocument → IsJson bytes.items }
    ensures bad_document { result ≡ Err DocumentError.BadDocument → IsDocument bytes.items → ⊥ }
{
    match Value::from_slice(alloc, bytes.as_slice()) {
        Ok(value) => {
            drop(bytes);
            document_of(alloc, value)
        }
        Err(error) if error.is_memory() => Err(DocumentError::OutOfMemory),
        Err(_) => Err(DocumentError::BadJson),
    }
}

/// The document that a value is.
fn document_of(alloc: Global, value: Value) -> Result<Document, DocumentError>
    ensures document { IfOk result (λ d. (tables : List Frame) × IsPlanJson tables (record { nodes = d.nodes.items; exprs = d.exprs.items; root = d.root }) (view value)) }
    ensures json { result ≢ Err DocumentError.BadJson }
    ensures none { result ≡ Err DocumentError.BadDocument → (tables : List Frame) (plan : Plan) → IsPlanJson tables plan (view value) → ⊥ }
{
    let Some(members) = members_of(value) else {
        return Err(DocumentError::BadDocument);
    };
    match plan_of(alloc, members) {
        Ok(Some(document)) => Ok(document),
        Ok(None) => Err(DocumentError::BadDocument),
        Err(_) => Err(DocumentError::OutOfMemory),
    }
}

/// The values of a document's members.
#[derive(Drop)]
struct Members {
    tables: Value,
    exprs: Value,
    nodes: Value,
    root: Value,
}

/// The plan of a document's members.
///
/// Fails only for want of memory.
fn plan_of(alloc: Global, members: Members) -> Result<Option<Document>, AllocError>
    ensures some { IfOk result (λ o. IfSome o (λ d. (tables : List Frame) × IsPlanJson tables (record { nodes = d.nodes.items; exprs = d.exprs.items; root = d.root }) (four_members (view members.tables) (view members.exprs) (view members.nodes) (view members.root)))) }
    ensures none { IfOk result (λ o. IfNone o ((tables : List Frame) (plan : Plan) → IsPlanJson tables plan (four_members (view members.tables) (view members.exprs) (view members.nodes) (view members.root)) → ⊥)) }
{
    let Some(root) = entry_of(&members.root) else {
        // By a call: else they are taken apart right here, and the proof is the longer.
        drop(members);
        return Ok(None);
    };
    let Members {
        tables,
        exprs,
        nodes,
        root: number,
    } = members;
    drop(number);
    let Some(tables) = take_list::<(), DataFrame>(alloc, &(), tables)? else {
        return Ok(None);
    };
    // By `let`-`else`, so that the proof cites the value by its name.
    let Some(document) = plan_over(alloc, tables, exprs, nodes, root)? else {
        return Ok(None);
    };
    Ok(Some(document))
}

/// The plan of these expressions and nodes over these tables.
///
/// Fails only for want of memory.
pub(crate) fn plan_over(
    alloc: Global,
    tables: Vec<DataFrame>,
    exprs: Value,
    nodes: Value,
    root: Node,
) -> Result<Option<Document>, AllocError>
    ensures some { IfOk result (λ o. IfSome o (λ d. (ts : List Data) → AllZip IsTable tables.items ts → IsPlanJson tables.items (record { nodes = d.nodes.items; exprs = d.exprs.items; root = d.root }) (four_members (list ts) (view exprs) (view nodes) (entry_number root)))) }
    ensures none { IfOk result (λ o. IfNone o ((ts : List Data) → AllZip IsTable tables.items ts → (frames : List Frame) (plan : Plan) → IsPlanJson frames plan (four_members (list ts) (view exprs) (view nodes) (entry_number root)) → ⊥)) }
{
    let Some(exprs) = take_list::<(), AExpr>(alloc, &(), exprs)? else {
        return Ok(None);
    };
    let Some(nodes) = take_list::<Vec<DataFrame>, IR>(alloc, &tables, nodes)? else {
        return Ok(None);
    };
    let exprs = arena_of(alloc, exprs)?;
    let nodes = arena_of(alloc, nodes)?;
    Ok(Some(Document { nodes, exprs, root }))
}

/// The arena of a list of entries.
///
/// Fails only for want of memory.
fn arena_of<T: Drop>(alloc: Global, items: Vec<T>) -> Result<Arena<T>, AllocError>
    ensures { IfOk result (λ arena. arena.items ≡ items.items) }
{
    // The only error is want of memory; it is told anew here.
    let Ok(mut arena) = Arena::with_capacity(alloc, items.len()) else {
        return Err(AllocError);
    };
    for item in items {
        // The only error is want of memory; it is told anew here.
        let Ok(_) = arena.add(item) else {
            return Err(AllocError);
        };
    }
    Ok(arena)
}

/// The members of a document, where a value is an object of just these.
fn members_of(value: Value) -> Option<Members>
    ensures some { IfSome result (λ m. view value ≡ four_members (view m.tables) (view m.exprs) (view m.nodes) (view m.root)) }
    ensures none { IfNone result ((tables exprs nodes root : Data) → view value ≢ four_members tables exprs nodes root) }
{
    match value {
        Value::Object(members) => take_members(members),
        _ => None,
    }
}

fn take_members(mut members: Map<String, Value>) -> Option<Members>
    ensures some { IfSome result (λ m. object (members_view members.entries) ≡ four_members (view m.tables) (view m.exprs) (view m.nodes) (view m.root)) }
    ensures none { IfNone result ((tables exprs nodes root : Data) → object (members_view members.entries) ≢ four_members tables exprs nodes root) }
{
    let (exprs, nodes) = take_two(&mut members, "exprs", "nodes")?;
    let (root, tables) = take_two(&mut members, "root", "tables")?;
    if has_no_members(&members) {
        Some(Members {
            tables,
            exprs,
            nodes,
            root,
        })
    } else {
        None
    }
}
