// The members of a document, read off its tokens with no tree of its tables.
ghost use Rattle.std.specs.Prelude.{◌≡◌, List, None, Some, IfOk, IfSome, codes};
ghost use Rattle.std.specs.Bool.{OnFalse, OnTrue};
ghost use Rattle.std.specs.List.{AllZip};
ghost use Rattle.serde_json.specs.Data.{Data, Members, no_members, object, put};
ghost use Rattle.serde_json.specs.Read.{read};
ghost use Rattle.serde_json.specs.View.{view};
ghost use Rattle.ps_reading.specs.Reading.{Reads, ReadsMembers};
ghost use Rattle.ps_document.specs.Document.{IsDocumentOf};
ghost use Rattle.ps_document.specs.Found.{IsFound};
ghost use Rattle.ps_document.specs.Json.{list};
ghost use Rattle.ps_document.specs.Tables.{IsTable};

use crate::cells::ByToken;
use crate::document::{Document, plan_over};
use crate::values::entry_of;
use json::{Reader, Scratch, Token};
use ps_frame::frame::DataFrame;
use ps_reading::list::read_list;
use ps_reading::value::read_value;
use pu_base::Node;
use serde_json::Value;
use std::alloc::{AllocError, Global};

/// What was found of a document's members.
#[derive(Drop)]
struct Found {
    tables: Option<Vec<DataFrame>>,
    exprs: Option<Value>,
    nodes: Option<Value>,
    root: Option<Node>,
}

/// How deep arrays may nest in a member.
const MEMBER_DEPTH: usize = 126;

/// The document that bytes are, where it is told with no tree of its tables.
///
/// `None` says nothing of the bytes. Fails only for want of memory.
pub fn read_off_tokens(alloc: Global, bytes: &[u8]) -> Result<Option<Document>, AllocError>
    ensures { IfOk result (λ o. IfSome o (λ d. IsDocumentOf (record { nodes = d.nodes.items; exprs = d.exprs.items; root = d.root }) bytes.now)) }
{
    let Ok(text) = simdutf8::basic::from_utf8(bytes) else {
        return Ok(None);
    };
    let mut found = Found {
        tables: None,
        exprs: None,
        nodes: None,
        root: None,
    };
    let told = find_members(alloc, text, &mut found)?;
    if !told {
        // By a call: else it is taken apart right here, and the proof is the longer.
        drop(found);
        return Ok(None);
    }
    let Found {
        tables,
        exprs,
        nodes,
        root,
    } = found;
    let Some((values, others)) = exprs.zip(nodes).zip(tables.zip(root)) else {
        return Ok(None);
    };
    let (exprs, nodes) = values;
    let (tables, root) = others;
    // By `let`-`else`, so that the proof cites the value by its name.
    let Some(document) = plan_over(alloc, tables, exprs, nodes, root)? else {
        return Ok(None);
    };
    Ok(Some(document))
}

/// Puts the members of the object that a text is to those that were found, and whether they are told.
///
/// Fails only for want of memory.
fn find_members(alloc: Global, text: &str, found: &mut Found) -> Result<bool, AllocError>
    ensures { IfOk result (λ told. OnTrue told (IsFound found.old no_members → (ms : Members) × IsFound found.new ms × (read text.now ≡ Some (object ms)))) }
{
    let mut scratch = Scratch::new(alloc);
    let mut reader = Reader::new(text, &mut scratch)?;
    let Some(Token::BeginObject) = reader.next() else {
        return Ok(false);
    };
    let told = read_members(alloc, &mut reader, found)?;
    if !told {
        return Ok(false);
    }
    if reader.next().is_some() {
        return Ok(false);
    }
    Ok(true)
}

/// Puts the members up to the brace that closes their object to those that were found, and whether
/// they are told.
///
/// Fails only for want of memory.
fn read_members(
    alloc: Global,
    reader: &mut Reader<'_>,
    found: &mut Found,
) -> Result<bool, AllocError>
    ensures { IfOk result (λ told. OnTrue told ((before : Members) → IsFound found.old before → (ms : Members) × IsFound found.new ms × ReadsMembers 126 reader.old before ms reader.new)) }
{
    'members: loop {
        let Ok(key) = reader.next_key() else {
            return Ok(false);
        };
        let Some(name) = key else {
            return Ok(true);
        };
        let told = read_member(alloc, reader, name, found)?;
        if !told {
            return Ok(false);
        }
    }
}

/// Puts the value of one more member to what was found, and whether it is told.
///
/// Fails only for want of memory.
fn read_member(
    alloc: Global,
    reader: &mut Reader<'_>,
    name: &str,
    found: &mut Found,
) -> Result<bool, AllocError>
    ensures { IfOk result (λ told. OnTrue told ((d : Data) × Reads 126 reader.old d reader.new × ((ms : Members) → IsFound found.old ms → IsFound found.new (put name.now d ms)))) }
{
    if name == "tables" {
        let Some(tables) = read_list::<ByToken, DataFrame>(alloc, &ByToken, reader)? else {
            return Ok(false);
        };
        return Ok(found.put_tables(tables));
    }
    let Some(value) = read_value(alloc, reader, MEMBER_DEPTH)? else {
        return Ok(false);
    };
    Ok(found.put_value(name, value))
}

impl Found {
    /// Puts the tables to what was found, where there were none.
    fn put_tables(&mut self, tables: Vec<DataFrame>) -> bool
        ensures { OnTrue result ((ds : List Data) → AllZip IsTable tables.items ds → (ms : Members) → IsFound self.old ms → IsFound self.new (put (codes "tables") (list ds) ms)) }
    {
        fill(&mut self.tables, tables)
    }

    /// Puts the value of a member that isn't the tables to what was found, where there was none.
    fn put_value(&mut self, name: &str, value: Value) -> bool
        ensures { OnTrue result ((ms : Members) → IsFound self.old ms → IsFound self.new (put name.now (view value) ms)) }
    {
        match name {
            "exprs" => fill(&mut self.exprs, value),
            "nodes" => fill(&mut self.nodes, value),
            "root" => self.put_root(&value),
            _ => false,
        }
    }

    /// Puts the root to what was found, where it is a number and there was none.
    fn put_root(&mut self, value: &Value) -> bool
        ensures { OnTrue result ((ms : Members) → IsFound self.old ms → IsFound self.new (put (codes "root") (view value.now) ms)) }
    {
        match entry_of(value) {
            Some(root) => fill(&mut self.root, root),
            None => false,
        }
    }
}

/// Puts a value where none stands yet, and whether this is so.
fn fill<T: Drop>(place: &mut Option<T>, value: T) -> bool
    ensures filled { OnTrue result ((place.old ≡ None) × (place.new ≡ Some value)) }
    ensures kept { OnFalse result (place.new ≡ place.old) }
{
    if place.is_some() {
        return false;
    }
    *place = Some(value);
    true
}
