// The ways to an answer that are timed.
use crate::query::plan;
use crate::table::{Summary, make, summarize};
use anyhow::{Result, bail};
use flow_driver::drive;
use flow_run_trials::planned::run_of_document;
use plain_queries::query::run_query_serial;
use ps_document::document::Document;
use ps_frame::frame::DataFrame;
use ps_frame::refusal::PolarsResult;
use ps_options::options::Options;
use run_pieces::ToolPieces;
use std::alloc::Global;
use tool_ends::functions::ToolFunctions;

/// A way to an answer.
#[derive(Clone, Copy, Debug, PartialEq, Eq)]
pub enum Way {
    /// Node after node, over whole tables.
    Plain,
    /// In pieces, by one worker.
    Pieces,
}

impl Way {
    /// The way of a word, as a caller gives it.
    pub fn of_word(word: &str) -> Option<Way> {
        match word {
            "plain" => Some(Way::Plain),
            "pieces" => Some(Way::Pieces),
            _ => None,
        }
    }
}

// The table of a plan, node after node.
fn plain(alloc: Global, document: Document, options: &Options) -> PolarsResult<Option<DataFrame>> {
    let Document {
        nodes,
        mut exprs,
        root,
    } = document;
    run_query_serial(alloc, root, nodes, &mut exprs, &ToolFunctions, options)
}

// The table of a plan, in pieces; none where the plan has no run.
fn pieces(alloc: Global, document: Document, options: &Options) -> PolarsResult<Option<DataFrame>> {
    let Some(graph) = run_of_document(alloc, document, &ToolFunctions)? else {
        return Ok(None);
    };
    let functions = ToolPieces {
        functions: ToolFunctions,
    };
    let table = drive(alloc, graph, options, &functions)?;
    Ok(Some(table))
}

// The table of the filter over a table of so many rows.
fn once(
    alloc: Global,
    way: Way,
    table: &DataFrame,
    rows: u32,
    options: &Options,
) -> Result<DataFrame> {
    let document = plan(alloc, table.share(alloc)?, rows)?;
    let answer = match way {
        Way::Plain => plain(alloc, document, options)?,
        Way::Pieces => pieces(alloc, document, options)?,
    };
    match answer {
        Some(table) => Ok(table),
        None => bail!("no table"),
    }
}

/// Goes a way so many times, but at least once, and tells of the last table.
pub fn repeat(
    alloc: Global,
    way: Way,
    rows: u32,
    options: &Options,
    times: u32,
) -> Result<Summary> {
    let table = make(alloc, rows)?;
    let mut last = once(alloc, way, &table, rows, options)?;
    for _ in 1..times {
        last = once(alloc, way, &table, rows, options)?;
    }
    Ok(summarize(&last))
}
