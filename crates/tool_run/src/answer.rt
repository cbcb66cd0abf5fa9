// The answer to a document.
ghost use Rattle.std.specs.Prelude.{◌≡◌, ℕ, Err, IfErr, IfOk, List, Some};
ghost use Rattle.tool_words.specs.Words.{IsExplain, IsRun, IsText};
ghost use Rattle.query_document.specs.QueryDocuments.{IsNaming, asked_of};
ghost use Rattle.text_plans.specs.QueryPlans.{first_unknown, query_tables, table_named};
ghost use Rattle.text_queries.specs.Grammar.{ReadsAs};
ghost use Rattle.text_queries.specs.Queries.{Query};
ghost use Rattle.plain_queries.specs.Queries.{IsQueryAnswer, IsQueryError};
ghost use Rattle.ps_survey.specs.Flaws.{plan_of};
ghost use Rattle.ps_validate.specs.Errors.{IsPlanError};
ghost use Rattle.tool_run.specs.Answers.{HasPlan, IsAnswerText, IsExplanation, IsPlanText, IsUnanswered};
ghost use Rattle.tool_run.specs.Asked.{IsQueryPlan, IsWantedBy, Words};
ghost use Rattle.tool_run.specs.Errors.{IsOutcomeOf};

use crate::outcome::Outcome;
use plain_queries::gate::Gate;
use plain_queries::query::{run_query, run_query_serial};
use plan_queries::query::plan_query;
use ps_document::document::{Document, DocumentError, read_document};
use ps_frame::frame::DataFrame;
use ps_frame::functions::Functions;
use ps_frame::refusal::{Compute, PolarsError, PolarsResult};
use ps_options::options::Options;
use ps_phys::text::plan_text;
use query_document::document::{QueryDocument, read_query_document};
use std::alloc::Global;
use std::sync::Wait;
use std::thread::Threads;
use text_plans::query_plan;
use text_reading::read_query;
use text_tokens::error::TextError;
use tool_ends::csv_text::csv_text;

/// What is wanted of a document.
#[derive(Clone, Copy, Debug, PartialEq, Eq)]
pub(crate) enum Wanted {
    /// The table of its plan, as `run` wants it.
    Plan {
        /// How its query is run.
        options: Options,
        /// Whether it is run without workers.
        serial: bool,
    },
    /// The table of its query, as `text` wants it.
    Query {
        /// How it is run.
        options: Options,
        /// Whether it is run without workers.
        serial: bool,
    },
    /// The physical plan of its plan, as `explain` wants it.
    Explanation,
}

/// The text that answers the document of these bytes, or how the run ends without one.
pub(crate) fn answer<R: Threads + Wait + Sync, F: Functions, G: Gate>(
    rt: &R,
    alloc: Global,
    bytes: Vec<u8>,
    wanted: Wanted,
    functions: &F,
    gate: &G,
) -> Result<Vec<u8>, Outcome>
    ensures text { (words : Words) → IsWantedBy words wanted → IfOk result (λ text. HasPlan words bytes.items (λ plan. IsAnswerText (F.told functions.now) words plan text.items)) }
    ensures outcome { (words : Words) → IsWantedBy words wanted → IfErr result (IsUnanswered (F.told functions.now) words bytes.items) }
{
    match wanted {
        Wanted::Plan { options, serial } => {
            answer_plan(rt, alloc, bytes, &options, serial, functions, gate)
        }
        Wanted::Query { options, serial } => {
            answer_query(rt, alloc, bytes, &options, serial, functions, gate)
        }
        Wanted::Explanation => explain(alloc, bytes, functions),
    }
}

/// The text that answers the plan of the document of these bytes, or how the run ends without one.
fn answer_plan<R: Threads + Wait + Sync, F: Functions, G: Gate>(
    rt: &R,
    alloc: Global,
    bytes: Vec<u8>,
    options: &Options,
    serial: bool,
    functions: &F,
    gate: &G,
) -> Result<Vec<u8>, Outcome>
    ensures text { (words : Words) → IsRun words → IfOk result (λ text. HasPlan words bytes.items (λ plan. IsPlanText (F.told functions.now) plan text.items)) }
    ensures outcome { (words : Words) → IsRun words → IfErr result (IsUnanswered (F.told functions.now) words bytes.items) }
{
    // By hand, since the contract says which outcome each error has.
    match read_document(alloc, bytes) {
        Ok(document) => match text_of(rt, alloc, document, options, serial, functions, gate) {
            Ok(text) => Ok(text),
            Err(error) => Err(unanswered(alloc, &error)),
        },
        Err(error) => Err(unread(error)),
    }
}

/// The text that answers the query of the document of these bytes, or how the run ends without one.
fn answer_query<R: Threads + Wait + Sync, F: Functions, G: Gate>(
    rt: &R,
    alloc: Global,
    bytes: Vec<u8>,
    options: &Options,
    serial: bool,
    functions: &F,
    gate: &G,
) -> Result<Vec<u8>, Outcome>
    ensures text { (words : Words) → IsText words → IfOk result (λ text. HasPlan words bytes.items (λ plan. IsPlanText (F.told functions.now) plan text.items)) }
    ensures outcome { (words : Words) → IsText words → IfErr result (IsUnanswered (F.told functions.now) words bytes.items) }
{
    // By hand, since the contract says which outcome each error has.
    match read_query_document(alloc, bytes) {
        Ok(asked) => match planned(alloc, asked) {
            Ok(document) => match text_of(rt, alloc, document, options, serial, functions, gate) {
                Ok(text) => Ok(text),
                Err(error) => Err(unanswered(alloc, &error)),
            },
            Err(error) => Err(unplanned(&error)),
        },
        Err(error) => Err(unread(error)),
    }
}

/// The text of the physical plan of the document of these bytes, or how the run ends without one.
fn explain<F: Functions>(alloc: Global, bytes: Vec<u8>, functions: &F) -> Result<Vec<u8>, Outcome>
    ensures text { (words : Words) → IsExplain words → IfOk result (λ text. HasPlan words bytes.items (λ plan. IsExplanation (F.told functions.now) plan text.items)) }
    ensures outcome { (words : Words) → IsExplain words → IfErr result (IsUnanswered (F.told functions.now) words bytes.items) }
{
    // By hand, since the contract says which outcome each error has.
    match read_document(alloc, bytes) {
        Ok(document) => match explained(alloc, document, functions) {
            Ok(text) => Ok(text),
            Err(error) => Err(unanswered(alloc, &error)),
        },
        Err(error) => Err(unread(error)),
    }
}

/// The text of the physical plan of a document.
fn explained<F: Functions>(
    alloc: Global,
    document: Document,
    functions: &F,
) -> PolarsResult<Vec<u8>>
    ensures text { IfOk result (λ text. IsExplanation (F.told functions.now) (plan_of document.root document.nodes.items document.exprs.items) text.items) }
    ensures error { IfErr result (IsPlanError (F.told functions.now) (plan_of document.root document.nodes.items document.exprs.items)) }
{
    let Document {
        nodes,
        mut exprs,
        root,
    } = document;
    // Matches and no `?`: so the clause of each error is handed on as it stands.
    match plan_query(alloc, root, nodes, &mut exprs, functions) {
        Ok((nodes, root)) => match plan_text(alloc, &nodes, root) {
            Ok(text) => Ok(text.into_bytes()),
            Err(error) => Err(error),
        },
        Err(error) => Err(error),
    }
}

/// The plan of a query over its tables.
fn planned(alloc: Global, document: QueryDocument) -> Result<Document, TextError>
    requires { IsNaming document.names document.tables.items }
    ensures plan { IfOk result (λ d. IsQueryPlan (asked_of document) (plan_of d.root d.nodes.items d.exprs.items)) }
    ensures reading { result ≡ Err TextError.NoReading → (query : Query) → ¬ ReadsAs document.query query }
    ensures unknown { (name : List ℕ) → result ≡ Err (TextError.UnknownTable name) → (query : Query) × ReadsAs document.query query × (first_unknown (table_named document.names document.tables.items) (query_tables query) ≡ Some name) }
{
    let QueryDocument {
        tables,
        names,
        query,
    } = document;
    // By hand: behind `?` the proof would lose which call gave the error.
    let query = match read_query(alloc, query.as_str()) {
        Ok(query) => query,
        Err(error) => return Err(error),
    };
    match query_plan(alloc, &query, names.as_slice(), tables) {
        Ok((root, nodes, exprs)) => Ok(Document { nodes, exprs, root }),
        Err(error) => Err(error),
    }
}

fn unplanned(error: &TextError) -> Outcome
    ensures reading { error.now ≡ TextError.NoReading → result ≡ Outcome.BadQuery }
    ensures table { (name : List ℕ) → error.now ≡ TextError.UnknownTable name → result ≡ Outcome.UnknownTable }
    ensures memory { error.now ≡ TextError.OutOfMemory → result ≡ Outcome.OutOfMemory }
{
    match error {
        TextError::NoReading => Outcome::BadQuery,
        TextError::UnknownTable { .. } => Outcome::UnknownTable,
        TextError::OutOfMemory => Outcome::OutOfMemory,
    }
}

fn unread(error: DocumentError) -> Outcome
    ensures json { error ≡ DocumentError.BadJson → result ≡ Outcome.BadJson }
    ensures document { error ≡ DocumentError.BadDocument → result ≡ Outcome.BadDocument }
    ensures memory { error ≡ DocumentError.OutOfMemory → result ≡ Outcome.OutOfMemory }
{
    match error {
        DocumentError::BadJson => Outcome::BadJson,
        DocumentError::BadDocument => Outcome::BadDocument,
        DocumentError::OutOfMemory => Outcome::OutOfMemory,
    }
}

/// The text that answers a document: that of the table which its plan means.
fn text_of<R: Threads + Wait + Sync, F: Functions, G: Gate>(
    rt: &R,
    alloc: Global,
    document: Document,
    options: &Options,
    serial: bool,
    functions: &F,
    gate: &G,
) -> PolarsResult<Vec<u8>>
    ensures text { IfOk result (λ text. IsPlanText (F.told functions.now) (plan_of document.root document.nodes.items document.exprs.items) text.items) }
    ensures error { IfErr result (IsQueryError (F.told functions.now) (plan_of document.root document.nodes.items document.exprs.items)) }
{
    let table = table_of(rt, alloc, document, options, serial, functions, gate)?;
    csv_text(alloc, &table)
}

/// The table that a document's plan means, by workers or by this thread alone.
fn table_of<R: Threads + Wait + Sync, F: Functions, G: Gate>(
    rt: &R,
    alloc: Global,
    document: Document,
    options: &Options,
    serial: bool,
    functions: &F,
    gate: &G,
) -> PolarsResult<DataFrame>
    ensures table { IfOk result (IsQueryAnswer (F.told functions.now) (plan_of document.root document.nodes.items document.exprs.items)) }
    ensures error { IfErr result (IsQueryError (F.told functions.now) (plan_of document.root document.nodes.items document.exprs.items)) }
{
    let Document {
        nodes,
        mut exprs,
        root,
    } = document;
    let answer = if serial {
        run_query_serial(alloc, root, nodes, &mut exprs, functions, options)
    } else {
        run_query(rt, alloc, root, nodes, &mut exprs, functions, gate, options)
    };
    // By hand, since a query always answers some table: its `None` never comes.
    match answer {
        Ok(Some(table)) => Ok(table),
        Ok(None) => unreachable!(),
        Err(error) => Err(error),
    }
}

/// How a run ends whose query gave an error.
fn unanswered(alloc: Global, error: &PolarsError) -> Outcome
    ensures { IsOutcomeOf error.now result }
{
    let Ok(line) = format!(in alloc; "{error}\n") else {
        return Outcome::OutOfMemory;
    };
    match error {
        PolarsError::OutOfMemory => Outcome::OutOfMemory,
        PolarsError::InvalidPlan { .. }
        | PolarsError::ColumnNotFound { .. }
        | PolarsError::Duplicate { .. }
        | PolarsError::SchemaMismatch { .. }
        | PolarsError::Unsupported { .. } => Outcome::Refused(line),
        PolarsError::ComputeError { why, .. } => match why {
            Compute::NoKey => Outcome::Refused(line),
            Compute::StrictCast | Compute::SliceBound | Compute::Function => Outcome::Faulted(line),
        },
        PolarsError::ShapeMismatch { .. } | PolarsError::OutOfBounds { .. } => {
            Outcome::Faulted(line)
        }
    }
}
