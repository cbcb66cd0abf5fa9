// Runs of documents' plans, by the functions that the program hands in.
ghost use Rattle.std.specs.Prelude.{IfOk};
ghost use Rattle.flow_run_trials.specs.Ready.{IsReady};
ghost use Rattle.flow_run_trials.specs.Tools.{tools};
ghost use Rattle.flow_runs.specs.Running.{IsNewNode};

use crate::answers::{csv, document, error_text};
use crate::driving::random_answer;
use crate::planned::run_of_document;
use crate::random::Random;
use flow_driver::drive;
use flow_runs::RunningNode;
use ps_graph::graph::Graph;
use ps_options::options::Options;
use run_pieces::ToolPieces;
use std::alloc::Global;
use std::test::Fail;
use tool_ends::csv_text::csv_text;
use tool_ends::functions::ToolFunctions;

/// What computes pieces with the program's functions.
pub fn tool_pieces() -> ToolPieces {
    ToolPieces {
        functions: ToolFunctions,
    }
}

/// The graph of the run of a document of this text.
pub fn graph_of(alloc: Global, text: &str) -> Result<Graph<RunningNode>, Fail>
    ensures { IfOk result (IsReady IsNewNode tools) }
{
    match run_of_document(alloc, document(alloc, text)?, &ToolFunctions) {
        Ok(Some(graph)) => Ok(graph),
        Ok(None) => Err(Fail::from("no plan whose run is tried")),
        Err(_error) => Err(Fail::from("no valid plan")),
    }
}

/// What the run of a document of this text comes to, under a random order of its steps.
pub fn answer_at_random(
    alloc: Global,
    text: &str,
    options: &Options,
    random: &mut Random,
) -> Result<String, Fail> {
    let graph = graph_of(alloc, text)?;
    random_answer(alloc, graph, options, &tool_pieces(), random)
}

/// What the run of a document of this text comes to, driven from its beginning to its end.
pub fn answer_driven(alloc: Global, text: &str, options: &Options) -> Result<String, Fail> {
    let graph = graph_of(alloc, text)?;
    match drive(alloc, graph, options, &tool_pieces()) {
        Ok(table) => csv(alloc, csv_text(alloc, &table)),
        Err(error) => Ok(error_text(alloc, &error)?),
    }
}
