// The graphs of documents' plans, which were worked out by hand.
use crate::planned::{Planned, lowered};
use crate::told::{graph_text, is_whole, named_text};
use plan_scripts::documents::{CASES, document};
use std::alloc::Global;
use std::test::Fail;

/// What the plan of these nodes becomes.
pub fn plan_of(alloc: Global, nodes: &str) -> Result<Planned, Fail> {
    lowered(alloc, document(alloc, nodes)?)
}

// The text of the graph of these nodes' plan, behind `whole` where its nodes and pipes name each other as they should.
fn graph_of(alloc: Global, nodes: &str) -> Result<String, Fail> {
    let planned = plan_of(alloc, nodes)?;
    let mut text = String::new(alloc);
    text.push_str(if is_whole(&planned) { "whole " } else { "" })?;
    let graph = graph_text(alloc, &planned.graph)?;
    text.push_str(graph.as_str())?;
    Ok(text)
}

// The same as it was worked out by hand.
fn wanted(alloc: Global, plan: &str) -> Result<String, Fail> {
    let mut text = String::new(alloc);
    text.push_str("whole ")?;
    let named = named_text(alloc, plan, "/")?;
    text.push_str(named.as_str())?;
    Ok(text)
}

#[test]
fn graphs_show_their_plans(rt: HostRuntime) -> Result<(), Fail> {
    let alloc = rt.alloc();
    for case in CASES.trim().lines() {
        let Some((nodes, plan)) = case.split_once(" -> ") else {
            return Err(Fail::from("a plan without an answer"));
        };
        let given = graph_of(alloc, nodes)?;
        let wanted = wanted(alloc, plan)?;
        assert_eq!(rt; given.as_str(), wanted.as_str(), "at {nodes}");
    }
    Ok(())
}
