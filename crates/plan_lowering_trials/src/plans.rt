// Plans, and the nodes that they are lowered to, worked out by hand from the rules.

use lowering_scripts::documents::validated;
use plan_lowering::physical::build_physical_plan;
use plan_scripts::documents::{CASES, document, in_one_line};
use plan_scripts::functions::{StreamsAlone, TwoSame};
use ps_document::document::Document;
use ps_phys::text::plan_text;
use std::alloc::Global;
use std::test::Fail;

// The text of the physical plan of these nodes, with `/` for the end of a line.
fn lowered(alloc: Global, nodes: &str) -> Result<String, Fail> {
    let Document {
        nodes,
        mut exprs,
        root,
    } = document(alloc, nodes)?;
    let valid = validated(alloc, root, nodes, &exprs, &TwoSame)?;
    // Of the functions it asks whether one streams, and nothing else.
    let Ok((phys, root)) = build_physical_plan(alloc, &valid, &mut exprs, &StreamsAlone) else {
        return Err(Fail::from("no physical plan"));
    };
    let Ok(text) = plan_text(alloc, &phys, root) else {
        return Err(Fail::from("no text"));
    };
    in_one_line(alloc, text.as_str())
}

#[test]
fn plans_are_lowered_as_the_rules_say(rt: HostRuntime) -> Result<(), Fail> {
    let alloc = rt.alloc();
    for case in CASES.trim().lines() {
        let Some((nodes, wanted)) = case.split_once(" -> ") else {
            return Err(Fail::from("a plan without an answer"));
        };
        let given = lowered(alloc, nodes)?;
        assert_eq!(rt; given.as_str(), wanted, "at {nodes}");
    }
    Ok(())
}
