// Queries, and their physical plans by the call that has the promise.
use kept_planning::plans::plan_query;
use plan_scripts::documents::document;
use plan_scripts::functions::TwoSame;
use ps_document::document::Document;
use ps_frame::refusal::PolarsError;
use ps_phys::text::plan_text;
use std::alloc::Global;
use std::test::Fail;

// The text of the physical plan of these nodes, or none where the plan is refused.
fn planned(alloc: Global, nodes: &str) -> Result<Option<String>, Fail> {
    let Document {
        nodes,
        mut exprs,
        root,
    } = document(alloc, nodes)?;
    match plan_query(alloc, root, nodes, &mut exprs, &TwoSame) {
        Ok((phys, root)) => match plan_text(alloc, &phys, root) {
            Ok(text) => Ok(Some(text)),
            Err(_error) => Err(Fail::from("no text")),
        },
        Err(PolarsError::OutOfMemory) => Err(Fail::from("no memory")),
        Err(_refusal) => Ok(None),
    }
}

#[test]
fn a_valid_query_is_planned(rt: HostRuntime) -> Result<(), Fail> {
    let given = planned(
        rt.alloc(),
        r#"["scan",0,null]; ["filter",0,3]; ["slice",1,1,2]; ["sink",2]"#,
    )?;
    let Some(text) = given else {
        return Err(Fail::from("a valid query is refused"));
    };
    assert_eq!(rt;
        text.as_str(),
        "0 in-memory-source 0 -\n1 filter 1 0.0\n2 slice 2 1.0\n3 in-memory-sink 3 2.0\n"
    );
    Ok(())
}

#[test]
fn a_number_as_predicate_is_refused(rt: HostRuntime) -> Result<(), Fail> {
    let given = planned(rt.alloc(), r#"["scan",0,null]; ["filter",0,2]; ["sink",1]"#)?;
    assert!(rt; given.is_none());
    Ok(())
}
