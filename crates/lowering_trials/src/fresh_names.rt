// The names that are given beside those of a plan.

use lowering_scripts::documents::{document, spelled, table, valid_plan};
use ps_document::document::Document;
use ps_frame::expr::AExpr;
use ps_fresh::name_source::{NameSource, unique_column_name};
use ps_plan::ir::IR;
use pu_base::{Arena, Node};
use std::alloc::Global;
use std::test::Fail;

// So many names, one after the other, with commas between them.
fn first_names(alloc: Global, mut names: NameSource, count: usize) -> Result<String, Fail> {
    let mut text = String::new(alloc);
    for i in 0..count {
        let Ok(name) = unique_column_name(alloc, &mut names) else {
            return Err(Fail::from("no fresh name"));
        };
        if i > 0 {
            text.push(',')?;
        }
        text.push_str(name.as_str())?;
    }
    Ok(text)
}

fn names_beside(
    alloc: Global,
    root: Node,
    nodes: Arena<IR>,
    exprs: &Arena<AExpr>,
) -> Result<String, Fail> {
    let valid = valid_plan(alloc, root, nodes, exprs)?;
    let Ok(names) = NameSource::new(alloc, &valid, exprs) else {
        return Err(Fail::from("no names"));
    };
    first_names(alloc, names, 3)
}

// The first three names beside those of nodes over a table with these columns; the last node stands under a sink, and
// the one expression is the column a.
fn given(alloc: Global, columns: &str, nodes: &str) -> Result<String, Fail> {
    let table = table(alloc, columns)?;
    let Document { nodes, exprs, root } = document(
        alloc,
        table.as_str(),
        "[\"col\",\"a\"]",
        nodes,
    )?;
    names_beside(alloc, root, nodes, &exprs)
}

// The columns of the table, nodes, and behind `->` the first three names, where `@` stands for `__POLARS_STMP_`.
const CASES: &str = r#"
a,b : ["scan",0,null] -> @0,@1,@2
a,@0 : ["scan",0,null] -> @1,@2,@3
@2,a,@1 : ["scan",0,null] -> @0,@3,@4
a,@1,@0 : ["scan",0,["a"]] -> @2,@3,@4
a,b : ["scan",0,null] ["select",0,[["@1",0]]] -> @0,@2,@3
a,b : ["scan",0,null] ["select",0,[["@0",0]]] ["select",0,[["x",0]]] -> @0,@1,@2
a,@00,@01,@ : ["scan",0,null] -> @0,@1,@2
a,@+0,@-1,@ 2,x@0 : ["scan",0,null] -> @0,@1,@2
a,@18446744073709551615,@18446744073709551616 : ["scan",0,null] -> @0,@1,@2
@7,@5,a,@6,@0,@1,@2,@3,@4,@9 : ["scan",0,null] -> @8,@10,@11
"#;

#[test]
fn no_name_is_given_that_a_plan_uses(rt: HostRuntime) -> Result<(), Fail> {
    let alloc = rt.alloc();
    for line in CASES.trim().lines() {
        let Some((plan, wanted)) = line.split_once(" -> ") else {
            return Err(Fail::from("a case without names"));
        };
        let Some((columns, nodes)) = plan.split_once(" : ") else {
            return Err(Fail::from("a case without nodes"));
        };
        let given = given(alloc, columns, nodes)?;
        let wanted = spelled(alloc, wanted)?;
        assert_eq!(rt; given.as_str(), wanted.as_str(), "at {plan}");
    }
    Ok(())
}
