// Nodes that are timed, over whole tables.
ghost use Rattle.std.specs.Prelude.{◌≡◌, ◌<◌};
ghost use Rattle.valid_plans.specs.Valid.{IsValidWith};

use crate::table::{Summary, keyed, make, summarize};
use anyhow::{Result, bail};
use node_trials::functions::Same;
use node_trials::tables::node_table;
use ps_document::document::{Document, read_document};
use ps_frame::expr::AExpr;
use ps_frame::frame::DataFrame;
use ps_frame::functions::Functions;
use ps_frame::refusal::PolarsResult;
use ps_plan::ir::IR;
use ps_validate::validate::validate;
use pu_base::{Arena, Node, Steps};
use std::alloc::Global;
use std::marker::Brand;
use std::sync::ledger::{Blank, Ledger};
use valid_plans::valid::Valid;

// The tables of a document, without rows: the rows come once it is read.
const TABLES: &str =
    r#"[["few","int",[]],["many","int",[]],["key","int",[]],["value","int",[]],["text","str",[]]],[["key","int",[]],["other","int",[]]]"#;

/// A node of a document, and the expressions that it names.
#[derive(Clone, Copy)]
pub struct NodeWork {
    exprs: &'static str,
    node: &'static str,
}

impl NodeWork {
    /// The work of a word: groups by 7 and by 100,000 keys with a sum and a count, the rows that differ in two columns, the
    /// join with a table of 10,000 keys, and the rows sorted by two keys.
    pub fn of_word(word: &str) -> Option<NodeWork> {
        match word {
            "group_by_7" => Some(NodeWork {
                exprs: r#"["col","few"],["col","value"],["sum",1],["count",1,true]"#,
                node: r#"["group_by",0,[["few",0]],[["sum",2],["count",3]],false,null]"#,
            }),
            "group_by_100000" => Some(NodeWork {
                exprs: r#"["col","many"],["col","value"],["sum",1],["count",1,true]"#,
                node: r#"["group_by",0,[["many",0]],[["sum",2],["count",3]],false,null]"#,
            }),
            "distinct" => Some(NodeWork {
                exprs: "",
                node: r#"["distinct",0,["few","key"],false,"any",null]"#,
            }),
            "join" => Some(NodeWork {
                exprs: r#"["col","key"]"#,
                node: r#"["join",0,1,"inner",[0],[0],null,false,"m:m",null]"#,
            }),
            "sort" => Some(NodeWork {
                exprs: r#"["col","few"],["col","value"]"#,
                node: r#"["sort",0,[0,1],[false,true],[false],null]"#,
            }),
            _ => None,
        }
    }
}

// The plan of a node over scans of two tables, under a sink.
fn plan(alloc: Global, work: NodeWork, left: DataFrame, right: DataFrame) -> Result<Document> {
    let NodeWork { exprs, node } = work;
    let text = format!(in alloc;
        "{{\"tables\":[{TABLES}],\"exprs\":[{exprs}],\"nodes\":[[\"scan\",0,null],[\"scan\",1,null],{node},[\"sink\",2]],\"root\":3}}"
    )?;
    let Ok(mut document) = read_document(alloc, text.into_bytes()) else {
        bail!("no document");
    };
    if document.nodes.len() < 2 {
        bail!("no scans");
    }
    document.nodes.replace(Node(0), scan(left));
    document.nodes.replace(Node(1), scan(right));
    Ok(document)
}

fn scan(df: DataFrame) -> IR {
    IR::DataFrameScan {
        df,
        projection: None,
    }
}

// The table of the root.
fn once<F: Functions>(
    alloc: Global,
    valid: &Valid,
    exprs: &Arena<AExpr>,
    functions: &F,
) -> PolarsResult<DataFrame>
    requires { IsValidWith (F.told functions.now) valid.now exprs.now.items }
{
    node_table(alloc, valid.root(), valid, exprs, functions, 4)
}

fn repeat_valid<F: Functions>(
    alloc: Global,
    valid: &Valid,
    exprs: &Arena<AExpr>,
    functions: &F,
    times: u32,
) -> PolarsResult<DataFrame>
    requires { IsValidWith (F.told functions.now) valid.now exprs.now.items }
{
    let mut last = once(alloc, valid, exprs, functions)?;
    for _ in 1..times {
        last = once(alloc, valid, exprs, functions)?;
    }
    Ok(last)
}

fn repeat_plan<L: Ledger>(
    blank: Blank,
    alloc: Global,
    document: Document,
    times: u32,
) -> PolarsResult<DataFrame>
    requires name { blank.name ≡ L.name }
    requires parts { blank.parts ≡ L.parts }
    requires some { 0 < L.parts }
{
    let Document { nodes, exprs, root } = document;
    let mut steps = Steps::<L>::new(blank);
    let valid = validate(alloc, root, nodes, &exprs, &Same, &mut steps)?;
    repeat_valid(alloc, &valid, &exprs, &Same, times)
}

/// Computes the node so many times, but at least once, and tells of the last table. It fails only for want of memory.
pub fn repeat(alloc: Global, work: NodeWork, rows: u32, times: u32) -> Result<Summary> {
    let document = plan(alloc, work, make(alloc, rows)?, keyed(alloc)?)?;
    let last = repeat_plan::<Brand>(Blank::new(1), alloc, document, times)?;
    Ok(summarize(&last))
}
