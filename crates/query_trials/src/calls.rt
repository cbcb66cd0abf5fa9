// Plans with a function below a node that may be refused.
use crate::counting::CountingFunctions;
use plain_queries::gate::NoGate;
use plain_queries::query::{run_query, run_query_serial};
use ps_document::document::{Document, read_document};
use ps_frame::column::Column;
use ps_frame::frame::DataFrame;
use ps_frame::refusal::PolarsResult;
use ps_frame::value::Value;
use ps_options::options::Options;
use std::alloc::{AllocError, Global};
use std::sync::Wait;
use std::test::Fail;
use std::thread::Threads;

const EXPRS: &str = r#"["col","a"],["int",1],["gt",0,1],["left_out","Mean"]"#;

// The plan of a scan of the numbers 1 to 3, the function over it, and the nodes 2 and 3, of which the last is the root.
fn plan(alloc: Global, nodes: &str) -> Result<Document, Fail> {
    let text = format!(in alloc;
        "{{\"tables\":[[[\"a\",\"int\",[1,2,3]]]],\"exprs\":[{EXPRS}],\"nodes\":[[\"scan\",0,null],[\"map\",0,0],{nodes}],\"root\":3}}"
    )?;
    // By hand, for a message of its own.
    match read_document(alloc, text.into_bytes()) {
        Ok(document) => Ok(document),
        Err(_error) => Err(Fail::from("no document")),
    }
}

fn options() -> Result<Options, Fail> {
    match Options::new(2, 1, 1, 0) {
        Some(options) => Ok(options),
        None => Err(Fail::from("no options")),
    }
}

fn push_cell(text: &mut String, column: &Column, row: usize) -> Result<(), AllocError> {
    if row >= column.len() {
        return Ok(());
    }
    match column.value(row) {
        Value::Int64(z) => write!(text, " {z}"),
        _ => text.push_str(" other"),
    }
}

// The numbers of each column behind its name.
fn listed(alloc: Global, df: &DataFrame) -> Result<String, AllocError> {
    let mut text = String::new(alloc);
    for (i, column) in df.get_columns().iter().enumerate() {
        text.push_str(df.schema().name(i).as_str())?;
        for row in 0..column.len() {
            push_cell(&mut text, column, row)?;
        }
    }
    Ok(text)
}

fn shown(alloc: Global, answer: PolarsResult<Option<DataFrame>>) -> Result<String, AllocError> {
    match answer {
        Ok(Some(df)) => listed(alloc, &df),
        Ok(None) => String::from_str(alloc, "no table"),
        Err(error) => format!(in alloc; "{error}"),
    }
}

// What a query answers, and how often its function was called.
fn serial(alloc: Global, nodes: &str) -> Result<String, Fail> {
    let Document {
        nodes,
        mut exprs,
        root,
    } = plan(alloc, nodes)?;
    let functions = CountingFunctions::new();
    let answer = run_query_serial(alloc, root, nodes, &mut exprs, &functions, &options()?);
    let (answer, calls) = (shown(alloc, answer)?, functions.calls());
    Ok(format!(in alloc; "{answer}, {calls} calls")?)
}

fn by_workers<R: Threads + Wait + Sync>(
    rt: &R,
    alloc: Global,
    nodes: &str,
) -> Result<String, Fail> {
    let Document {
        nodes,
        mut exprs,
        root,
    } = plan(alloc, nodes)?;
    let functions = CountingFunctions::new();
    let answer = run_query(
        rt,
        alloc,
        root,
        nodes,
        &mut exprs,
        &functions,
        &NoGate,
        &options()?,
    );
    let (answer, calls) = (shown(alloc, answer)?, functions.calls());
    Ok(format!(in alloc; "{answer}, {calls} calls")?)
}

const CALLS: &str = r#"
["project",1,["z"]],["sink",2] -> ColumnNotFound at 2: z, 0 calls
["filter",1,1],["sink",2] -> SchemaMismatch at 2, 0 calls
["map",1,1],["sink",2] -> InvalidPlan Shape at 2, 0 calls
["cache",1,7],["file_sink",2] -> Unsupported FileSink at 3, 0 calls
["union",[1,2],null],["sink",2] -> InvalidPlan Shape at 2, 0 calls
["select",1,[["a",3]]],["sink",2] -> Unsupported Mean at 2, 0 calls
["sort",1,[],[],[],null],["sink",2] -> InvalidPlan Keys at 2, 0 calls
["hconcat",[0,1]],["sink",2] -> Duplicate at 2: a, 0 calls
["project",1,["a"]],["sink",2] -> a 1 2 3, 1 calls
["filter",1,2],["sink",2] -> a 2 3, 1 calls
["map",1,0],["sink",2] -> a 1 2 3, 2 calls
["cache",1,7],["sink",2] -> a 1 2 3, 1 calls
["union",[1,0],null],["sink",2] -> a 1 2 3 1 2 3, 1 calls
["select",1,[["a",0]]],["sink",2] -> a 1 2 3, 1 calls
["slice",1,1,2],["sink",2] -> a 2 3, 1 calls
["slice",1,-1,2],["sink",2] -> a 3, 1 calls
["hconcat",[1]],["sink",2] -> a 1 2 3, 1 calls
"#;

#[test]
fn no_refused_plan_and_each_node_of_an_answered_one_calls_its_function(
    rt: HostRuntime,
) -> Result<(), Fail> {
    for line in CALLS.trim().lines() {
        let Some((nodes, wanted)) = line.split_once(" -> ") else {
            return Err(Fail::from("nodes without an answer"));
        };
        assert_eq!(rt; serial(rt.alloc(), nodes)?.as_str(), wanted, "at {nodes}");
    }
    Ok(())
}

#[test]
fn workers_call_it_as_often(rt: HostRuntime) -> Result<(), Fail> {
    let alloc = rt.alloc();
    let refused = by_workers(&rt, alloc, r#"["filter",1,1],["sink",2]"#)?;
    assert_eq!(rt; refused.as_str(), "SchemaMismatch at 2, 0 calls");
    let answered = by_workers(&rt, alloc, r#"["filter",1,2],["sink",2]"#)?;
    assert_eq!(rt; answered.as_str(), "a 2 3, 1 calls");
    Ok(())
}
