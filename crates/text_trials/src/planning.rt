// Queries that are built by hand, with the nodes of their plans, or the first name that is no table.
use ps_frame::frame::DataFrame;
use ps_frame::items::Items;
use ps_frame::schema::Schema;
use ps_meaning::options::JoinType;
use ps_plan::ir::IR;
use pu_base::{Arena, Node, PlSmallStr};
use std::alloc::Global;
use std::test::Fail;
use text_plans::query_plan;
use text_queries::query::{Item, Key, Query, Stage, TextExpr};
use text_tokens::error::TextError;

// A query a line, as its table and a word for each stage, and the nodes of its plan over the tables t and u, each with the
// numbers of its inputs. A join's word is the name of its table.
const PLANS: &str = "\
t => scan, sink 0
u filter => scan, filter 0, sink 1
t :u filter => scan, scan, join 0 1, filter 2, sink 3
t :t :u => scan, scan, join 0 1, scan, join 2 3, sink 4
t select with group sort slice distinct => scan, select 0, hstack 1, group 2, sort 3, slice 4, distinct 5, sink 6
u distinct :u distinct => scan, distinct 0, scan, join 1 2, distinct 3, sink 4
v => no table v
v :w => no table v
t :w :v => no table w
t filter :u :v filter => no table v
T => no table T
tt => no table tt";

/// A column.
fn column(alloc: Global) -> Result<TextExpr, TextError> {
    Ok(TextExpr::Name(PlSmallStr::from_static(alloc, "a")?))
}

/// One column under a name.
fn items(alloc: Global) -> Result<Items<Item>, TextError> {
    let mut items = Vec::new(alloc);
    let item = Item {
        name: PlSmallStr::from_static(alloc, "b")?,
        expr: column(alloc)?,
    };
    items.push(item)?;
    Ok(Items::new(items))
}

/// One key.
fn keys(alloc: Global) -> Result<Items<Key>, TextError> {
    let mut keys = Vec::new(alloc);
    let key = Key {
        expr: column(alloc)?,
        desc: true,
    };
    keys.push(key)?;
    Ok(Items::new(keys))
}

/// The stage of a word.
fn stage(alloc: Global, word: &str) -> Result<Stage, TextError> {
    match word {
        "filter" => Ok(Stage::Filter(column(alloc)?)),
        "select" => Ok(Stage::Select(items(alloc)?)),
        "with" => Ok(Stage::With(items(alloc)?)),
        "group" => Ok(Stage::Group {
            keys: items(alloc)?,
            aggs: items(alloc)?,
        }),
        "sort" => Ok(Stage::Sort(keys(alloc)?)),
        "slice" => Ok(Stage::Slice {
            offset: -1,
            length: 2,
        }),
        "distinct" => Ok(Stage::Distinct),
        _ => Ok(Stage::Join {
            how: JoinType::Cross,
            table: PlSmallStr::from_str(alloc, word.strip_prefix(':').unwrap_or(word))?,
            on: Items::new(Vec::new(alloc)),
        }),
    }
}

/// The query of a line.
fn query(alloc: Global, words: &str) -> Result<Query, TextError> {
    let (source, rest) = words.split_once(" ").unwrap_or((words, ""));
    let mut stages = Vec::new(alloc);
    for word in rest.split(" ") {
        if !word.is_empty() {
            stages.push(stage(alloc, word)?)?;
        }
    }
    Ok(Query {
        source: PlSmallStr::from_str(alloc, source)?,
        stages: Items::new(stages),
    })
}

/// A table without columns.
fn empty(alloc: Global) -> Result<DataFrame, TextError> {
    match DataFrame::empty_with_schema(alloc, &Schema::new(alloc)) {
        Ok(table) => Ok(table),
        Err(_error) => Err(TextError::OutOfMemory),
    }
}

/// The root of a query's plan over two empty tables t and u, and its nodes.
fn plan(alloc: Global, query: &Query) -> Result<(Node, Arena<IR>), TextError> {
    let names = [
        PlSmallStr::from_static(alloc, "t")?,
        PlSmallStr::from_static(alloc, "u")?,
    ];
    let mut tables = Vec::new(alloc);
    tables.push(empty(alloc)?)?;
    tables.push(empty(alloc)?)?;
    let (root, nodes, _exprs) = query_plan(alloc, query, &names, tables)?;
    Ok((root, nodes))
}

/// A node by a word, with the numbers of its inputs.
fn shown(alloc: Global, node: &IR) -> Result<String, TextError> {
    let (name, input) = match node {
        IR::DataFrameScan { .. } => return Ok(String::from_str(alloc, "scan")?),
        IR::Join {
            input_left,
            input_right,
            ..
        } => {
            let left = input_left.0;
            let right = input_right.0;
            return Ok(format!(in alloc; "join {left} {right}")?);
        }
        IR::Select { input, .. } => ("select", input.0),
        IR::HStack { input, .. } => ("hstack", input.0),
        IR::Filter { input, .. } => ("filter", input.0),
        IR::Slice { input, .. } => ("slice", input.0),
        IR::Sort { input, .. } => ("sort", input.0),
        IR::GroupBy { input, .. } => ("group", input.0),
        IR::Distinct { input, .. } => ("distinct", input.0),
        IR::Sink { input, .. } => ("sink", input.0),
        _ => ("another", 0),
    };
    Ok(format!(in alloc; "{name} {input}")?)
}

/// The nodes of a plan in order, of which the root is the last.
fn nodes_shown(alloc: Global, root: Node, nodes: &Arena<IR>) -> Result<String, TextError> {
    let mut all = String::new(alloc);
    for number in 0..nodes.len() {
        if number > 0 {
            all.push_str(", ")?;
        }
        let node = shown(alloc, nodes.get(Node(number)))?;
        all.push_str(node.as_str())?;
    }
    if nodes.len().checked_sub(1) != Some(root.0) {
        all.push_str(", and the root isn't the last")?;
    }
    Ok(all)
}

/// The nodes of the plan of a line, or the name that is no table.
fn told(alloc: Global, words: &str) -> Result<String, TextError> {
    match plan(alloc, &query(alloc, words)?) {
        Ok((root, nodes)) => nodes_shown(alloc, root, &nodes),
        Err(TextError::UnknownTable { name }) => {
            let name = name.as_str();
            Ok(format!(in alloc; "no table {name}")?)
        }
        Err(error) => Err(error),
    }
}

/// A query of so many joins.
fn long(alloc: Global, count: usize) -> Result<Query, TextError> {
    let mut stages = Vec::new(alloc);
    for _ in 0..count {
        stages.push(stage(alloc, ":u")?)?;
    }
    Ok(Query {
        source: PlSmallStr::from_static(alloc, "t")?,
        stages: Items::new(stages),
    })
}

#[test]
fn each_stage_is_a_node(rt: HostRuntime) -> Result<(), Fail> {
    for line in PLANS.lines() {
        let (words, wanted) = line.split_once(" => ").unwrap_or((line, ""));
        let found = told(rt.alloc(), words)?;
        assert!(rt; found.as_str() == wanted, "{line}: {found}");
    }
    // A scan, a scan and a join for each stage, and a sink.
    let (root, nodes) = plan(rt.alloc(), &long(rt.alloc(), 3000)?)?;
    assert_eq!(rt; nodes.len(), 6002);
    assert_eq!(rt; root.0, 6001);
    Ok(())
}
