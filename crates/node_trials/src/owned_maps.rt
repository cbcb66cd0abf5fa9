//! Maps with expressions of their own, and what they give.
ghost use Rattle.std.specs.Prelude.{◌≡◌, ◌<◌, IfOk};
ghost use Rattle.ps_frame.specs.Tables.{Frame};
ghost use Rattle.ps_meaning.specs.declared.map.MapKind.{MapKind};
ghost use Rattle.node_trials.specs.MapsTested.{tested_entry, tested_nodes};

use crate::lines::lines;
use ps_copies::try_clone::TryClone;
use ps_frame::column::Column;
use ps_frame::expr::{AExpr, IRAggExpr};
use ps_frame::frame::DataFrame;
use ps_frame::functions::{CallError, Functions};
use ps_frame::items::Items;
use ps_frame::schema::Schema;
use ps_frame::value::{DataType, Value};
use ps_meaning::map::MapKind;
use ps_meaning::options::{
    DistinctOptions, ExprIR, FunctionIR, GroupbyOptions, JoinArgs, JoinType, JoinValidation,
    OutputName, SinkType, SortMultipleOptions, UniqueKeepStrategy,
};
use ps_node_eval::node::evaluate_node;
use ps_owned_maps::owned::OwnedMap;
use ps_plan::ir::IR;
use ps_validate::validate::validate;
use pu_base::{Arena, Node, PlSmallStr, Steps};
use std::alloc::Global;
use std::marker::Brand;
use std::sync::ledger::{Blank, Ledger};
use std::test::Fail;

/// One function, which answers the first row of a table, and so doesn't stream.
pub struct FirstRow;

impl Functions for FirstRow {
    ghost use Rattle.std.specs.Prelude.{Option, Some, option_map, false, refl};
    ghost use Rattle.std.proofs.Common.{ap, subst};
    ghost use Rattle.std.proofs.lemmas.Bool.{false≢true};
    ghost use Rattle.std.proofs.lemmas.Option.{same_Some};
    ghost use Rattle.ps_frame.specs.Lawful.{FitsFrame};
    ghost use Rattle.ps_frame.specs.Tables.{Frame};
    ghost use Rattle.node_trials.specs.MapsTested.{first_fits, first_row};

    ghost told = { λ _. record { count = 1; streams = λ n. false; answer = λ n f. Some (first_row f); declared = λ n s. Some s } };

    fn count(&self) -> usize {
        1
    }

    fn streamable(&self, _n: usize) -> bool {
        false
    }

    fn schema(&self, alloc: Global, _n: usize, given: &Schema) -> Result<Schema, CallError> {
        // By hand, since the error is another.
        match given.try_clone(alloc) {
            Ok(schema) => Ok(schema),
            Err(_) => Err(CallError::OutOfMemory),
        }
    }

    fn call(&self, alloc: Global, _n: usize, df: DataFrame) -> Result<DataFrame, CallError> {
        // By hand, as above.
        match df.slice(alloc, 0, 1) {
            Ok(row) => Ok(row),
            Err(_) => Err(CallError::OutOfMemory),
        }
    }

    ghost lawful = { λ _. record {
      keeps_schema = λ n f g e. ap (λ (o : Option Frame). option_map (λ (t : Frame). t.schema) o) e;
      keeps_rows = λ n f g fits e. subst (λ (t : Frame). FitsFrame t) (same_Some (first_row f) g e) (first_fits _ f.rows fits);
      streams_empty = λ n s streams declared. absurd (false≢true streams);
      streams_parts = λ n f g streams same. absurd (false≢true streams);
    } };

    ghost fixed = { λ _ _. record { streams = refl; answer = refl; declared = refl } };
}

// The column a, of 3, null, 1 and 3.
fn table(alloc: Global) -> Result<DataFrame, Fail> {
    let mut schema = Schema::new(alloc);
    schema.push(alloc, PlSmallStr::from_str(alloc, "a")?, DataType::Int64)?;
    let values = vec![in alloc;
        Value::Int64(3),
        Value::Null,
        Value::Int64(1),
        Value::Int64(3),
    ]?;
    let columns = vec![in alloc; Column::new(alloc, DataType::Int64, values)?]?;
    Ok(DataFrame::new(alloc, schema, columns)?)
}

// The column a, and its sum.
fn exprs(alloc: Global) -> Result<Arena<AExpr>, Fail> {
    let mut exprs = Arena::new(alloc);
    exprs.add(AExpr::Column(PlSmallStr::from_str(alloc, "a")?))?;
    exprs.add(AExpr::Agg(IRAggExpr::Sum(Node(0))))?;
    Ok(exprs)
}

fn named(alloc: Global, node: usize, name: &str) -> Result<Items<ExprIR>, Fail> {
    let output_name = OutputName::Alias(PlSmallStr::from_str(alloc, name)?);
    let node = Node(node);
    Ok(Items::new(vec![in alloc; ExprIR { node, output_name }]?))
}

// The rows from the greatest a down, and null last; a slice of these.
fn sort(alloc: Global, slice: Option<(i64, usize)>) -> Result<MapKind, Fail> {
    Ok(MapKind::Sort {
        by_column: named(alloc, 0, "a")?,
        slice,
        sort_options: SortMultipleOptions {
            descending: Items::new(vec![in alloc; true]?),
            nulls_last: Items::new(vec![in alloc; true]?),
        },
    })
}

// The sum of each a.
fn group_by(alloc: Global) -> Result<MapKind, Fail> {
    Ok(MapKind::GroupBy {
        keys: named(alloc, 0, "a")?,
        aggs: named(alloc, 1, "x")?,
        maintain_order: true,
        slice: None,
    })
}

// The first row of each a.
fn distinct() -> MapKind {
    MapKind::Distinct(DistinctOptions {
        subset: None,
        maintain_order: true,
        keep_strategy: UniqueKeepStrategy::First,
        slice: None,
    })
}

fn kind(alloc: Global, name: &str) -> Result<MapKind, Fail> {
    match name {
        "function" => Ok(MapKind::Function(0)),
        "select" => Ok(MapKind::Select(named(alloc, 1, "x")?)),
        "sort" => sort(alloc, None),
        "sliced sort" => sort(alloc, Some((-3, 2))),
        "group_by" => group_by(alloc),
        "distinct" => Ok(distinct()),
        _ => Err(Fail::from("no map")),
    }
}

// The node that does the same to the first node's table.
fn entry(kind: MapKind) -> IR
    ensures { result ≡ tested_entry kind }
{
    let input = Node(0);
    match kind {
        MapKind::Function(n) => IR::MapFunction {
            input,
            function: FunctionIR::User(n),
        },
        MapKind::Select(expr) => IR::Select { input, expr },
        MapKind::Sort {
            by_column,
            slice,
            sort_options,
        } => IR::Sort {
            input,
            by_column,
            slice,
            sort_options,
        },
        MapKind::GroupBy {
            keys,
            aggs,
            maintain_order,
            slice,
        } => IR::GroupBy {
            input,
            keys,
            aggs,
            maintain_order,
            options: GroupbyOptions { slice },
        },
        MapKind::Distinct(options) => IR::Distinct { input, options },
    }
}

// A scan, the node of that kind and a sink.
fn plan(alloc: Global, df: DataFrame, kind: MapKind) -> Result<Arena<IR>, Fail>
    ensures { IfOk result (λ nodes. nodes.items ≡ tested_nodes df kind) }
{
    let mut nodes = Arena::new(alloc);
    nodes.add(IR::DataFrameScan {
        df,
        projection: None,
    })?;
    nodes.add(entry(kind))?;
    nodes.add(IR::Sink {
        input: Node(1),
        payload: SinkType::Memory,
    })?;
    Ok(nodes)
}

// What a map of the kind of a plan's second node gives over the first one's table.
fn map_table<F: Functions, L: Ledger>(
    blank: Blank,
    alloc: Global,
    nodes: Arena<IR>,
    kind: &MapKind,
    exprs: &Arena<AExpr>,
    functions: &F,
) -> Result<DataFrame, Fail>
    requires name { blank.name ≡ L.name }
    requires parts { blank.parts ≡ L.parts }
    requires some { 0 < L.parts }
    requires nodes { (df : Frame) × (nodes.items ≡ tested_nodes df kind.now) }
{
    let mut steps = Steps::<L>::new(blank);
    let valid = validate(alloc, Node(2), nodes, exprs, functions, &mut steps)?;
    let none = Vec::new(alloc);
    let scanned = evaluate_node(alloc, Node(0), &valid, exprs, functions, none.as_slice())?;
    let map = OwnedMap::new(alloc, kind, exprs)?;
    Ok(map.call(alloc, Node(1), functions, scanned)?)
}

// What the map of a kind gives, where a node of that kind stands in a valid plan.
fn mapped(alloc: Global, kind: &MapKind) -> Result<DataFrame, Fail> {
    let nodes = plan(alloc, table(alloc)?, kind.try_clone(alloc)?)?;
    let exprs = exprs(alloc)?;
    map_table::<FirstRow, Brand>(Blank::new(1), alloc, nodes, kind, &exprs, &FirstRow)
}

// Each kind of map, and the lines of its table, with `/` between them.
const MAPS: &str = "function -> a/3
select -> x/7
sort -> a/3/3/1/
sliced sort -> a/3/1
group_by -> a,x/3,6/,0/1,1
distinct -> a/3//1";

#[test]
fn maps_give_what_their_nodes_do(rt: HostRuntime) -> Result<(), Fail> {
    let alloc = rt.alloc();
    for line in MAPS.lines() {
        let Some((name, wanted)) = line.split_once(" -> ") else {
            return Err(Fail::from("a map without an answer"));
        };
        let df = mapped(alloc, &kind(alloc, name)?)?;
        assert_eq!(rt; lines(alloc, &df)?.as_str(), wanted, "of {name}");
    }
    Ok(())
}

#[test]
fn how_tables_are_joined_is_copied(rt: HostRuntime) -> Result<(), Fail> {
    let alloc = rt.alloc();
    let args = JoinArgs {
        how: JoinType::Full,
        suffix: Some(PlSmallStr::from_str(alloc, "_other")?),
        join_nulls: true,
        validation: JoinValidation::OneToOne,
        slice: Some((-2, 5)),
    };
    let copy = args.try_clone(alloc)?;
    assert_eq!(rt; copy.how, JoinType::Full);
    assert!(rt; copy.suffix.is_some_and(|suffix| suffix.eq_str("_other")));
    assert!(rt; copy.join_nulls);
    assert_eq!(rt; copy.validation, JoinValidation::OneToOne);
    assert_eq!(rt; copy.slice, Some((-2, 5)));
    Ok(())
}
