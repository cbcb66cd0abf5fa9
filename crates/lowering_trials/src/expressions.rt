// What the planner asks of expressions: whether they read their input, and the schema of a list of them.
ghost use Rattle.std.specs.Prelude.{◌≡◌, ◌<◌, IfOk};
ghost use Rattle.ps_fresh.specs.Known.{Remembers};
ghost use Rattle.lowering_trials.specs.Entries.{trial_entries, trial_exprs, trial_schema};

use ps_frame::error::FrameError;
use ps_frame::expr::{AExpr, FunctionExpr, IRAggExpr, LiteralValue, Operator};
use ps_frame::schema::Schema;
use ps_frame::value::DataType;
use ps_fresh::expr_cache::{ExprCache, is_input_independent};
use ps_fresh::schemas::compute_output_schema;
use ps_meaning::options::{ExprIR, OutputName};
use pu_base::{Arena, Node, PlSmallStr, PolarsUtilsError};
use std::alloc::Global;
use std::test::Fail;

fn expressions(alloc: Global) -> Result<Arena<AExpr>, PolarsUtilsError>
    ensures { IfOk result (λ arena. arena.items ≡ trial_entries) }
{
    let mut arena = Arena::new(alloc);
    let a = arena.add(AExpr::Column(PlSmallStr::from_str(alloc, "a")?))?;
    let one = arena.add(AExpr::Literal(LiteralValue::Int64(1)))?;
    arena.add(AExpr::Len)?;
    arena.add(AExpr::Cast {
        expr: one,
        dtype: DataType::String,
        strict: false,
    })?;
    let two = arena.add(AExpr::BinaryExpr {
        left: one,
        op: Operator::Plus,
        right: one,
    })?;
    let equal = arena.add(AExpr::BinaryExpr {
        left: one,
        op: Operator::Eq,
        right: a,
    })?;
    arena.add(AExpr::Agg(IRAggExpr::Sum(a)))?;
    arena.add(AExpr::Ternary {
        predicate: equal,
        truthy: one,
        falsy: two,
    })?;
    let reversed = arena.add(AExpr::Function {
        input: two,
        function: FunctionExpr::Reverse,
    })?;
    arena.add(AExpr::Agg(IRAggExpr::NUnique(reversed)))?;
    Ok(arena)
}

// Whether the expression of a number reads no input, after what is known.
fn is_independent(
    alloc: Global,
    number: usize,
    arena: &Arena<AExpr>,
    cache: &mut ExprCache,
) -> Result<bool, Fail>
    requires entries { arena.now.items ≡ trial_entries }
    requires number { number < 10 }
    requires cache { Remembers arena.now.items cache.old }
    ensures cache { Remembers arena.now.items cache.new }
{
    match is_input_independent(alloc, Node(number), arena, cache) {
        Ok(is) => Ok(is),
        Err(_) => Err(Fail::from("no answer")),
    }
}

// The numbers, from the first or from the last, of the expressions that read no input; each is asked twice.
fn independent(alloc: Global, from_the_last: bool) -> Result<String, Fail> {
    let arena = expressions(alloc)?;
    let Ok(mut cache) = ExprCache::with_capacity(alloc, 0) else {
        return Err(Fail::from("no cache"));
    };
    let mut text = String::new(alloc);
    for i in 0..10 {
        let number = if from_the_last { 9 - i } else { i };
        let first = is_independent(alloc, number, &arena, &mut cache)?;
        let second = is_independent(alloc, number, &arena, &mut cache)?;
        if first != second {
            return Err(Fail::from("another answer for the same expression"));
        }
        if first {
            write!(text, "{number} ")?;
        }
    }
    Ok(text)
}

#[test]
fn an_expression_without_columns_and_height_reads_no_input(rt: HostRuntime) -> Result<(), Fail> {
    assert_eq!(rt; independent(rt.alloc(), false)?.as_str(), "1 3 4 8 9 ");
    assert_eq!(rt; independent(rt.alloc(), true)?.as_str(), "9 8 4 3 1 ");
    Ok(())
}

fn name(alloc: Global, text: &str) -> Result<PlSmallStr, FrameError>
    ensures { IfOk result (λ name. name ≡ text.now) }
{
    match PlSmallStr::from_str(alloc, text) {
        Ok(name) => Ok(name),
        Err(_) => Err(FrameError::OutOfMemory),
    }
}

fn schema(alloc: Global) -> Result<Schema, FrameError>
    ensures { IfOk result (λ schema. schema ≡ trial_schema) }
{
    let mut schema = Schema::new(alloc);
    schema.push(alloc, name(alloc, "a")?, DataType::Int64)?;
    Ok(schema)
}

// A sum under the name of a column, the height, a column, a text, and a comparison by its left column's name.
fn named(alloc: Global) -> Result<Vec<ExprIR>, FrameError>
    ensures { IfOk result (λ exprs. exprs.items ≡ trial_exprs) }
{
    let mut exprs = Vec::new(alloc);
    exprs.push(ExprIR {
        node: Node(6),
        output_name: OutputName::Alias(name(alloc, "a")?),
    })?;
    exprs.push(ExprIR {
        node: Node(2),
        output_name: OutputName::Alias(name(alloc, "len")?),
    })?;
    exprs.push(ExprIR {
        node: Node(0),
        output_name: OutputName::Alias(name(alloc, "b")?),
    })?;
    exprs.push(ExprIR {
        node: Node(3),
        output_name: OutputName::Alias(name(alloc, "")?),
    })?;
    exprs.push(ExprIR {
        node: Node(5),
        output_name: OutputName::ColumnLhs(name(alloc, "c")?),
    })?;
    Ok(exprs)
}

// The names and kinds of the schema of named expressions.
fn schema_of(
    alloc: Global,
    input: &Schema,
    exprs: &Vec<ExprIR>,
    arena: &Arena<AExpr>,
) -> Result<String, Fail>
    requires entries { arena.now.items ≡ trial_entries }
    requires named { exprs.now.items ≡ trial_exprs }
    requires schema { input.now ≡ trial_schema }
{
    match compute_output_schema(alloc, input, exprs.as_slice(), arena) {
        Ok(schema) => told(alloc, &schema),
        Err(_) => Err(Fail::from("no schema")),
    }
}

fn told(alloc: Global, schema: &Schema) -> Result<String, Fail> {
    let mut text = String::new(alloc);
    for i in 0..schema.len() {
        write!(text, "{}:{:?} ", schema.name(i).as_str(), schema.kind(i))?;
    }
    Ok(text)
}

#[test]
fn a_list_of_expressions_has_a_schema(rt: HostRuntime) -> Result<(), Fail> {
    let alloc = rt.alloc();
    let arena = expressions(alloc)?;
    let input = schema(alloc)?;
    let exprs = named(alloc)?;
    let told = schema_of(alloc, &input, &exprs, &arena)?;
    assert_eq!(rt;
        told.as_str(),
        "a:Int64 len:IdxSize b:Int64 :String c:Boolean "
    );
    Ok(())
}
