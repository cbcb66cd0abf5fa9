//! Schemas, expressions and lists, as words.
use ps_frame::expr::{AExpr, FunctionExpr, IRAggExpr, LiteralValue, Operator};
use ps_frame::items::Items;
use ps_frame::schema::Schema;
use ps_frame::value::DataType;
use ps_meaning::options::{ExprIR, OutputName};
use pu_base::{Arena, Node, PlSmallStr};
use std::alloc::Global;
use std::test::Fail;

/// A name of these letters.
pub fn name(alloc: Global, text: &str) -> Result<PlSmallStr, Fail> {
    match PlSmallStr::from_str(alloc, text) {
        Ok(name) => Ok(name),
        Err(_error) => Err(Fail::from("no name")),
    }
}

/// The number of these digits.
pub fn number(text: &str) -> Result<usize, Fail> {
    match text.parse::<usize>() {
        Ok(number) => Ok(number),
        Err(_error) => Err(Fail::from("no number")),
    }
}

/// What stands before and behind a mark.
pub fn parts<'a>(text: &'a str, mark: &str) -> Result<(&'a str, &'a str), Fail> {
    match text.split_once(mark) {
        Some(parts) => Ok(parts),
        None => Err(Fail::from("one part in place of two")),
    }
}

fn data_type(word: &str) -> Result<DataType, Fail> {
    match word {
        "int" => Ok(DataType::Int64),
        "bool" => Ok(DataType::Boolean),
        "idx" => Ok(DataType::IdxSize),
        _ => Err(Fail::from("no kind of a column")),
    }
}

fn push_field(alloc: Global, schema: &mut Schema, text: &str) -> Result<(), Fail> {
    let (field, kind) = match text.split_once(":") {
        Some(parts) => parts,
        None => (text, "int"),
    };
    let kind = data_type(kind)?;
    match schema.push(alloc, name(alloc, field)?, kind) {
        Ok(()) => Ok(()),
        Err(_error) => Err(Fail::from("no field")),
    }
}

/// The schema of a text as `a,b:bool`, in which a kind that isn't told is int; `-` has no field.
pub fn schema(alloc: Global, text: &str) -> Result<Schema, Fail> {
    let mut schema = Schema::new(alloc);
    if text == "-" {
        return Ok(schema);
    }
    for field in text.split(",") {
        push_field(alloc, &mut schema, field)?;
    }
    Ok(schema)
}

/// An expression by its number, without a name.
pub fn key(alloc: Global, text: &str) -> Result<ExprIR, Fail> {
    Ok(ExprIR {
        node: Node(number(text)?),
        output_name: OutputName::ColumnLhs(PlSmallStr::empty(alloc)),
    })
}

// An expression with a name, as `a=0`.
fn named(alloc: Global, text: &str) -> Result<ExprIR, Fail> {
    let (alias, expr) = parts(text, "=")?;
    Ok(ExprIR {
        node: Node(number(expr)?),
        output_name: OutputName::Alias(name(alloc, alias)?),
    })
}

/// Expressions of a text as `0,1` or `a=0,b=1`; `-` has none.
pub fn exprs(alloc: Global, text: &str) -> Result<Items<ExprIR>, Fail> {
    let mut exprs = Vec::new(alloc);
    if text == "-" {
        return Ok(Items::new(exprs));
    }
    for part in text.split(",") {
        let expr = if part.contains("=") {
            named(alloc, part)?
        } else {
            key(alloc, part)?
        };
        exprs.push(expr)?;
    }
    Ok(Items::new(exprs))
}

/// Names of a text as `a,b`; `-` has none.
pub fn names(alloc: Global, text: &str) -> Result<Items<PlSmallStr>, Fail> {
    let mut names = Vec::new(alloc);
    if text == "-" {
        return Ok(Items::new(names));
    }
    for part in text.split(",") {
        names.push(name(alloc, part)?)?;
    }
    Ok(Items::new(names))
}

/// So many flags that don't hold.
pub fn flags(alloc: Global, count: &str) -> Result<Items<bool>, Fail> {
    let mut flags = Vec::new(alloc);
    for _ in 0..number(count)? {
        flags.push(false)?;
    }
    Ok(Items::new(flags))
}

// The entry of an expression, as its word and what is behind it.
fn entry(alloc: Global, word: &str, rest: &str) -> Result<AExpr, Fail> {
    match word {
        "col" => Ok(AExpr::Column(name(alloc, rest)?)),
        "int" => Ok(AExpr::Literal(LiteralValue::Int64(1))),
        "len" => Ok(AExpr::Len),
        "sum" => Ok(AExpr::Agg(IRAggExpr::Sum(Node(number(rest)?)))),
        "n_unique" => Ok(AExpr::Agg(IRAggExpr::NUnique(Node(number(rest)?)))),
        "reverse" => Ok(AExpr::Function {
            input: Node(number(rest)?),
            function: FunctionExpr::Reverse,
        }),
        "gt" => {
            let (left, right) = parts(rest, " ")?;
            Ok(AExpr::BinaryExpr {
                left: Node(number(left)?),
                op: Operator::Gt,
                right: Node(number(right)?),
            })
        }
        _ => Err(Fail::from("no word of an expression")),
    }
}

/// The expressions of a text as `col a; gt 0 0`, numbered from 0 on.
pub fn arena(alloc: Global, text: &str) -> Result<Arena<AExpr>, Fail> {
    let mut arena = Arena::new(alloc);
    for part in text.split("; ") {
        let (word, rest) = parts(part, " ")?;
        let Ok(_number) = arena.add(entry(alloc, word, rest)?) else {
            return Err(Fail::from("no room for an expression"));
        };
    }
    Ok(arena)
}
