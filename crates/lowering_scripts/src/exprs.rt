//! Expressions as text.

use ps_frame::expr::{AExpr, IRAggExpr, LiteralValue};
use ps_meaning::options::ExprIR;
use pu_base::{Arena, Node, PlSmallStr};
use std::test::Fail;
use valid_plans::fields::name_of;

fn push_literal(value: &LiteralValue, text: &mut String) -> Result<(), Fail> {
    match value {
        LiteralValue::Int64(number) => {
            text.write(*number)?;
            Ok(())
        }
        LiteralValue::IdxSize(number) => {
            text.write(*number)?;
            text.push_str("u")?;
            Ok(())
        }
        LiteralValue::Boolean(value) => {
            text.write(*value)?;
            Ok(())
        }
        LiteralValue::Null(_) | LiteralValue::String(_) => {
            Err(Fail::from("a value of another kind"))
        }
    }
}

fn aggregate(aggregate: IRAggExpr) -> (&'static str, Node) {
    match aggregate {
        IRAggExpr::Min(expr) => ("min", expr),
        IRAggExpr::Max(expr) => ("max", expr),
        IRAggExpr::First(expr) => ("first", expr),
        IRAggExpr::Last(expr) => ("last", expr),
        IRAggExpr::Sum(expr) => ("sum", expr),
        IRAggExpr::NUnique(expr) => ("n_unique", expr),
        IRAggExpr::Count(expr, _) => ("count", expr),
    }
}

/// An expression, with words for what is done and its operands in parentheses.
#[cycle(writing)]
pub fn push_expr(
    arena: &Arena<AExpr>,
    expr: Node,
    depth: usize,
    text: &mut String,
) -> Result<(), Fail> {
    if depth == 0 || expr.0 >= arena.len() {
        return Err(Fail::from("an expression that isn't there"));
    }
    let below = depth - 1;
    match arena.get(expr) {
        AExpr::Column(name) => {
            text.push_str(name.as_str())?;
            Ok(())
        }
        AExpr::Literal(value) => push_literal(value, text),
        AExpr::BinaryExpr { left, op, right } => {
            write!(text, "{op:?}")?;
            push_all(arena, &[*left, *right], below, text)
        }
        AExpr::Cast { expr, .. } => push_call(arena, "cast", &[*expr], below, text),
        AExpr::Sort { expr, .. } => push_call(arena, "sort", &[*expr], below, text),
        AExpr::SortBy { expr, .. } => push_call(arena, "sort_by", &[*expr], below, text),
        AExpr::Gather { expr, idx, .. } => {
            push_call(arena, "gather", &[*expr, *idx], below, text)
        }
        AExpr::Filter { input, by } => push_call(arena, "filter", &[*input, *by], below, text),
        AExpr::Agg(kind) => {
            let (word, operand) = aggregate(*kind);
            push_call(arena, word, &[operand], below, text)
        }
        AExpr::Ternary {
            predicate,
            truthy,
            falsy,
        } => push_call(arena, "if", &[*predicate, *truthy, *falsy], below, text),
        AExpr::Function { input, function } => {
            write!(text, "{function:?}")?;
            push_all(arena, &[*input], below, text)
        }
        AExpr::Slice {
            input,
            offset,
            length,
        } => push_call(arena, "slice", &[*input, *offset, *length], below, text),
        AExpr::Len => {
            text.push_str("len")?;
            Ok(())
        }
        AExpr::LeftOut(_) => Err(Fail::from("an expression that is left out")),
    }
}

#[cycle(writing)]
fn push_call(
    arena: &Arena<AExpr>,
    word: &str,
    exprs: &[Node],
    depth: usize,
    text: &mut String,
) -> Result<(), Fail> {
    text.push_str(word)?;
    push_all(arena, exprs, depth, text)
}

#[cycle(writing)]
fn push_all(
    arena: &Arena<AExpr>,
    exprs: &[Node],
    depth: usize,
    text: &mut String,
) -> Result<(), Fail> {
    let mut separator = "(";
    for expr in exprs {
        text.push_str(separator)?;
        push_expr(arena, *expr, depth, text)?;
        separator = ",";
    }
    text.push_str(")")?;
    Ok(())
}

/// Named expressions, with commas between them.
pub fn push_named(arena: &Arena<AExpr>, exprs: &[ExprIR], text: &mut String) -> Result<(), Fail> {
    let mut separator = "";
    for expr in exprs {
        text.push_str(separator)?;
        text.push_str(name_of(expr).as_str())?;
        text.push_str("=")?;
        push_expr(arena, expr.node, 10, text)?;
        separator = ",";
    }
    Ok(())
}

/// Expressions without their names, with commas between them.
pub fn push_keys(arena: &Arena<AExpr>, keys: &[ExprIR], text: &mut String) -> Result<(), Fail> {
    let mut separator = "";
    for key in keys {
        text.push_str(separator)?;
        push_expr(arena, key.node, 10, text)?;
        separator = ",";
    }
    Ok(())
}

/// Names, with commas between them.
pub fn push_names(names: &[PlSmallStr], text: &mut String) -> Result<(), Fail> {
    let mut separator = "";
    for name in names {
        text.push_str(separator)?;
        text.push_str(name.as_str())?;
        separator = ",";
    }
    Ok(())
}
