// The kinds of small expressions.
ghost use Rattle.std.specs.Prelude.{IfOk};
ghost use Rattle.ps_frame.specs.Trees.{IsExpression};

use ps_frame::expr::{AExpr, LiteralValue, Operator};
use ps_frame::schema::Schema;
use ps_frame::value::DataType;
use ps_typing::kinds::expr_kind;
use ps_typing::nature::{has_literal_aggregate, is_independent, is_scalar};
use pu_base::{Arena, Node, PlSmallStr};
use std::alloc::Global;
use std::test::Fail;

// The arena of a column's comparison with a literal, and the number of the comparison.
fn comparison(
    alloc: Global,
    column: &str,
    bound: LiteralValue,
) -> Result<(Arena<AExpr>, Node), Fail>
    ensures { IfOk result (λ p. IsExpression p.0.items p.1) }
{
    let mut arena = Arena::new(alloc);
    let name = PlSmallStr::from_str(alloc, column)?;
    let left = arena.add(AExpr::Column(name))?;
    let right = arena.add(AExpr::Literal(bound))?;
    let whole = arena.add(AExpr::BinaryExpr {
        left,
        op: Operator::Gt,
        right,
    })?;
    Ok((arena, whole))
}

// What is answered of the comparison at node 1, over a table with the whole numbers a.
fn answer(alloc: Global, column: &str, bound: LiteralValue) -> Result<String, Fail> {
    let mut schema = Schema::new(alloc);
    schema.push(alloc, PlSmallStr::from_str(alloc, "a")?, DataType::Int64)?;
    let (arena, whole) = comparison(alloc, column, bound)?;
    match expr_kind(alloc, Node(1), whole, &arena, &schema) {
        Ok(dtype) => Ok(format!(in alloc; "{dtype:?}")?),
        Err(error) => Ok(format!(in alloc; "{error}")?),
    }
}

// Whether the comparison is scalar, is independent of its input, and holds a literal aggregate.
fn nature_of_comparison(alloc: Global) -> Result<(bool, bool, bool), Fail> {
    let (arena, whole) = comparison(alloc, "a", LiteralValue::Int64(1))?;
    Ok((
        is_scalar(whole, &arena),
        is_independent(whole, &arena),
        has_literal_aggregate(whole, &arena),
    ))
}

#[test]
fn a_comparison_is_a_truth_value_or_refused(rt: HostRuntime) -> Result<(), Fail> {
    let alloc = rt.alloc();
    for (column, is_of_truth, wanted) in [
        ("a", false, "Boolean"),
        ("z", false, "ColumnNotFound at 1: z"),
        ("a", true, "SchemaMismatch at 1"),
    ] {
        let bound = if is_of_truth {
            LiteralValue::Boolean(true)
        } else {
            LiteralValue::Int64(1)
        };
        assert_eq!(rt; answer(alloc, column, bound)?.as_str(), wanted);
    }
    Ok(())
}

#[test]
fn a_comparison_of_a_column_is_not_scalar(rt: HostRuntime) -> Result<(), Fail> {
    let nature = nature_of_comparison(rt.alloc())?;
    assert_eq!(rt; nature, (false, false, false));
    Ok(())
}
