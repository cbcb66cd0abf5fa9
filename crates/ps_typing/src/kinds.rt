// The kind of an expression over a schema.
ghost use Rattle.std.specs.Prelude.{◌≡◌, ◌≢◌, ◌<◌, ◌≤◌, ◌+◌, ◌++◌, ◌&&◌, IfErr, IfOk, IsTrue, None, Some};
ghost use Rattle.ps_frame.specs.Parts.{tree_parts};
ghost use Rattle.ps_frame.specs.Trees.{AreComplete, IsExpression, tree_at, tree_size, trees_of, trees_size};
ghost use Rattle.ps_frame.specs.Typing.{are_scalar, have_kinds, is_scalar, kind_over};
ghost use Rattle.ps_frame.specs.Values.{same_kind};
ghost use Rattle.ps_frame.specs.declared.value.DataType.TheVariants as kind;
ghost use Rattle.ps_typing.specs.Refused.{IsErrorAmong, IsTypingError, IsTypingErrorOfAny};

use crate::rules::{
    aggregate_kind, aggregated, binary_kind, cast_kind, column_kind, function_kind, have_keys,
    is_number, literal_kind,
};
use ps_frame::expr::{AExpr, entry};
use ps_frame::laws::kinds_are_exact;
use ps_frame::refusal::{PolarsError, PolarsResult};
use ps_frame::schema::Schema;
use ps_frame::value::DataType;
use pu_base::{Arena, Node, Steps};
use std::alloc::Global;
use std::marker::Brand;
use std::sync::ledger::{Blank, Ledger};

/// The kind of an expression over a schema.
///
/// `at` is the node that an error names. Refused where some part of the expression reads a column that the schema
/// lacks, breaks a typing rule, or is left out; any one of these may be answered. Else it fails only for want of
/// memory. So it gives a kind exactly where there is one, but for want of memory.
pub fn expr_kind(
    alloc: Global,
    at: Node,
    expr: Node,
    arena: &Arena<AExpr>,
    schema: &Schema,
) -> PolarsResult<DataType>
    requires { IsExpression arena.now.items expr }
    ensures kind { IfOk result (λ k. kind_over schema.now (tree_at arena.now.items expr) ≡ Some k) }
    ensures refused { IfErr result (IsTypingError at schema.now (tree_at arena.now.items expr)) }
    ensures exact { IfErr result (λ e. e ≢ PolarsError.OutOfMemory → kind_over schema.now (tree_at arena.now.items expr) ≡ None) }
{
    kinds_are_exact();
    uncounted_kind::<Brand>(alloc, at, expr, arena, schema, Blank::new(1))
}

fn uncounted_kind<L: Ledger>(
    alloc: Global,
    at: Node,
    expr: Node,
    arena: &Arena<AExpr>,
    schema: &Schema,
    blank: Blank,
) -> PolarsResult<DataType>
    requires expression { IsExpression arena.now.items expr }
    requires name { blank.name ≡ L.name }
    requires parts { blank.parts ≡ L.parts }
    requires some { 0 < L.parts }
    ensures kind { IfOk result (λ k. kind_over schema.now (tree_at arena.now.items expr) ≡ Some k) }
    ensures refused { IfErr result (IsTypingError at schema.now (tree_at arena.now.items expr)) }
{
    let mut steps = Steps::<L>::new(blank);
    let typed = type_expr(alloc, at, expr, arena, schema, &mut steps)?;
    Ok(typed.dtype)
}

/// The kind of an expression, and whether it gives one cell, whatever the table.
#[derive(Clone, Copy, Debug, PartialEq, Eq)]
pub struct TypedExpr {
    pub dtype: DataType,
    pub is_scalar: bool,
}

/// The kind of an expression over a schema, and whether the expression is scalar.
///
/// `at` is the node that an error names. An error comes where some part of the expression reads a column that the
/// schema lacks, breaks a typing rule, or is left out; any one of these may be answered. Else it is want of memory.
/// It takes a step for each expression that it looks at.
#[cycle(typing)]
pub fn type_expr<L: Ledger>(
    alloc: Global,
    at: Node,
    expr: Node,
    arena: &Arena<AExpr>,
    schema: &Schema,
    steps: &mut Steps<L>,
) -> PolarsResult<TypedExpr>
    requires { IsExpression arena.now.items expr }
    ensures kind { IfOk result (λ t. kind_over schema.now (tree_at arena.now.items expr) ≡ Some t.dtype) }
    ensures scalar { IfOk result (λ t. t.is_scalar ≡ is_scalar (tree_at arena.now.items expr)) }
    ensures refused { IfErr result (IsTypingError at schema.now (tree_at arena.now.items expr)) }
    ensures steps { steps.new ≤ steps.old + tree_size (tree_at arena.now.items expr) }
{
    steps.tick();
    match entry(expr, arena) {
        AExpr::Column(name) => {
            let dtype = column_kind(alloc, at, name, schema)?;
            Ok(TypedExpr {
                dtype,
                is_scalar: false,
            })
        }
        AExpr::Literal(literal) => Ok(TypedExpr {
            dtype: literal_kind(literal),
            is_scalar: true,
        }),
        AExpr::BinaryExpr { left, op, right } => {
            let (left, right) = type_two(alloc, at, *left, *right, arena, schema, steps)?;
            let Some(dtype) = binary_kind(*op, left.dtype, right.dtype) else {
                return Err(PolarsError::SchemaMismatch { node: at });
            };
            Ok(TypedExpr {
                dtype,
                is_scalar: left.is_scalar && right.is_scalar,
            })
        }
        AExpr::Cast { expr, dtype, .. } => {
            let from = type_expr(alloc, at, *expr, arena, schema, steps)?;
            let Some(dtype) = cast_kind(*dtype, from.dtype) else {
                return Err(PolarsError::SchemaMismatch { node: at });
            };
            Ok(TypedExpr {
                dtype,
                is_scalar: from.is_scalar,
            })
        }
        AExpr::Sort { expr, .. } => type_expr(alloc, at, *expr, arena, schema, steps),
        AExpr::SortBy {
            expr,
            by,
            descending,
            nulls_last,
        } => {
            let sorted = type_expr(alloc, at, *expr, arena, schema, steps)?;
            let keys = type_keys(alloc, at, by.as_slice(), arena, schema, steps)?;
            if !have_keys(by.as_slice(), descending.as_slice(), nulls_last.as_slice()) {
                return Err(PolarsError::SchemaMismatch { node: at });
            }
            Ok(TypedExpr {
                dtype: sorted.dtype,
                is_scalar: sorted.is_scalar && keys,
            })
        }
        AExpr::Gather {
            expr,
            idx,
            returns_scalar,
        } => {
            let (gathered, idx) = type_two(alloc, at, *expr, *idx, arena, schema, steps)?;
            if !is_number(idx.dtype) || (*returns_scalar && !idx.is_scalar) {
                return Err(PolarsError::SchemaMismatch { node: at });
            }
            Ok(TypedExpr {
                dtype: gathered.dtype,
                is_scalar: *returns_scalar,
            })
        }
        AExpr::Filter { input, by } => {
            let (input, by) = type_two(alloc, at, *input, *by, arena, schema, steps)?;
            if by.dtype != DataType::Boolean {
                return Err(PolarsError::SchemaMismatch { node: at });
            }
            Ok(TypedExpr {
                dtype: input.dtype,
                is_scalar: false,
            })
        }
        AExpr::Agg(aggregate) => {
            let input = type_expr(alloc, at, aggregated(aggregate), arena, schema, steps)?;
            let Some(dtype) = aggregate_kind(aggregate, input.dtype) else {
                return Err(PolarsError::SchemaMismatch { node: at });
            };
            Ok(TypedExpr {
                dtype,
                is_scalar: true,
            })
        }
        AExpr::Ternary {
            predicate,
            truthy,
            falsy,
        } => {
            let (predicate, truthy, falsy) = type_three(
                alloc, at, *predicate, *truthy, *falsy, arena, schema, steps,
            )?;
            if predicate.dtype != DataType::Boolean || truthy.dtype != falsy.dtype {
                return Err(PolarsError::SchemaMismatch { node: at });
            }
            Ok(TypedExpr {
                dtype: truthy.dtype,
                is_scalar: predicate.is_scalar && truthy.is_scalar && falsy.is_scalar,
            })
        }
        AExpr::Function { input, function } => {
            let input = type_expr(alloc, at, *input, arena, schema, steps)?;
            let Some(dtype) = function_kind(*function, input.dtype) else {
                return Err(PolarsError::SchemaMismatch { node: at });
            };
            Ok(TypedExpr {
                dtype,
                is_scalar: input.is_scalar,
            })
        }
        AExpr::Slice {
            input,
            offset,
            length,
        } => {
            let (input, offset, length) = type_three(
                alloc, at, *input, *offset, *length, arena, schema, steps,
            )?;
            if !is_bound(offset) || !is_bound(length) {
                return Err(PolarsError::SchemaMismatch { node: at });
            }
            Ok(TypedExpr {
                dtype: input.dtype,
                is_scalar: false,
            })
        }
        AExpr::Len => Ok(TypedExpr {
            dtype: DataType::IdxSize,
            is_scalar: true,
        }),
        AExpr::LeftOut(what) => Err(PolarsError::Unsupported {
            node: at,
            what: *what,
        }),
    }
}

// Types two expressions. Like `type_three` it isn't inlined: each result that a function takes has room of its own
// in the frame, and `type_expr` may be 256 deep.
#[cycle(typing)]
#[inline(never)]
fn type_two<L: Ledger>(
    alloc: Global,
    at: Node,
    first: Node,
    second: Node,
    arena: &Arena<AExpr>,
    schema: &Schema,
    steps: &mut Steps<L>,
) -> PolarsResult<(TypedExpr, TypedExpr)>
    requires first { IsExpression arena.now.items first }
    requires second { IsExpression arena.now.items second }
    ensures first_kind { IfOk result (λ p. kind_over schema.now (tree_at arena.now.items first) ≡ Some p.0.dtype) }
    ensures first_scalar { IfOk result (λ p. p.0.is_scalar ≡ is_scalar (tree_at arena.now.items first)) }
    ensures second_kind { IfOk result (λ p. kind_over schema.now (tree_at arena.now.items second) ≡ Some p.1.dtype) }
    ensures second_scalar { IfOk result (λ p. p.1.is_scalar ≡ is_scalar (tree_at arena.now.items second)) }
    ensures refused { IfErr result (IsErrorAmong at schema.now (tree_parts (tree_at arena.now.items first) ++ tree_parts (tree_at arena.now.items second))) }
    ensures steps { steps.new ≤ steps.old + (tree_size (tree_at arena.now.items first) + tree_size (tree_at arena.now.items second)) }
{
    let first = type_expr(alloc, at, first, arena, schema, steps)?;
    let second = type_expr(alloc, at, second, arena, schema, steps)?;
    Ok((first, second))
}

// Types three expressions.
#[cycle(typing)]
#[inline(never)]
fn type_three<L: Ledger>(
    alloc: Global,
    at: Node,
    first: Node,
    second: Node,
    third: Node,
    arena: &Arena<AExpr>,
    schema: &Schema,
    steps: &mut Steps<L>,
) -> PolarsResult<(TypedExpr, TypedExpr, TypedExpr)>
    requires first { IsExpression arena.now.items first }
    requires second { IsExpression arena.now.items second }
    requires third { IsExpression arena.now.items third }
    ensures first_kind { IfOk result (λ p. kind_over schema.now (tree_at arena.now.items first) ≡ Some p.0.dtype) }
    ensures first_scalar { IfOk result (λ p. p.0.is_scalar ≡ is_scalar (tree_at arena.now.items first)) }
    ensures second_kind { IfOk result (λ p. kind_over schema.now (tree_at arena.now.items second) ≡ Some p.1.dtype) }
    ensures second_scalar { IfOk result (λ p. p.1.is_scalar ≡ is_scalar (tree_at arena.now.items second)) }
    ensures third_kind { IfOk result (λ p. kind_over schema.now (tree_at arena.now.items third) ≡ Some p.2.dtype) }
    ensures third_scalar { IfOk result (λ p. p.2.is_scalar ≡ is_scalar (tree_at arena.now.items third)) }
    ensures refused { IfErr result (IsErrorAmong at schema.now (tree_parts (tree_at arena.now.items first) ++ (tree_parts (tree_at arena.now.items second) ++ tree_parts (tree_at arena.now.items third)))) }
    ensures steps { steps.new ≤ steps.old + (tree_size (tree_at arena.now.items first) + (tree_size (tree_at arena.now.items second) + tree_size (tree_at arena.now.items third))) }
{
    let first = type_expr(alloc, at, first, arena, schema, steps)?;
    let second = type_expr(alloc, at, second, arena, schema, steps)?;
    let third = type_expr(alloc, at, third, arena, schema, steps)?;
    Ok((first, second, third))
}

// Whether a slice takes this as a bound.
fn is_bound(bound: TypedExpr) -> bool
    ensures { result ≡ (bound.is_scalar && same_kind bound.dtype kind.Int64) }
{
    bound.is_scalar && bound.dtype == DataType::Int64
}

// Types the keys of a sort, and tells whether all of them are scalar.
#[cycle(typing)]
fn type_keys<L: Ledger>(
    alloc: Global,
    at: Node,
    keys: &[Node],
    arena: &Arena<AExpr>,
    schema: &Schema,
    steps: &mut Steps<L>,
) -> PolarsResult<bool>
    requires { AreComplete (trees_of (tree_at arena.now.items) keys.now) }
    ensures kinds { IfOk result (λ _. IsTrue (have_kinds schema.now (trees_of (tree_at arena.now.items) keys.now))) }
    ensures scalar { IfOk result (λ all. all ≡ are_scalar (trees_of (tree_at arena.now.items) keys.now)) }
    ensures refused { IfErr result (IsTypingErrorOfAny at schema.now (trees_of (tree_at arena.now.items) keys.now)) }
    ensures steps { steps.new ≤ steps.old + trees_size (trees_of (tree_at arena.now.items) keys.now) }
{
    let mut all_scalar = true;
    for key in keys {
        let key = type_expr(alloc, at, *key, arena, schema, steps)?;
        all_scalar &= key.is_scalar;
    }
    Ok(all_scalar)
}
