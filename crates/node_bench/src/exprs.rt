// Expressions that are timed, over a whole table.
ghost use Rattle.std.specs.Prelude.{◌≡◌, ◌<◌, IfOk};
ghost use Rattle.node_bench.specs.Works.{bench_entries, bench_schema, sorted_entry};
ghost use Rattle.ps_frame.specs.declared.expr.AExpr.TheVariants as entry;

use crate::table::{Summary, make, weight};
use anyhow::{Result, bail};
use ps_expr_eval::evaluate::evaluate;
use ps_frame::expr::{AExpr, IRAggExpr, LiteralValue, Operator};
use ps_frame::frame::DataFrame;
use ps_frame::items::Items;
use ps_frame::refusal::PolarsResult;
use ps_frame::value::{Cell, DataType, Evaluated};
use pu_base::{Arena, Node, PlSmallStr, PolarsUtilsError};
use std::alloc::Global;

/// An expression over the table.
#[derive(Clone, Copy, Debug, PartialEq, Eq)]
pub enum ExprWork {
    /// Whether value + many * 2 is above key.
    Compare,
    /// The numbers that the texts show.
    Cast,
    /// The values, by few and then by many from the greatest.
    SortBy,
    /// The sum of the values.
    Sum,
    /// How many values there are in many.
    NUnique,
}

impl ExprWork {
    /// The expression of a word, as a caller gives it.
    pub fn of_word(word: &str) -> Option<ExprWork> {
        match word {
            "compare" => Some(ExprWork::Compare),
            "cast" => Some(ExprWork::Cast),
            "sort_by" => Some(ExprWork::SortBy),
            "sum" => Some(ExprWork::Sum),
            "n_unique" => Some(ExprWork::NUnique),
            _ => None,
        }
    }

    // The number of its entry.
    fn number(self) -> usize
        ensures { result < 13 }
    {
        match self {
            ExprWork::Compare => 8,
            ExprWork::Cast => 9,
            ExprWork::SortBy => 10,
            ExprWork::Sum => 11,
            ExprWork::NUnique => 12,
        }
    }
}

fn column(alloc: Global, name: &str) -> Result<AExpr, PolarsUtilsError>
    ensures { IfOk result (λ e. e ≡ entry.Column name.now) }
{
    let name = PlSmallStr::from_str(alloc, name)?;
    Ok(AExpr::Column(name))
}

fn binary(left: usize, op: Operator, right: usize) -> AExpr
    ensures { result ≡ entry.BinaryExpr (record { 0 = left }) op (record { 0 = right }) }
{
    AExpr::BinaryExpr {
        left: Node(left),
        op,
        right: Node(right),
    }
}

fn sorted(alloc: Global) -> Result<AExpr, PolarsUtilsError>
    ensures { IfOk result (λ e. e ≡ sorted_entry) }
{
    Ok(AExpr::SortBy {
        expr: Node(3),
        by: Items::new(vec![in alloc; Node(0), Node(1)]?),
        descending: Items::new(vec![in alloc; false, true]?),
        nulls_last: Items::new(vec![in alloc; false]?),
    })
}

fn expressions(alloc: Global) -> Result<Arena<AExpr>, PolarsUtilsError>
    ensures { IfOk result (λ arena. arena.items ≡ bench_entries) }
{
    let mut arena = Arena::new(alloc);
    arena.add(column(alloc, "few")?)?;
    arena.add(column(alloc, "many")?)?;
    arena.add(column(alloc, "key")?)?;
    arena.add(column(alloc, "value")?)?;
    arena.add(column(alloc, "text")?)?;
    arena.add(AExpr::Literal(LiteralValue::Int64(2)))?;
    arena.add(binary(1, Operator::Multiply, 5))?;
    arena.add(binary(3, Operator::Plus, 6))?;
    arena.add(binary(7, Operator::Gt, 2))?;
    arena.add(AExpr::Cast {
        expr: Node(4),
        dtype: DataType::Int64,
        strict: false,
    })?;
    arena.add(sorted(alloc)?)?;
    arena.add(AExpr::Agg(IRAggExpr::Sum(Node(3))))?;
    arena.add(AExpr::Agg(IRAggExpr::NUnique(Node(1))))?;
    Ok(arena)
}

fn cell_weight(cell: &Cell) -> u64 {
    match cell {
        Cell::Val(value) => weight(value),
        Cell::Bad(_) => 2,
    }
}

fn summarize(column: &Evaluated) -> Summary {
    let mut checksum: u64 = 0;
    for cell in &column.cells {
        checksum = checksum.wrapping_mul(31).wrapping_add(cell_weight(cell));
    }
    Summary {
        rows: column.cells.len(),
        checksum,
    }
}

fn once(
    alloc: Global,
    work: ExprWork,
    arena: &Arena<AExpr>,
    df: &DataFrame,
) -> PolarsResult<Evaluated>
    requires entries { arena.now.items ≡ bench_entries }
    requires schema { df.now.schema ≡ bench_schema }
{
    evaluate(alloc, Node(work.number()), arena, df)
}

/// Evaluates the expression so many times, but at least once, and tells of the last column. It fails only for want of
/// memory.
pub fn repeat(alloc: Global, work: ExprWork, rows: u32, times: u32) -> Result<Summary> {
    let df = make(alloc, rows)?;
    let Ok(arena) = expressions(alloc) else {
        bail!("out of memory");
    };
    let mut last = once(alloc, work, &arena, &df)?;
    for _ in 1..times {
        last = once(alloc, work, &arena, &df)?;
    }
    Ok(summarize(&last))
}
