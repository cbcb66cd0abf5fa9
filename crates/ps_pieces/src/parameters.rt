//! What a node computes over morsels.
ghost use Rattle.std.specs.Prelude.{◌≡◌, ◌+◌, min, unwrap_or};
ghost use Rattle.ps_frame.specs.Aggregates.{max_rows};

use ps_frame::expr::AExpr;
use ps_frame::schema::Schema;
use ps_meaning::options::ExprIR;
use pu_base::{Arena, Node, PlSmallStr};

/// What a node does with the rows of a morsel. The expressions stand in the arena of its parameters.
#[derive(Drop)]
pub enum Operation {
    /// Gives the columns of expressions.
    Select(Vec<ExprIR>),
    /// Gives its input's columns with those of expressions in them.
    HStack(Vec<ExprIR>),
    /// Gives the columns of expressions that read no input.
    IndependentSelect(Vec<ExprIR>),
    /// Keeps the rows of which the predicate is true.
    Filter(ExprIR),
    /// Gives the named columns.
    SimpleProjection(Vec<PlSmallStr>),
    /// Puts the numbers of rows in front, from the offset on, or from 0.
    WithRowIndex {
        name: PlSmallStr,
        offset: Option<u32>,
    },
    /// Gives what the caller's function of a number answers.
    Map(usize),
}

/// What a node computes, with the expressions that it names, the schema of what it gives, and the number under which its
/// faults are told. Its pieces share them.
#[derive(Drop)]
pub struct Parameters {
    pub operation: Operation,
    pub exprs: Arena<AExpr>,
    pub schema: Schema,
    pub origin: Node,
}

/// The number of a morsel's first row, where so many rows came before it. Past the greatest number no row has one, and
/// that number stands for all of these.
pub(crate) fn first_number(offset: Option<u32>, before: usize) -> u32
    ensures { result ≡ min (unwrap_or offset 0 + before) max_rows }
{
    let first = (offset.unwrap_or(0) as usize).saturating_add(before);
    if first > u32::MAX as usize {
        u32::MAX
    } else {
        first as u32
    }
}
