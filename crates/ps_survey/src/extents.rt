//! How deep and how large the trees of nodes and expressions are.
ghost use Rattle.std.specs.Prelude.{◌≡◌, ◌↔◌, ◌⊎◌, IsTrue, ◌+◌, ◌<◌, ◌≤◌, suc, max, ℕ, List, length, slice_get, sum_by, Contains, Some, IfOk, OnErr, Err};
ghost use Rattle.ps_frame.specs.Trees.{IsExpression};
ghost use Rattle.ps_frame.specs.declared.refusal.PolarsError.TheVariants as refusal;
ghost use Rattle.ps_survey.specs.Counts.{looks_at};
ghost use Rattle.ps_survey.specs.Extents.{HasExtent, IsExtent, expr_depth, expr_size, largest};
ghost use Rattle.ps_survey.specs.Orders.{operands_in};
ghost use Rattle.valid_plans.specs.Surveys.{NamedFirst};

use crate::names::Operands;
use crate::search::Names;
use ps_frame::expr::AExpr;
use ps_frame::refusal::{PolarsError, PolarsResult};
use pu_base::{Arena, Steps};
use std::alloc::Global;
use std::sync::ledger::Ledger;

/// The greatest depth that a node may have.
pub const DEPTH: usize = 256;

/// The most nodes and expressions that a node may unfold to.
pub const OCCURRENCES: usize = 65_536;

/// How deep and how large trees are, each counted up to one more than its limit.
#[derive(Clone, Copy)]
pub struct Extent {
    pub depth: usize,
    pub size: usize,
}

impl Extent {
    /// The extent of no tree.
    pub fn none() -> Extent
        ensures { IsExtent 0 0 result }
    {
        Extent { depth: 0, size: 0 }
    }

    /// The extent of both, side by side.
    pub fn beside(self, other: Extent) -> Extent
        ensures { (d s e t : ℕ) → IsExtent d s self → IsExtent e t other → IsExtent (max d e) (s + t) result }
    {
        let size = self.size.saturating_add(other.size);
        Extent {
            depth: self.depth.max(other.depth),
            size: size.min(OCCURRENCES + 1),
        }
    }

    /// Whether a limit is passed.
    pub fn is_past_limits(self) -> bool
        ensures { IsTrue result ↔ (256 < self.depth) ⊎ (65536 < self.size) }
    {
        self.depth > DEPTH || self.size > OCCURRENCES
    }

    /// The extent with one node above.
    pub fn above(self) -> Extent
        ensures { (d s : ℕ) → IsExtent d s self → IsExtent (suc d) (suc s) result }
    {
        let depth = self.depth.saturating_add(1);
        let size = self.size.saturating_add(1);
        Extent {
            depth: depth.min(DEPTH + 1),
            size: size.min(OCCURRENCES + 1),
        }
    }
}

/// The extent of a number in a table.
fn extent_at(table: &[Extent], number: usize) -> Extent
    requires { number < length table.now }
    ensures { slice_get table.now number ≡ Some result }
{
    table[number]
}

/// The extent of all that a number names, by a table of extents.
pub fn extent_below<N: Names, L: Ledger>(
    names: &N,
    number: usize,
    table: &[Extent],
    steps: &mut Steps<L>,
) -> Extent
    requires number { number < N.count names.now }
    requires known { (m : ℕ) → Contains (N.named names.now number) m → m < length table.now }
    ensures below { (d s : ℕ → ℕ) → ((m : ℕ) → Contains (N.named names.now number) m → HasExtent table.now m (d m) (s m)) → IsExtent (largest d (N.named names.now number)) (sum_by s (N.named names.now number)) result }
    ensures steps { steps.new ≡ steps.old + length (N.named names.now number) }
{
    let mut below = Extent::none();
    let mut place = 0;
    while let Some(named) = names.name(number, place) {
        steps.tick();
        below = below.beside(extent_at(table, named));
        place += 1;
    }
    below
}

/// A table of the extents of expressions, which stand after what they name.
pub fn expr_extents<L: Ledger>(
    alloc: Global,
    order: &[usize],
    exprs: &Arena<AExpr>,
    steps: &mut Steps<L>,
) -> PolarsResult<Vec<Extent>>
    requires complete { (e : ℕ) → Contains order.now e → IsExpression exprs.now.items (record { 0 = e }) }
    requires first { NamedFirst (operands_in exprs.now.items) order.now }
    ensures size { IfOk result (λ table. length table.items ≡ length exprs.now.items) }
    ensures extents { IfOk result (λ table. (e : ℕ) → Contains order.now e → HasExtent table.items e (expr_depth exprs.now.items e) (expr_size exprs.now.items e)) }
    ensures memory { OnErr result (result ≡ Err refusal.OutOfMemory) }
    ensures steps { steps.new ≤ steps.old + looks_at (operands_in exprs.now.items) order.now }
{
    let mut table = match vec![in alloc; Extent::none(); exprs.len()] {
        Ok(table) => table,
        Err(_) => return Err(PolarsError::OutOfMemory),
    };
    for expr in order {
        steps.tick();
        let below = extent_below(&Operands { exprs }, *expr, &table, steps);
        table[*expr] = below.above();
    }
    Ok(table)
}
