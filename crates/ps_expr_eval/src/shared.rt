// Columns of expressions that are read more than once.
ghost use Rattle.std.specs.Prelude.{◌≡◌, ◌≢◌, ◌<◌, ◌≤◌, ◌+◌, ℕ, List, IfOk, IfSome, None, OnOk, Some, option_copied};
ghost use Rattle.std.specs.BTreeMap.{get};
ghost use Rattle.std.specs.Ordering.{nat_cmp};
ghost use Rattle.ps_expr_eval.specs.Evaluations.{Evaluates};
ghost use Rattle.ps_expr_eval.specs.Walks.{Remembers};
ghost use Rattle.ps_frame.specs.Tables.{Frame};
ghost use Rattle.ps_frame.specs.Trees.{AreComplete, IsExpression, tree_at, tree_size, trees_of, trees_size};
ghost use Rattle.ps_frame.specs.declared.expr.AExpr.{AExpr as AnEntry};

use crate::computed::ComputedColumn;
use crate::operands::{count_operands, operands};
use ps_frame::expr::{AExpr, entry};
use pu_base::{Arena, Node};
use std::alloc::{AllocError, Global};
use std::collections::BTreeMap;

/// The columns of entries over one table that were computed, and are still to be read by other entries.
#[derive(Drop)]
pub struct SharedColumns {
    // How often an entry is still to be read. Nothing rests on these counts but how long a column is kept.
    readers: BTreeMap<usize, usize>,
    // In order of the numbers, since a map by hashes would be slow at numbers that were chosen for it.
    columns: BTreeMap<usize, ComputedColumn>,
}

impl SharedColumns {
    /// No columns yet of expressions and of what they take.
    ///
    /// Fails only for want of memory.
    pub fn new(
        alloc: Global,
        exprs: &[Node],
        arena: &Arena<AExpr>,
    ) -> Result<SharedColumns, AllocError>
        requires { AreComplete (trees_of (tree_at arena.now.items) exprs.now) }
        ensures { IfOk result (λ shared. (table : Frame) → Remembers table arena.now.items shared) }
    {
        let readers = count_readers(alloc, exprs, arena)?;
        Ok(SharedColumns {
            readers,
            columns: BTreeMap::new(alloc),
        })
    }

    /// The column of an entry, if it is kept. After the last reader it is kept no more.
    ///
    /// Fails only for want of memory.
    pub fn take(&mut self, alloc: Global, expr: Node) -> Result<Option<ComputedColumn>, AllocError>
        ensures found { (table : Frame) (arena : List AnEntry) → Remembers table arena self.old → IfOk result (λ found. IfSome found (Evaluates table (tree_at arena expr))) }
        ensures kept { (table : Frame) (arena : List AnEntry) → Remembers table arena self.old → OnOk result (Remembers table arena self.new) }
    {
        let left = self.readers_left(expr);
        if left < 2 {
            return Ok(take_column(&mut self.columns, expr.0));
        }
        match find_column(&self.columns, expr.0) {
            Some(column) => {
                let copy = column.copy(alloc)?;
                self.readers.insert(expr.0, left - 1)?;
                Ok(Some(copy))
            }
            None => Ok(None),
        }
    }

    /// Keeps a copy of the column of an entry, where it is read again.
    ///
    /// Fails only for want of memory.
    pub fn keep(
        &mut self,
        alloc: Global,
        expr: Node,
        column: &ComputedColumn,
    ) -> Result<(), AllocError>
        ensures { (table : Frame) (arena : List AnEntry) → Remembers table arena self.old → Evaluates table (tree_at arena expr) column.now → OnOk result (Remembers table arena self.new) }
    {
        let left = self.readers_left(expr);
        if left < 2 {
            return Ok(());
        }
        let copy = column.copy(alloc)?;
        self.readers.insert(expr.0, left - 1)?;
        put_column(&mut self.columns, expr.0, copy)?;
        Ok(())
    }

    fn readers_left(&self, expr: Node) -> usize {
        self.readers.get(&expr.0).copied().unwrap_or(0)
    }
}

fn find_column(columns: &BTreeMap<usize, ComputedColumn>, number: usize) -> Option<&ComputedColumn>
    ensures { option_copied result ≡ get nat_cmp columns.now number }
{
    columns.get(&number)
}

fn take_column(
    columns: &mut BTreeMap<usize, ComputedColumn>,
    number: usize,
) -> Option<ComputedColumn>
    ensures value { result ≡ get nat_cmp columns.old number }
    ensures gone { get nat_cmp columns.new number ≡ None }
    ensures others { (q : ℕ) → q ≢ number → get nat_cmp columns.new q ≡ get nat_cmp columns.old q }
{
    columns.remove(&number)
}

fn put_column(
    columns: &mut BTreeMap<usize, ComputedColumn>,
    number: usize,
    column: ComputedColumn,
) -> Result<(), AllocError>
    ensures put { OnOk result (get nat_cmp columns.new number ≡ Some column) }
    ensures others { OnOk result ((q : ℕ) → q ≢ number → get nat_cmp columns.new q ≡ get nat_cmp columns.old q) }
{
    columns.insert(number, column)?;
    Ok(())
}

// How often each entry that takes others is read: by the entries below the expressions, and once
// wherever it is one of these itself. What stands below an entry is counted once, however often the
// entry is read.
fn count_readers(
    alloc: Global,
    exprs: &[Node],
    arena: &Arena<AExpr>,
) -> Result<BTreeMap<usize, usize>, AllocError>
    requires { AreComplete (trees_of (tree_at arena.now.items) exprs.now) }
{
    let mut readers = BTreeMap::new(alloc);
    let mut left = Vec::new(alloc);
    note_all(exprs, arena, &mut readers, &mut left)?;
    while let Some(next) = left.pop() {
        note_operands(alloc, next, arena, &mut readers, &mut left)?;
    }
    Ok(readers)
}

// Counts what an entry reads, and adds what is read for the first time to what is left to look at.
fn note_operands(
    alloc: Global,
    expr: Node,
    arena: &Arena<AExpr>,
    readers: &mut BTreeMap<usize, usize>,
    left: &mut Vec<Node>,
) -> Result<(), AllocError>
    requires expression { IsExpression arena.now.items expr }
    requires complete { AreComplete (trees_of (tree_at arena.now.items) left.old.items) }
    ensures complete { OnOk result (AreComplete (trees_of (tree_at arena.now.items) left.new.items)) }
    ensures smaller { OnOk result (trees_size (trees_of (tree_at arena.now.items) left.new.items) < trees_size (trees_of (tree_at arena.now.items) left.old.items) + tree_size (tree_at arena.now.items expr)) }
{
    let nodes = operands(alloc, entry(expr, arena))?;
    note_all(nodes.as_slice(), arena, readers, left)
}

// Counts one more reader of each of these entries, and adds those that are read for the first time to
// what is left to look at.
fn note_all(
    nodes: &[Node],
    arena: &Arena<AExpr>,
    readers: &mut BTreeMap<usize, usize>,
    left: &mut Vec<Node>,
) -> Result<(), AllocError>
    requires nodes { AreComplete (trees_of (tree_at arena.now.items) nodes.now) }
    requires left { AreComplete (trees_of (tree_at arena.now.items) left.old.items) }
    ensures complete { OnOk result (AreComplete (trees_of (tree_at arena.now.items) left.new.items)) }
    ensures more { OnOk result (trees_size (trees_of (tree_at arena.now.items) left.new.items) ≤ trees_size (trees_of (tree_at arena.now.items) left.old.items) + trees_size (trees_of (tree_at arena.now.items) nodes.now)) }
{
    for node in nodes {
        // What takes nothing costs nothing: it isn't worth keeping.
        let takes = count_operands(entry(*node, arena));
        if takes > 0 && is_first_reader(readers, *node)? {
            left.push(*node)?;
        }
    }
    Ok(())
}

// Counts one more reader of an entry; whether it is the first one.
fn is_first_reader(readers: &mut BTreeMap<usize, usize>, expr: Node) -> Result<bool, AllocError> {
    let before = readers.get(&expr.0).copied().unwrap_or(0);
    readers.insert(expr.0, before.saturating_add(1))?;
    Ok(before == 0)
}
