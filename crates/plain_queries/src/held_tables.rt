// The tables that are held for nodes still to come.
ghost use Rattle.std.specs.Prelude.{◌≡◌, ◌≤◌, ◌<◌, ℕ, IfOk, None, OnErr, Err, Some, get_or, length, replicate, slice_get, slice_set};
ghost use Rattle.std.specs.List.{All};
ghost use Rattle.pu_base.specs.declared.arena.Node.{Node as NodeNumber};
ghost use Rattle.plain_queries.specs.Held.{AreHeld, IsHeld, table_in, tables_in};

use ps_frame::frame::DataFrame;
use ps_frame::refusal::{PolarsError, PolarsResult};
use pu_base::Node;
use std::alloc::Global;
use std::marker::Model;

/// A table for each node of an arena, as far as it is held. Contracts see a list of optional tables.
#[derive(Drop)]
pub(crate) struct HeldTables {
    slots: Vec<Option<DataFrame>>,
}

impl Model for HeldTables {
    ghost use Rattle.std.specs.Prelude.{List, Option};
    ghost use Rattle.ps_frame.specs.Tables.{Frame};

    ghost Value = { List (Option Frame) };

    ghost view = { λ t. t.slots.items };
}

impl HeldTables {
    /// Room for so many tables, none of which is held.
    ///
    /// Fails only for want of memory.
    pub(crate) fn new(alloc: Global, count: usize) -> PolarsResult<HeldTables>
        ensures none { IfOk result (λ t. t ≡ replicate count None) }
        ensures memory { OnErr result (result ≡ Err PolarsError.OutOfMemory) }
    {
        let mut slots = Vec::with_capacity(alloc, count)?;
        for _ in 0..count {
            slots.push(None)?;
        }
        Ok(HeldTables { slots })
    }

    /// The table of a node, which is shared and not copied.
    ///
    /// Fails only for want of memory.
    pub(crate) fn share(&self, alloc: Global, node: Node) -> PolarsResult<DataFrame>
        requires { IsHeld self.now node }
        ensures table { IfOk result (λ f. f ≡ table_in self.now node) }
        ensures memory { OnErr result (result ≡ Err PolarsError.OutOfMemory) }
    {
        match &self.slots[node.0] {
            Some(table) => match table.share(alloc) {
                Ok(table) => Ok(table),
                Err(_) => Err(PolarsError::OutOfMemory),
            },
            None => unreachable!(),
        }
    }

    /// The tables of nodes, in order.
    ///
    /// Fails only for want of memory.
    pub(crate) fn share_all(&self, alloc: Global, nodes: &[Node]) -> PolarsResult<Vec<DataFrame>>
        requires { AreHeld self.now nodes.now }
        ensures tables { IfOk result (λ fs. fs.items ≡ tables_in self.now nodes.now) }
        ensures memory { OnErr result (result ≡ Err PolarsError.OutOfMemory) }
    {
        let mut tables = Vec::with_capacity(alloc, nodes.len())?;
        for node in nodes {
            tables.push(self.share(alloc, *node)?)?;
        }
        Ok(tables)
    }

    /// Lets go of the tables of these nodes that are wanted up to this place alone.
    pub(crate) fn release(&mut self, nodes: &[Node], until: &[usize], place: usize)
        requires held { All (λ (n : NodeNumber). n.0 < length self.old) nodes.now }
        requires until { length until.now ≡ length self.old }
        ensures size { length self.new ≡ length self.old }
        ensures kept { (n : ℕ) → place < get_or until.now n 0 → slice_get self.new n ≡ slice_get self.old n }
    {
        for node in nodes {
            if until[node.0] <= place {
                self.slots[node.0] = None;
            }
        }
    }

    /// Holds the table of a node.
    pub(crate) fn set(&mut self, node: Node, table: DataFrame)
        requires { node.0 < length self.old }
        ensures { self.new ≡ slice_set self.old node.0 (Some table) }
    {
        self.slots[node.0] = Some(table);
    }
}
