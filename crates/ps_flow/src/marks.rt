//! Which nodes are in the open phase, and which of these are closed.
ghost use Rattle.std.specs.Prelude.{◌≡◌, ℕ, [], ◌∷◌, ◌++◌, Err, IfOk, List, OnErr, map, replicate};
ghost use Rattle.ps_flow.specs.Marked.{closed_at, phase_marks, unmarked};
ghost use Rattle.ps_frame.specs.declared.refusal.PolarsError.{PolarsError};
ghost use Rattle.ps_graph.specs.Running.{node_numbers};

use keyed_slots::Key;
use ps_frame::refusal::{PolarsError, PolarsResult};
use ps_graph::key::GraphNodeKey;
use std::alloc::Global;

/// Whether a node is in the open phase, and whether it is closed there.
#[derive(Clone, Copy, Debug, PartialEq, Eq)]
pub struct Mark {
    pub in_phase: bool,
    pub is_closed: bool,
}

/// The marks of all nodes, in the order of the graph.
#[derive(Drop)]
pub struct Marks {
    list: Vec<Mark>,
}

impl Marks {
    /// The marks of so many nodes between phases.
    ///
    /// Fails only for want of memory.
    pub fn new(alloc: Global, count: usize) -> PolarsResult<Marks>
        ensures marks { IfOk result (λ m. m.list.items ≡ replicate count unmarked) }
        ensures memory { OnErr result (result ≡ Err PolarsError.OutOfMemory) }
    {
        let unmarked = Mark {
            in_phase: false,
            is_closed: false,
        };
        let Ok(list) = vec![in alloc; unmarked; count] else {
            return Err(PolarsError::OutOfMemory);
        };
        Ok(Marks { list })
    }

    /// The marks, in the order of the graph.
    pub fn as_slice(&self) -> &[Mark]
        ensures { result.now ≡ self.now.list.items }
    {
        self.list.as_slice()
    }

    /// A phase opens, with these nodes alone.
    pub fn open(&mut self, keys: &[GraphNodeKey])
        ensures { self.new.list.items ≡ phase_marks (node_numbers keys.now) 0 self.old.list.items }
    {
        self.leave_out();
        self.take_in(keys);
    }

    /// No node is in the phase.
    fn leave_out(&mut self)
        ensures { self.new.list.items ≡ phase_marks [] 0 self.old.list.items }
    {
        for place in 0..self.list.len() {
            self.list[place].in_phase = false;
        }
    }

    /// These nodes are in the phase, where none was.
    fn take_in(&mut self, keys: &[GraphNodeKey])
        ensures { (ms : List Mark) → self.old.list.items ≡ phase_marks [] 0 ms → self.new.list.items ≡ phase_marks (node_numbers keys.now) 0 ms }
    {
        for key in keys {
            self.put_in(key.number() as usize);
        }
    }

    /// Puts the node at a place into the phase.
    fn put_in(&mut self, place: usize)
        ensures { (ms : List Mark) (ns : List ℕ) → self.old.list.items ≡ phase_marks ns 0 ms → self.new.list.items ≡ phase_marks (ns ++ place ∷ []) 0 ms }
    {
        if place < self.list.len() {
            self.list[place].in_phase = true;
        }
    }

    /// A node is closed in the open phase.
    pub fn close(&mut self, node: usize)
        ensures { self.new.list.items ≡ closed_at node self.old.list.items }
    {
        if node < self.list.len() {
            self.list[node].is_closed = true;
        }
    }

    /// The phase is at its end.
    pub fn end(&mut self)
        ensures { self.new.list.items ≡ map (λ m. unmarked) self.old.list.items }
    {
        for place in 0..self.list.len() {
            self.list[place] = Mark {
                in_phase: false,
                is_closed: false,
            };
        }
    }
}
