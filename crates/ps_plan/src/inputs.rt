// The nodes that an entry reads.
ghost use Rattle.std.specs.Prelude.{◌≡◌, ◌<◌, IfOk, IfSome, slice_get};
ghost use Rattle.ps_plan.specs.Entries.{entry_inputs};
ghost use Rattle.ps_plan.specs.Inputs.{nodes_in};

use crate::ir::IR;
use pu_base::Node;
use std::alloc::{AllocError, Global};

/// The inputs of an entry, in order: none of a scan, two of a join, the list of a union or an hconcat, else one.
#[derive(Clone, Copy)]
pub enum Inputs<'a> {
    Nothing,
    One(Node),
    Two(Node, Node),
    Many(&'a [Node]),
}

impl IR {
    /// The nodes that it reads, in order.
    pub fn inputs(&self) -> Inputs<'_>
        ensures { nodes_in result ≡ entry_inputs self.now }
    {
        match self {
            IR::DataFrameScan { .. } | IR::LeftOut(_) => Inputs::Nothing,
            IR::SimpleProjection { input, .. }
            | IR::Select { input, .. }
            | IR::HStack { input, .. }
            | IR::Filter { input, .. }
            | IR::Slice { input, .. }
            | IR::Sink { input, .. }
            | IR::MapFunction { input, .. }
            | IR::Sort { input, .. }
            | IR::Cache { input, .. }
            | IR::GroupBy { input, .. }
            | IR::Distinct { input, .. } => Inputs::One(*input),
            IR::Union { inputs, .. } | IR::HConcat { inputs } => Inputs::Many(inputs.as_slice()),
            IR::Join {
                input_left,
                input_right,
                ..
            } => Inputs::Two(*input_left, *input_right),
        }
    }
}

impl Inputs<'_> {
    /// The input at a place, if there are so many.
    pub fn get(self, place: usize) -> Option<Node>
        ensures at { result ≡ slice_get (nodes_in self.entry) place }
        ensures below { IfSome result (λ _. place < usize.MAX) }
    {
        match self {
            Inputs::Nothing => None,
            Inputs::One(first) => [first].get(place).copied(),
            Inputs::Two(first, second) => [first, second].get(place).copied(),
            Inputs::Many(nodes) => nodes.get(place).copied(),
        }
    }

    /// The inputs as a list.
    ///
    /// Fails only for want of memory.
    pub fn to_vec(self, alloc: Global) -> Result<Vec<Node>, AllocError>
        ensures { IfOk result (λ nodes. nodes.items ≡ nodes_in self.entry) }
    {
        match self {
            Inputs::Nothing => Ok(Vec::new(alloc)),
            Inputs::One(first) => Vec::from_slice(alloc, &[first]),
            Inputs::Two(first, second) => Vec::from_slice(alloc, &[first, second]),
            Inputs::Many(nodes) => Vec::from_slice(alloc, nodes),
        }
    }
}
