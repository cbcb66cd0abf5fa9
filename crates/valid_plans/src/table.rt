// The schemas of the nodes that are done.
ghost use Rattle.std.specs.Prelude.{◌≡◌, ◌<◌, IfOk, None, OnErr, Err, Some, length, replicate, slice_set};
ghost use Rattle.valid_plans.specs.Known.{IsKnown, schema_in};

use ps_frame::refusal::{PolarsError, PolarsResult};
use ps_frame::schema::Schema;
use pu_base::Node;
use std::alloc::Global;
use std::marker::Model;

/// A schema for each node of an arena, as far as it is known. Contracts see a list of optional schemas.
#[derive(Drop)]
pub struct Schemas {
    table: Vec<Option<Schema>>,
}

impl Model for Schemas {
    ghost use Rattle.std.specs.Prelude.{List, Option, ℕ};
    ghost use Rattle.ps_frame.specs.declared.value.DataType.{DataType};

    ghost Value = { List (Option (List (List ℕ × DataType))) };

    ghost view = { λ s. s.table.items };
}

impl Schemas {
    /// A table for so many nodes, none of whose schemas is known.
    ///
    /// Fails only for want of memory.
    pub fn new(alloc: Global, count: usize) -> PolarsResult<Schemas>
        ensures none { IfOk result (λ s. s ≡ replicate count None) }
        ensures memory { OnErr result (result ≡ Err PolarsError.OutOfMemory) }
    {
        let mut table = Vec::with_capacity(alloc, count)?;
        for _ in 0..count {
            table.push(None)?;
        }
        Ok(Schemas { table })
    }

    /// The schema of a node that is known.
    pub fn get(&self, node: Node) -> &Schema
        requires { IsKnown self.now node }
        ensures { result.now ≡ schema_in self.now node }
    {
        match &self.table[node.0] {
            Some(schema) => schema,
            None => unreachable!(),
        }
    }

    /// Sets the schema of a node.
    pub fn set(&mut self, node: Node, schema: Schema)
        requires { node.0 < length self.old }
        ensures { self.new ≡ slice_set self.old node.0 (Some schema) }
    {
        self.table[node.0] = Some(schema);
    }
}
