//! A valid plan, as those that use it see it.
ghost use Rattle.std.specs.Prelude.{◌≡◌};
ghost use Rattle.valid_plans.specs.Known.{IsKnown, schema_in};

use crate::table::Schemas;
use ps_frame::schema::Schema;
use ps_plan::ir::IR;
use pu_base::{Arena, Node};
use std::marker::Model;

/// The nodes of a valid plan, with the schema of each node that the root leads to and the order of these nodes.
#[derive(Drop)]
pub struct Valid {
    root: Node,
    ir: Arena<IR>,
    schemas: Schemas,
    order: Vec<usize>,
}

impl Model for Valid {
    ghost use Rattle.valid_plans.specs.Valid.{ValidNodes};

    ghost Value = { ValidNodes };

    ghost view = { λ v. record { root = v.root; nodes = v.ir.items; schemas = v.schemas; order = v.order.items } };
}

impl Valid {
    /// A root and nodes, with schemas and an order of them. That they are a valid plan is for the one who makes it to
    /// show.
    pub fn new(root: Node, ir: Arena<IR>, schemas: Schemas, order: Vec<usize>) -> Valid
        ensures { result ≡ record { root = root; nodes = ir.items; schemas = schemas; order = order.items } }
    {
        Valid {
            root,
            ir,
            schemas,
            order,
        }
    }

    /// The root of the plan.
    pub fn root(&self) -> Node
        ensures { result ≡ self.now.root }
    {
        self.root
    }

    /// The nodes.
    pub fn ir(&self) -> &Arena<IR>
        ensures { result.now.items ≡ self.now.nodes }
    {
        &self.ir
    }

    /// The schema of a node that the root leads to.
    pub fn schema(&self, node: Node) -> &Schema
        requires { IsKnown self.now.schemas node }
        ensures { result.now ≡ schema_in self.now.schemas node }
    {
        self.schemas.get(node)
    }

    /// The numbers of the nodes that the root leads to, each after those of its inputs.
    pub fn order(&self) -> &[usize]
        ensures { result.now ≡ self.now.order }
    {
        self.order.as_slice()
    }
}
