//! Operators that stay over operands that are lowered together.
ghost use Rattle.std.specs.Prelude.{◌≡◌, ◌↔◌, Some, IfSome, IsSome, length};
ghost use Rattle.std.specs.List.{AllByRecursion};
ghost use Rattle.ps_frame.specs.Trees.{IsComplete, Tree, entry_tree};
ghost use Rattle.lowering_parts.specs.Gathered.{trees_at};
ghost use Rattle.lowering_parts.specs.Operations.{operand_count, operation_tree};
ghost use Rattle.pu_base.specs.declared.arena.Node.{Node as ANode};

use ps_frame::expr::{AExpr, Operator};
use ps_frame::value::DataType;
use pu_base::Node;

/// What is done with one, two or three operands, cell by cell.
#[derive(Clone, Copy, Debug)]
pub enum Operation {
    Binary(Operator),
    Cast(DataType, bool),
    Ternary,
}

impl Operation {
    /// The entry of the operator over as many operands as it takes; none where they are more or fewer.
    pub fn over(self, operands: &[Node]) -> Option<AExpr>
        ensures some { IsSome result ↔ (length operands.now ≡ operand_count self) }
        ensures tree { (f : ANode → Tree) → IfSome result (λ e. entry_tree f (Some e) ≡ operation_tree self (trees_at f operands.now)) }
        ensures complete { (f : ANode → Tree) → AllByRecursion IsComplete (trees_at f operands.now) → IfSome result (λ e. IsComplete (entry_tree f (Some e))) }
    {
        match self {
            Operation::Binary(op) => match operands {
                [left, right] => Some(AExpr::BinaryExpr {
                    left: *left,
                    op,
                    right: *right,
                }),
                _ => None,
            },
            Operation::Cast(dtype, strict) => match operands {
                [expr] => Some(AExpr::Cast {
                    expr: *expr,
                    dtype,
                    strict,
                }),
                _ => None,
            },
            Operation::Ternary => match operands {
                [predicate, truthy, falsy] => Some(AExpr::Ternary {
                    predicate: *predicate,
                    truthy: *truthy,
                    falsy: *falsy,
                }),
                _ => None,
            },
        }
    }
}
