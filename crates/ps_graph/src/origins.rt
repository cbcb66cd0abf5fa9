//! Errors at the node from which a node of the graph comes.
ghost use Rattle.std.specs.Prelude.{◌≡◌};
ghost use Rattle.ps_graph.specs.Origins.{at_node};

use ps_frame::refusal::PolarsError;
use pu_base::Node;

/// The error, at this node.
pub fn error_at(error: PolarsError, node: Node) -> PolarsError
    ensures { result ≡ at_node node error }
{
    match error {
        PolarsError::InvalidPlan { node: _, why } => PolarsError::InvalidPlan { node, why },
        PolarsError::ColumnNotFound { node: _, name } => PolarsError::ColumnNotFound { node, name },
        PolarsError::Duplicate { node: _, name } => PolarsError::Duplicate { node, name },
        PolarsError::SchemaMismatch { node: _ } => PolarsError::SchemaMismatch { node },
        PolarsError::ComputeError { node: _, why } => PolarsError::ComputeError { node, why },
        PolarsError::ShapeMismatch { node: _ } => PolarsError::ShapeMismatch { node },
        PolarsError::OutOfBounds { node: _, why } => PolarsError::OutOfBounds { node, why },
        PolarsError::Unsupported { node: _, what } => PolarsError::Unsupported { node, what },
        PolarsError::OutOfMemory => PolarsError::OutOfMemory,
    }
}
