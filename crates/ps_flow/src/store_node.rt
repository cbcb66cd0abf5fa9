//! What a world asks of nodes that store morsels.
ghost use Rattle.std.specs.Prelude.{◌≡◌, ℕ, Err, OnErr, OnOk};
ghost use Rattle.ps_flow.specs.Pulling.{HasAlso, StoresAs};
ghost use Rattle.ps_frame.specs.declared.refusal.PolarsError.{PolarsError};

use crate::run_node::RunNode;
use ps_frame::frame::DataFrame;
use ps_frame::refusal::{PolarsError, PolarsResult};
use std::alloc::Global;

/// A node that may store the morsels of its inputs, as a sink does.
pub trait StoreNode: RunNode {
    /// Whether it has memory for one more morsel of an input.
    ghost HasRoom: { Self → (input : ℕ) → Type 0 };

    /// Takes memory for one more morsel of an input that it stores.
    ///
    /// Fails only for want of memory.
    fn reserve(&mut self, alloc: Global, input: u32) -> PolarsResult<()>
        ensures has { HasAlso Self.Has self.old self.new }
        ensures room { OnOk result (HasRoom self.new input) }
        ensures memory { OnErr result (result ≡ Err PolarsError.OutOfMemory) };

    /// Stores a morsel of an input, for which it has memory. It tells the error of the fault that it then has more rows than a
    /// table may have.
    fn store(&mut self, input: u32, morsel: DataFrame) -> Option<PolarsError>
        requires { HasRoom self.old input }
        ensures { StoresAs Self.Has input morsel result self.old self.new };
}
