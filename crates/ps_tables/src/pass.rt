// The nodes that give their table as it is.
ghost use Rattle.std.specs.Prelude.{◌≡◌, ◌∷◌, [], Err, IfOk, None, OnErr, ℕ};
ghost use Rattle.ps_frame.specs.Functions.{Functions};
ghost use Rattle.ps_meaning.specs.Nodes.{GivesFrame};
ghost use Rattle.ps_meaning.specs.Steps.{cache, scan, sink};
ghost use Rattle.ps_meaning.specs.declared.options.SinkType.{SinkType};

use ps_frame::frame::DataFrame;
use ps_frame::refusal::{PolarsError, PolarsResult};
use std::alloc::Global;

/// The table of a scan of all columns, and of a sink or a cache over it: the same table, whose values are not copied.
///
/// Fails only for want of memory.
pub fn pass(alloc: Global, df: &DataFrame) -> PolarsResult<DataFrame>
    ensures same { IfOk result (λ f. f ≡ df.now) }
    ensures scan { IfOk result (λ f. (F : Functions) (at : ℕ) → GivesFrame F at (scan df.now None) [] f) }
    ensures sink { IfOk result (λ f. (F : Functions) (at : ℕ) (payload : SinkType) → GivesFrame F at (sink payload) (df.now ∷ []) f) }
    ensures cache { IfOk result (λ f. (F : Functions) (at id : ℕ) → GivesFrame F at (cache id) (df.now ∷ []) f) }
    ensures memory { OnErr result (result ≡ Err PolarsError.OutOfMemory) }
{
    match df.share(alloc) {
        Ok(same) => Ok(same),
        Err(_) => Err(PolarsError::OutOfMemory),
    }
}
