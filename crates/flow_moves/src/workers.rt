//! Which workers may take a piece.
ghost use Rattle.std.specs.Prelude.{◌≡◌, ◌↔◌, ◌≤◌, ◌<◌, ℕ, IsFalse, IsTrue, None, Some, slice_get};
ghost use Rattle.ps_flow.specs.Standing.{Stands};
ghost use Rattle.ps_world.specs.Claims.{IsFree};
ghost use Rattle.ps_world.specs.World.{World as RunWorld};

use ps_flow::{RunNode, World};
use ps_outs::Outs;

/// Whether some worker has no piece out.
fn has_free(outs: &Outs, workers: usize) -> bool
    requires { workers ≤ 256 }
    ensures yes { IsTrue result → (worker : ℕ) × (slice_get outs.now.by_worker.items worker ≡ Some None) }
    ensures other { IsFalse result → (worker : ℕ) → worker < workers → slice_get outs.now.by_worker.items worker ≡ Some None → ⊥ }
{
    for worker in 0..workers {
        if outs.is_free(worker as u32) {
            return true;
        }
    }
    false
}

/// Whether some worker has no piece out.
pub(crate) fn has_free_worker<N: RunNode>(world: &World<N>) -> bool
    ensures { (w : RunWorld) → Stands N.Has w world.now → IsTrue result ↔ ((worker : ℕ) × IsFree w worker) }
{
    has_free(world.outs(), world.workers())
}
