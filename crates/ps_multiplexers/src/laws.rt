//! What multiplexers are for, as theorems of functions that do nothing.
ghost use Rattle.std.specs.Prelude.{◌<◌, ◌≤◌, ℕ, length};
ghost use Rattle.ps_meaning.specs.Shape.{Shape};
ghost use Rattle.ps_multiplexers.specs.Taken.{ReadsFirstPorts, streams_after, takes};
ghost use Rattle.ps_phys.specs.Walks.{Stream};

/// Among the nodes that the walk from a root takes, and the multiplexers, no stream has two readers.
pub fn no_stream_is_taken_twice()
    ensures { (nodes : Shape) (root : ℕ) → root < length nodes → ReadsFirstPorts nodes → (s : Stream) → takes s (streams_after root nodes) ≤ 1 }
{}
