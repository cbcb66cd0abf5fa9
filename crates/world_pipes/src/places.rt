//! Changes of single pipes.
ghost use Rattle.std.specs.Prelude.{◌≡◌, option_copied};
ghost use Rattle.ps_frame.specs.Tables.{Fields};
ghost use Rattle.ps_pipes.specs.Shown.{Shows};
ghost use Rattle.ps_world.specs.Pipes.{dropped_pipe};
ghost use Rattle.ps_world.specs.World.{Pipe as WorldPipe};
ghost use Rattle.world_pipes.specs.Changed.{Becomes, if_in_phase};
ghost use Rattle.world_pipes.specs.Giving.{next_in_phase};
ghost use Rattle.world_pipes.specs.Shown.{closed_pipe};

use keyed_slots::Key;
use ps_frame::frame::DataFrame;
use ps_graph::key::LogicalPipeKey;
use ps_pipes::Pipe;

/// The place of the pipe with a key.
pub(crate) fn place(key: LogicalPipeKey) -> usize
    ensures { result ≡ key.0 }
{
    key.number() as usize
}

/// The next morsel of a pipe that is in the phase, if it is there.
pub(crate) fn peek_in(pipe: &Pipe) -> Option<&DataFrame>
    ensures { (s : Fields) (p : WorldPipe) → Shows s p pipe.now → option_copied result ≡ next_in_phase s p }
{
    if pipe.in_phase() { pipe.peek() } else { None }
}

/// Closes a pipe that is in the phase.
pub(crate) fn close(pipe: &mut Pipe)
    ensures { Becomes (if_in_phase closed_pipe) pipe.old pipe.new }
{
    if pipe.in_phase() {
        pipe.close();
    }
}

/// Drops a pipe that is in the phase.
pub(crate) fn lose(pipe: &mut Pipe)
    ensures { Becomes (if_in_phase dropped_pipe) pipe.old pipe.new }
{
    if pipe.in_phase() {
        pipe.lose();
    }
}
