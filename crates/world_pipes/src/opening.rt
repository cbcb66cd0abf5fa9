//! The pipes that a run begins with, and those of a phase that opens.
ghost use Rattle.std.specs.Prelude.{◌≡◌, ◌≤◌, ◌∷◌, ◌++◌, [], ℕ, Bool, Err, List, OnErr, OnOk, false, map, true};
ghost use Rattle.ps_frame.specs.declared.refusal.PolarsError.{PolarsError};
ghost use Rattle.ps_ports.specs.Wires.{Wire};
ghost use Rattle.ps_world.specs.Opening.{fresh_pipe};
ghost use Rattle.ps_world.specs.Pipes.{change_pipes};
ghost use Rattle.ps_world.specs.World.{Pipe as WorldPipe};
ghost use Rattle.world_pipes.specs.Changed.{Changed};
ghost use Rattle.world_pipes.specs.Shown.{AreKeysOf, AreShown, Setting, phase_pipe};

use crate::pipes::Pipes;
use crate::places::place;
use ps_frame::refusal::{PolarsError, PolarsResult};
use ps_graph::key::LogicalPipeKey;
use ps_pipes::Pipe;
use std::alloc::Global;

impl Pipes {
    /// No pipes. It takes no memory.
    pub fn new(alloc: Global) -> Pipes
        ensures { (s : Setting) → AreShown s [] result }
    {
        Pipes {
            list: Vec::new(alloc),
        }
    }

    /// Puts a pipe last that got nothing, with room for so many morsels. It holds more only where it isn't bounded.
    ///
    /// Fails only for want of memory.
    pub fn add(&mut self, alloc: Global, room: usize, is_bounded: bool) -> PolarsResult<()>
        requires { 1 ≤ room }
        ensures shown { OnOk result ((s : Setting) (ps : List WorldPipe) (sender port receiver input : ℕ) → s.room ≡ room → s.bounded sender ≡ is_bounded → AreShown s ps self.old → AreShown s (ps ++ fresh_pipe sender port receiver input ∷ []) self.new) }
        ensures memory { OnErr result (result ≡ Err PolarsError.OutOfMemory) }
    {
        let pipe = Pipe::new(alloc, room, is_bounded)?;
        let Ok(()) = self.list.push(pipe) else {
            return Err(PolarsError::OutOfMemory);
        };
        Ok(())
    }

    /// A phase opens, with these pipes alone.
    pub fn open(&mut self, keys: &[LogicalPipeKey])
        ensures { (s : Setting) (ps : List WorldPipe) (test : Wire → Bool) → AreShown s ps self.old → AreKeysOf (λ p. test p.wire) keys.now ps → AreShown s (map (λ p. phase_pipe (test p.wire) p) ps) self.new }
    {
        self.leave_out();
        self.take_in(keys);
    }

    /// No pipe is in the phase.
    fn leave_out(&mut self)
        ensures { (s : Setting) (ps : List WorldPipe) → AreShown s ps self.old → AreShown s (map (phase_pipe false) ps) self.new }
    {
        for place in 0..self.list.len() {
            self.put_at(place, false);
        }
    }

    /// These pipes are in the phase, beside those that were.
    fn take_in(&mut self, keys: &[LogicalPipeKey])
        ensures { (s : Setting) (ps : List WorldPipe) (test : WorldPipe → Bool) → AreShown s ps self.old → AreKeysOf test keys.now ps → AreShown s (change_pipes test (phase_pipe true) ps) self.new }
    {
        for key in keys {
            self.put_at(place(*key), true);
        }
    }

    /// Puts the pipe at a place into the phase, or out of it.
    fn put_at(&mut self, place: usize, in_phase: bool)
        ensures { Changed (phase_pipe in_phase) (place ∷ []) self.old.list.items self.new.list.items }
    {
        if place < self.list.len() {
            self.list[place].open(in_phase);
        }
    }
}
