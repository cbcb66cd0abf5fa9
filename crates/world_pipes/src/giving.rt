//! What goes into the pipes of a run: places for what was claimed, and the answers to it.
ghost use Rattle.std.specs.Prelude.{◌≡◌, ◌∷◌, [], ◌&&◌, not, Bool, Err, List, OnErr, OnOk};
ghost use Rattle.ps_frame.specs.Tables.{Fields};
ghost use Rattle.ps_frame.specs.declared.refusal.PolarsError.{PolarsError};
ghost use Rattle.ps_pipes.specs.Shown.{Shows};
ghost use Rattle.ps_world.specs.Pipes.{change_pipes, with_answer, with_place};
ghost use Rattle.ps_world.specs.World.{Pipe as WorldPipe};
ghost use Rattle.world_pipes.specs.Changed.{Becomes, if_in_phase};
ghost use Rattle.world_pipes.specs.Giving.{BecomesOf, IsAwaitedIn, if_kept};
ghost use Rattle.world_pipes.specs.Shown.{AreKeysOf, AreShown, IsAt, Setting};

use crate::pipes::Pipes;
use crate::places::place;
use ps_frame::frame::DataFrame;
use ps_frame::refusal::{PolarsError, PolarsResult};
use ps_graph::key::LogicalPipeKey;
use ps_pipes::Pipe;

/// Makes a place in a pipe, unless it is dropped.
fn reserve_kept(pipe: &mut Pipe) -> PolarsResult<()>
    ensures placed { OnOk result (Becomes (if_kept with_place) pipe.old pipe.new) }
    ensures memory { OnErr result ((pipe.new ≡ pipe.old) × (result ≡ Err PolarsError.OutOfMemory)) }
{
    if pipe.is_dropped() {
        return Ok(());
    }
    pipe.reserve()
}

/// Makes a place in a pipe that is in the phase, unless it is dropped.
fn reserve_in(pipe: &mut Pipe) -> PolarsResult<()>
    ensures placed { OnOk result (Becomes (if_in_phase (if_kept with_place)) pipe.old pipe.new) }
    ensures memory { OnErr result ((pipe.new ≡ pipe.old) × (result ≡ Err PolarsError.OutOfMemory)) }
{
    if pipe.in_phase() {
        return reserve_kept(pipe);
    }
    Ok(())
}

/// Puts an answer into its place in a pipe that is in the phase.
fn put_in(pipe: &mut Pipe, number: u64, table: DataFrame)
    requires { (s : Fields) × (p : WorldPipe) × Shows s p pipe.old × IsAwaitedIn number p }
    ensures { BecomesOf table.schema (if_in_phase (with_answer number table.rows)) pipe.old pipe.new }
{
    if pipe.in_phase() {
        pipe.put(number, table);
    }
}

impl Pipes {
    /// Makes a place for the answer to a claim in a pipe, where it is in the open phase and isn't dropped.
    ///
    /// Fails only for want of memory; the pipes are then as they were.
    pub fn reserve(&mut self, key: LogicalPipeKey) -> PolarsResult<()>
        ensures pipes { OnOk result ((s : Setting) (ps : List WorldPipe) (test : WorldPipe → Bool) → AreShown s ps self.old → AreKeysOf test (key ∷ []) ps → AreShown s (change_pipes (λ p. test p && (p.in_phase && not p.is_dropped)) with_place ps) self.new) }
        ensures stays { OnErr result ((s : Setting) (ps : List WorldPipe) → AreShown s ps self.old → AreShown s ps self.new) }
        ensures memory { OnErr result (result ≡ Err PolarsError.OutOfMemory) }
    {
        let place = place(key);
        if place >= self.list.len() {
            return Ok(());
        }
        reserve_in(&mut self.list[place])
    }

    /// Puts the answer to a claim into its place in a pipe, where it is in the open phase; it is let go where the pipe is
    /// dropped. It takes no memory.
    pub fn put(&mut self, key: LogicalPipeKey, number: u64, table: DataFrame)
        requires { (s : Setting) × (ps : List WorldPipe) × AreShown s ps self.old × ((p : WorldPipe) → IsAt key ps p → IsAwaitedIn number p) }
        ensures { (s : Setting) (ps : List WorldPipe) (test : WorldPipe → Bool) → AreShown s ps self.old → AreKeysOf test (key ∷ []) ps → ((p : WorldPipe) → IsAt key ps p → table.schema ≡ s.schema p.wire.sender) → AreShown s (change_pipes (λ p. test p && p.in_phase) (with_answer number table.rows) ps) self.new }
    {
        let place = place(key);
        if place < self.list.len() {
            put_in(&mut self.list[place], number, table);
        }
    }
}
