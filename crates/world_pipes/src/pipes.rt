//! All pipes of a run.
ghost use Rattle.std.specs.Prelude.{◌≡◌, ◌-◌, ◌+◌, ℕ, ◌∷◌, [], ◌&&◌, ◌||◌, Bool, IfNone, IfSome, List, Some, false, length, map, nat_lt, not, option_copied};
ghost use Rattle.ps_world.specs.Pipes.{change_pipes, dropped_pipe, taken};
ghost use Rattle.ps_world.specs.World.{Pipe as WorldPipe, has_next, is_over, morsel_at};
ghost use Rattle.world_pipes.specs.Changed.{Changed, if_in_phase};
ghost use Rattle.world_pipes.specs.Giving.{next_in_phase};
ghost use Rattle.world_pipes.specs.Shown.{AreKeysOf, AreShown, IsAt, Setting, closed_pipe, ended_pipe};

use crate::places::{self, peek_in, place};
use ps_frame::frame::DataFrame;
use ps_graph::key::LogicalPipeKey;
use ps_pipes::Pipe;

/// All pipes of a run, in the order in which its graph has them. They are named by the graph's keys.
///
/// A clause says of each call which pipes of a run's world they show after it, whichever they showed before.
#[derive(Drop)]
pub struct Pipes {
    pub(crate) list: Vec<Pipe>,
}

impl Pipes {
    /// The number of the morsel that is read next from a pipe.
    pub fn next(&self, key: LogicalPipeKey) -> u64
        ensures { (s : Setting) (ps : List WorldPipe) (p : WorldPipe) → AreShown s ps self.now → IsAt key ps p → result ≡ p.next }
    {
        let place = place(key);
        if place < self.list.len() {
            self.list[place].next()
        } else {
            0
        }
    }

    /// Whether the next morsel of a pipe is there.
    pub fn has_next(&self, key: LogicalPipeKey) -> bool
        ensures { (s : Setting) (ps : List WorldPipe) (p : WorldPipe) → AreShown s ps self.now → IsAt key ps p → result ≡ has_next p }
    {
        let place = place(key);
        if place < self.list.len() {
            self.list[place].has_next()
        } else {
            false
        }
    }

    /// The next morsel of a pipe of the open phase, if it is there.
    pub fn peek(&self, key: LogicalPipeKey) -> Option<&DataFrame>
        ensures { (s : Setting) (ps : List WorldPipe) (p : WorldPipe) → AreShown s ps self.now → IsAt key ps p → option_copied result ≡ next_in_phase (s.schema p.wire.sender) p }
    {
        let place = place(key);
        if place < self.list.len() {
            peek_in(&self.list[place])
        } else {
            None
        }
    }

    /// Whether a pipe is in the open phase.
    pub fn in_phase(&self, key: LogicalPipeKey) -> bool
        ensures { (s : Setting) (ps : List WorldPipe) (p : WorldPipe) → AreShown s ps self.now → IsAt key ps p → result ≡ p.in_phase }
    {
        let place = place(key);
        if place < self.list.len() {
            self.list[place].in_phase()
        } else {
            false
        }
    }

    /// Whether nobody wants the rows of a pipe any more.
    pub fn is_dropped(&self, key: LogicalPipeKey) -> bool
        ensures { (s : Setting) (ps : List WorldPipe) (p : WorldPipe) → AreShown s ps self.now → IsAt key ps p → result ≡ p.is_dropped }
    {
        let place = place(key);
        if place < self.list.len() {
            self.list[place].is_dropped()
        } else {
            false
        }
    }

    /// Whether a pipe is closed and empty, as what is dropped counts.
    pub fn is_over(&self, key: LogicalPipeKey) -> bool
        ensures { (s : Setting) (ps : List WorldPipe) (p : WorldPipe) → AreShown s ps self.now → IsAt key ps p → result ≡ is_over p }
    {
        let place = place(key);
        if place < self.list.len() {
            self.list[place].is_over()
        } else {
            false
        }
    }

    /// Whether a pipe has a place to spare, or needs none, where its reader's pieces keep so many places.
    pub fn has_place(&self, key: LogicalPipeKey, kept: usize) -> bool
        ensures { (s : Setting) (ps : List WorldPipe) (p : WorldPipe) → AreShown s ps self.now → IsAt key ps p → result ≡ (p.is_dropped || (not (s.bounded p.wire.sender) || nat_lt ((length p.got - p.next) + kept) s.room)) }
    {
        let place = place(key);
        if place < self.list.len() {
            self.list[place].has_place(kept)
        } else {
            false
        }
    }

    /// Takes the next morsel of a pipe, if it is there.
    pub fn take(&mut self, key: LogicalPipeKey) -> Option<DataFrame>
        ensures none { IfNone result ((s : Setting) (ps : List WorldPipe) → AreShown s ps self.old → AreShown s ps self.new) }
        ensures no_next { IfNone result ((s : Setting) (ps : List WorldPipe) (p : WorldPipe) → AreShown s ps self.old → IsAt key ps p → has_next p ≡ false) }
        ensures morsel { IfSome result (λ table. (s : Setting) (ps : List WorldPipe) (p : WorldPipe) → AreShown s ps self.old → IsAt key ps p → (table.schema ≡ s.schema p.wire.sender) × (morsel_at p.next p.got ≡ Some table.rows)) }
        ensures pipes { IfSome result (λ table. (s : Setting) (ps : List WorldPipe) (test : WorldPipe → Bool) → AreShown s ps self.old → AreKeysOf test (key ∷ []) ps → AreShown s (change_pipes test taken ps) self.new) }
    {
        let place = place(key);
        if place >= self.list.len() {
            return None;
        }
        self.list[place].take()
    }

    /// Nobody wants the rows of a pipe any more: it loses its morsels.
    pub fn lose(&mut self, key: LogicalPipeKey)
        ensures { (s : Setting) (ps : List WorldPipe) (test : WorldPipe → Bool) → AreShown s ps self.old → AreKeysOf test (key ∷ []) ps → AreShown s (change_pipes test dropped_pipe ps) self.new }
    {
        let place = place(key);
        if place < self.list.len() {
            self.list[place].lose();
        }
    }

    /// Nobody wants the rows of these pipes any more, as far as they are in the open phase.
    pub fn lose_in_phase(&mut self, keys: &[LogicalPipeKey])
        ensures { (s : Setting) (ps : List WorldPipe) (test : WorldPipe → Bool) → AreShown s ps self.old → AreKeysOf test keys.now ps → AreShown s (change_pipes (λ p. test p && p.in_phase) dropped_pipe ps) self.new }
    {
        for key in keys {
            self.lose_at(place(*key));
        }
    }

    /// The sender of these pipes gives nothing more in the open phase.
    pub fn close_in_phase(&mut self, keys: &[LogicalPipeKey])
        ensures { (s : Setting) (ps : List WorldPipe) (test : WorldPipe → Bool) → AreShown s ps self.old → AreKeysOf test keys.now ps → AreShown s (change_pipes (λ p. test p && p.in_phase) closed_pipe ps) self.new }
    {
        for key in keys {
            self.close_at(place(*key));
        }
    }

    /// The phase is at its end.
    pub fn end(&mut self)
        ensures { (s : Setting) (ps : List WorldPipe) → AreShown s ps self.old → AreShown s (map ended_pipe ps) self.new }
    {
        for place in 0..self.list.len() {
            self.end_at(place);
        }
    }

    /// Closes the pipe at a place, where it is in the phase.
    fn close_at(&mut self, place: usize)
        ensures { Changed (if_in_phase closed_pipe) (place ∷ []) self.old.list.items self.new.list.items }
    {
        if place < self.list.len() {
            places::close(&mut self.list[place]);
        }
    }

    /// Drops the pipe at a place, where it is in the phase.
    fn lose_at(&mut self, place: usize)
        ensures { Changed (if_in_phase dropped_pipe) (place ∷ []) self.old.list.items self.new.list.items }
    {
        if place < self.list.len() {
            places::lose(&mut self.list[place]);
        }
    }

    /// The phase of the pipe at a place is at its end.
    fn end_at(&mut self, place: usize)
        ensures { Changed ended_pipe (place ∷ []) self.old.list.items self.new.list.items }
    {
        if place < self.list.len() {
            self.list[place].end();
        }
    }
}
