//! The pipes of a run.
ghost use Rattle.std.specs.Prelude.{◌≡◌, ℕ, ◌+◌, ◌-◌, ◌≤◌, ◌||◌, not, nat_lt, false, true, length, Some, None, IfOk, IfNone, IfSome, OnOk, OnErr, Err, option_copied};
ghost use Rattle.numbered_slots.specs.Numbered.{IsAwaited};
ghost use Rattle.ps_frame.specs.Tables.{Fields};
ghost use Rattle.ps_frame.specs.declared.refusal.PolarsError.{PolarsError};
ghost use Rattle.ps_pipes.specs.Shown.{Shows, next_table};
ghost use Rattle.ps_world.specs.Opening.{fresh_pipe};
ghost use Rattle.ps_world.specs.Pipes.{dropped_pipe, taken, with_answer, with_morsel, with_place};
ghost use Rattle.ps_world.specs.World.{Pipe as WorldPipe, has_next, is_drained, is_over, morsel_at, waiting};

use numbered_slots::NumberedSlots;
use ps_frame::frame::DataFrame;
use ps_frame::refusal::{PolarsError, PolarsResult};
use std::alloc::Global;

/// What leads from a port of a node to an input of another: morsels in number order, with places for those that were claimed
/// and are still to come.
///
/// A clause says of each call which pipe of a run's world it shows after it, whichever it showed before. A pipe that is dropped
/// has lost its morsels and takes no more. Only a new place takes memory, and a morsel that comes without one.
#[derive(Drop)]
pub struct Pipe {
    pub(crate) morsels: NumberedSlots<DataFrame>,
    pub(crate) room: usize,
    pub(crate) is_bounded: bool,
    pub(crate) in_phase: bool,
    pub(crate) is_closed: bool,
    pub(crate) is_dropped: bool,
}

impl Pipe {
    /// A pipe that got nothing, with room for so many morsels. It holds more only where it isn't bounded.
    ///
    /// Fails only for want of memory.
    pub fn new(alloc: Global, room: usize, is_bounded: bool) -> PolarsResult<Pipe>
        requires { 1 ≤ room }
        ensures shows { IfOk result (λ h. (s : Fields) (sender port receiver input : ℕ) → Shows s (fresh_pipe sender port receiver input) h) }
        ensures room { IfOk result (λ h. h.room ≡ room) }
        ensures bounded { IfOk result (λ h. h.is_bounded ≡ is_bounded) }
        ensures memory { OnErr result (result ≡ Err PolarsError.OutOfMemory) }
    {
        let Ok(morsels) = NumberedSlots::new(alloc, room) else {
            return Err(PolarsError::OutOfMemory);
        };
        Ok(Pipe {
            morsels,
            room,
            is_bounded,
            in_phase: false,
            is_closed: false,
            is_dropped: false,
        })
    }

    /// The number of the morsel that is read next.
    pub fn next(&self) -> u64
        ensures { (s : Fields) (p : WorldPipe) → Shows s p self.now → result ≡ p.next }
    {
        self.morsels.next()
    }

    /// How many morsels wait.
    pub fn waiting(&self) -> usize
        ensures { (s : Fields) (p : WorldPipe) → Shows s p self.now → result ≡ waiting p }
    {
        self.morsels.waiting()
    }

    /// Whether the next morsel is there.
    pub fn has_next(&self) -> bool
        ensures { (s : Fields) (p : WorldPipe) → Shows s p self.now → result ≡ has_next p }
    {
        self.morsels.is_ready()
    }

    /// The next morsel, if it is there.
    pub fn peek(&self) -> Option<&DataFrame>
        ensures { (s : Fields) (p : WorldPipe) → Shows s p self.now → option_copied result ≡ next_table s p }
    {
        self.morsels.peek()
    }

    /// Whether nothing waits, and nothing is to come of what was claimed.
    pub fn is_drained(&self) -> bool
        ensures { (s : Fields) (p : WorldPipe) → Shows s p self.now → result ≡ is_drained p }
    {
        self.morsels.len() == 0
    }

    /// Whether it is closed and empty, as what is dropped counts.
    pub fn is_over(&self) -> bool
        ensures { (s : Fields) (p : WorldPipe) → Shows s p self.now → result ≡ is_over p }
    {
        if self.is_dropped {
            return true;
        }
        if !self.is_closed {
            return false;
        }
        self.morsels.waiting() == 0
    }

    /// Whether it has a place to spare, or needs none, where its reader's pieces keep so many places.
    pub fn has_place(&self, kept: usize) -> bool
        ensures { (s : Fields) (p : WorldPipe) → Shows s p self.now → result ≡ (p.is_dropped || (not self.now.is_bounded || nat_lt ((length p.got - p.next) + kept) self.now.room)) }
    {
        if self.is_dropped {
            return true;
        }
        if !self.is_bounded {
            return true;
        }
        self.morsels.len() < self.room.saturating_sub(kept)
    }

    /// Whether it is in the open phase.
    pub fn in_phase(&self) -> bool
        ensures { (s : Fields) (p : WorldPipe) → Shows s p self.now → result ≡ p.in_phase }
    {
        self.in_phase
    }

    /// Whether its sender gives nothing more in this phase.
    pub fn is_closed(&self) -> bool
        ensures { (s : Fields) (p : WorldPipe) → Shows s p self.now → result ≡ p.is_closed }
    {
        self.is_closed
    }

    /// Whether nobody wants its rows any more.
    pub fn is_dropped(&self) -> bool
        ensures { (s : Fields) (p : WorldPipe) → Shows s p self.now → result ≡ p.is_dropped }
    {
        self.is_dropped
    }

    /// Makes a place for the answer to a claim.
    ///
    /// Fails only for want of memory; all is then as before.
    pub fn reserve(&mut self) -> PolarsResult<()>
        ensures shows { OnOk result ((s : Fields) (p : WorldPipe) → Shows s p self.old → Shows s (with_place p) self.new) }
        ensures others { self.new ≡ record self.old { morsels = self.new.morsels } }
        ensures memory { OnErr result ((self.new ≡ self.old) × (result ≡ Err PolarsError.OutOfMemory)) }
    {
        if self.is_dropped {
            return Ok(());
        }
        let Ok(()) = self.morsels.reserve() else {
            return Err(PolarsError::OutOfMemory);
        };
        Ok(())
    }

    /// Puts the answer to a claim in its place, or drops it where nobody wants it. It takes no memory.
    pub fn put(&mut self, number: u64, table: DataFrame)
        requires { self.old.is_dropped ≡ false → IsAwaited self.old.morsels number }
        ensures shows { (s : Fields) (p : WorldPipe) → Shows s p self.old → table.schema ≡ s → Shows s (with_answer number table.rows p) self.new }
        ensures others { self.new ≡ record self.old { morsels = self.new.morsels } }
    {
        if !self.is_dropped {
            self.morsels.put(number, table);
        }
    }

    /// Puts a morsel last that comes without a claim, or drops it where nobody wants it.
    ///
    /// Fails only for want of memory; all is then as before.
    pub fn push(&mut self, table: DataFrame) -> PolarsResult<()>
        ensures shows { OnOk result ((s : Fields) (p : WorldPipe) → Shows s p self.old → table.schema ≡ s → Shows s (with_morsel table.rows p) self.new) }
        ensures others { self.new ≡ record self.old { morsels = self.new.morsels } }
        ensures memory { OnErr result ((self.new ≡ self.old) × (result ≡ Err PolarsError.OutOfMemory)) }
    {
        if self.is_dropped {
            return Ok(());
        }
        let Ok(()) = self.morsels.push(table) else {
            return Err(PolarsError::OutOfMemory);
        };
        Ok(())
    }

    /// Takes the next morsel, if it is there.
    pub fn take(&mut self) -> Option<DataFrame>
        ensures none { IfNone result (self.new ≡ self.old) }
        ensures no_next { IfNone result ((s : Fields) (p : WorldPipe) → Shows s p self.old → has_next p ≡ false) }
        ensures schema { IfSome result (λ table. (s : Fields) (p : WorldPipe) → Shows s p self.old → table.schema ≡ s) }
        ensures morsel { IfSome result (λ table. (s : Fields) (p : WorldPipe) → Shows s p self.old → morsel_at p.next p.got ≡ Some table.rows) }
        ensures shows { IfSome result (λ table. (s : Fields) (p : WorldPipe) → Shows s p self.old → Shows s (taken p) self.new) }
        ensures others { self.new ≡ record self.old { morsels = self.new.morsels } }
    {
        self.morsels.take()
    }

    /// Its sender gives nothing more in this phase.
    pub fn close(&mut self)
        ensures shows { (s : Fields) (p : WorldPipe) → Shows s p self.old → Shows s (record p { is_closed = true }) self.new }
        ensures others { self.new ≡ record self.old { is_closed = true } }
    {
        self.is_closed = true;
    }

    /// Nobody wants its rows any more: it loses its morsels.
    pub fn lose(&mut self)
        ensures shows { (s : Fields) (p : WorldPipe) → Shows s p self.old → Shows s (dropped_pipe p) self.new }
        ensures others { self.new ≡ record self.old { morsels = self.new.morsels; is_dropped = true } }
    {
        self.morsels.clear();
        self.is_dropped = true;
    }

    /// A phase opens, with this pipe or without it.
    pub fn open(&mut self, in_phase: bool)
        ensures shows { (s : Fields) (p : WorldPipe) → Shows s p self.old → Shows s (record p { in_phase = in_phase }) self.new }
        ensures others { self.new ≡ record self.old { in_phase = in_phase } }
    {
        self.in_phase = in_phase;
    }

    /// The phase is at its end.
    pub fn end(&mut self)
        ensures shows { (s : Fields) (p : WorldPipe) → Shows s p self.old → Shows s (record p { in_phase = false; is_closed = false }) self.new }
        ensures others { self.new ≡ record self.old { in_phase = false; is_closed = false } }
    {
        self.in_phase = false;
        self.is_closed = false;
    }
}
