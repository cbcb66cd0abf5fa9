// Where bytes go.
ghost use Rattle.std.specs.Prelude.{◌≡◌, ◌<◌, ◌≤◌, ◌+◌, ◌-◌, ◌^◌, ◌⊎◌, ◌↔◌, ℕ, List, Option, length, take, min, IfOk, OnErr, OnOk, IsErr, Contains, [], Err};
ghost use Rattle.tool_ends.specs.Outside.{Appends, Rose};

use crate::source::Failed;
use ps_frame::refusal::{PolarsError, PolarsResult};
use std::alloc::Global;
use std::io::Write;
use std::marker::Model;

/// A place outside to which bytes are written, piece by piece.
pub trait Sink {
    /// What was written so far, where the sink tells it.
    ghost written: { Self → Option (List ℕ) };

    /// How many writes failed; it never falls.
    ghost faults: { Self → ℕ };

    /// Writes the front of a piece and answers how many bytes it took: at least one of a piece that isn't empty.
    ///
    /// `Failed` only where the count of faults rose; nothing is written then.
    fn write(&mut self, buf: &[u8]) -> Result<usize, Failed>
        ensures within { IfOk result (λ n. n ≤ length buf.now) }
        ensures some { IfOk result (λ n. 0 < length buf.now → 0 < n) }
        ensures front { IfOk result (λ n. Appends (written self.old) (take n buf.now) (written self.new)) }
        ensures failed { OnErr result (Rose (faults self.old) (faults self.new)) }
        ensures unwritten { OnErr result (written self.new ≡ written self.old) }
        ensures counted { faults self.old ≤ faults self.new };
}

/// A place in memory with so much room, with writes that fail as planned and where the room is full.
#[derive(Drop)]
pub struct MemSink {
    stored: Vec<u8>,
    room_bytes: usize,
    planned: Vec<u64>,
    call_count: u64,
    fault_count: u64,
}

impl Model for MemSink {
    ghost use Rattle.std.specs.Prelude.{◌≤◌, vec_len, vec_capacity};
    ghost use Rattle.tool_ends.specs.Memory.{SinkState};

    ghost Value = { SinkState };

    ghost view = { λ s. record { bytes = s.stored.items; room = s.room_bytes; failing = s.planned.items; calls = s.call_count; failed = s.fault_count } };

    ghost invariant = { λ s. (vec_len s.stored ≤ s.room_bytes) × (s.room_bytes ≤ vec_capacity s.stored) };
}

impl MemSink {
    /// An empty sink with room for so many bytes, whose writes fail at the listed calls, counted from 0, and where the room is full.
    ///
    /// Fails only for want of memory.
    pub fn new(alloc: Global, room: usize, failing: Vec<u64>) -> PolarsResult<MemSink>
        ensures made { IfOk result (λ s. s ≡ record { bytes = []; room = room; failing = failing.items; calls = 0; failed = 0 }) }
        ensures memory { OnErr result (result ≡ Err PolarsError.OutOfMemory) }
    {
        // By hand, since a clause names the error.
        match Vec::with_capacity(alloc, room) {
            Ok(stored) => Ok(MemSink {
                stored,
                room_bytes: room,
                planned: failing,
                call_count: 0,
                fault_count: 0,
            }),
            Err(_) => Err(PolarsError::OutOfMemory),
        }
    }

    /// What was written.
    pub fn bytes(&self) -> &[u8]
        ensures { result.now ≡ self.now.bytes }
    {
        self.stored.as_slice()
    }
}

impl Sink for MemSink {
    ghost use Rattle.std.specs.Prelude.{Some};

    ghost written = { λ s. Some s.bytes };

    ghost faults = { λ s. s.failed };

    fn write(&mut self, buf: &[u8]) -> Result<usize, Failed>
        ensures within { IfOk result (λ n. n ≤ length buf.now) }
        ensures some { IfOk result (λ n. 0 < length buf.now → 0 < n) }
        ensures front { IfOk result (λ n. Appends (Some self.old.bytes) (take n buf.now) (Some self.new.bytes)) }
        ensures failed { OnErr result (Rose self.old.failed self.new.failed) }
        ensures unwritten { OnErr result (Some self.new.bytes ≡ Some self.old.bytes) }
        ensures counted { self.old.failed ≤ self.new.failed }
        ensures planned { IsErr result ↔ (Contains self.old.failing self.old.calls ⊎ ((0 < length buf.now) × (self.old.room ≡ length self.old.bytes))) }
        ensures amount { IfOk result (λ n. n ≡ min (length buf.now) (self.old.room - length self.old.bytes)) }
        ensures unfailed { OnOk result (self.new.failed ≡ self.old.failed) }
        ensures plan { (self.new.room ≡ self.old.room) × (self.new.failing ≡ self.old.failing) }
        ensures calls { self.old.calls < 2 ^ 64 - 1 → self.new.calls ≡ self.old.calls + 1 }
    {
        let call = self.call_count;
        self.call_count = call.saturating_add(1);
        let count = buf.len().min(self.room_bytes - self.stored.len());
        if self.planned.contains(&call) || (count == 0 && !buf.is_empty()) {
            self.fault_count = self.fault_count.saturating_add(1);
            return Err(Failed);
        }
        // The room was allocated at the start.
        self.stored.extend_from_slice(&buf[..count]).unwrap();
        Ok(count)
    }
}

/// A writer of std as a sink. It tells no bytes, and counts each error of the writer and each write that takes nothing.
#[derive(Drop)]
pub struct StdSink<W: Write> {
    writer: W,
    fault_count: u64,
}

impl<W: Write> StdSink<W> {
    /// The writer, with no faults so far.
    pub fn new(writer: W) -> StdSink<W>
        ensures writer { result.writer ≡ writer }
        ensures unfailed { result.fault_count ≡ 0 }
    {
        StdSink {
            writer,
            fault_count: 0,
        }
    }

    /// The writer.
    pub fn writer(&self) -> &W
        ensures { result.now ≡ self.now.writer }
    {
        &self.writer
    }
}

impl<W: Write> Sink for StdSink<W> {
    ghost use Rattle.std.specs.Prelude.{None};

    ghost written = { λ _. None };

    ghost faults = { λ s. s.fault_count };

    fn write(&mut self, buf: &[u8]) -> Result<usize, Failed> {
        match self.writer.write(buf) {
            Ok(count) if 0 < count || buf.is_empty() => Ok(count),
            _ => {
                self.fault_count = self.fault_count.saturating_add(1);
                Err(Failed)
            }
        }
    }
}
