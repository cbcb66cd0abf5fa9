// Where bytes come from.
ghost use Rattle.std.specs.Prelude.{◌≡◌, ◌<◌, ◌≤◌, ◌+◌, ◌-◌, ◌^◌, ℕ, List, Option, length, take, drop, min, IfOk, OnErr, OnOk, Ok, IsErr, Contains, ◌↔◌};
ghost use Rattle.tool_ends.specs.Outside.{IsAtEnd, Rose, TakesFront};

use std::io::Read;
use std::marker::Model;

/// A read or a write that failed.
#[derive(Clone, Copy, Debug, PartialEq, Eq)]
pub struct Failed;

/// Bytes that come from outside, piece by piece.
pub trait Source {
    /// The bytes to come, where the source tells them.
    ghost left: { Self → Option (List ℕ) };

    /// How many reads failed; it never falls.
    ghost faults: { Self → ℕ };

    /// Reads into the front of a buffer and answers how many bytes it read. 0 into a buffer that isn't empty is the end.
    ///
    /// `Failed` only where the count of faults rose; nothing is read then.
    fn read(&mut self, buf: &mut [u8]) -> Result<usize, Failed>
        ensures within { IfOk result (λ n. n ≤ length buf.old) }
        ensures front { IfOk result (λ n. TakesFront (left self.old) (take n buf.new) (left self.new)) }
        ensures end { result ≡ Ok 0 → 0 < length buf.old → IsAtEnd (left self.old) }
        ensures failed { OnErr result (Rose (faults self.old) (faults self.new)) }
        ensures unread { OnErr result (left self.new ≡ left self.old) }
        ensures counted { faults self.old ≤ faults self.new };
}

/// Bytes in memory, which come in chunks, with reads that fail as planned.
#[derive(Drop)]
pub struct MemSource {
    stored: Vec<u8>,
    position: usize,
    chunk_bytes: usize,
    planned: Vec<u64>,
    call_count: u64,
    fault_count: u64,
}

impl Model for MemSource {
    ghost use Rattle.std.specs.Prelude.{◌<◌, ◌≤◌, vec_len, drop};
    ghost use Rattle.tool_ends.specs.Memory.{SourceState};

    ghost Value = { SourceState };

    ghost view = { λ s. record { bytes = drop s.position s.stored.items; chunk = s.chunk_bytes; failing = s.planned.items; calls = s.call_count; failed = s.fault_count } };

    ghost invariant = { λ s. (s.position ≤ vec_len s.stored) × (0 < s.chunk_bytes) };
}

impl MemSource {
    /// A source of these bytes, at most `chunk` of them a call, which fails at the listed calls alone, counted from 0.
    pub fn new(bytes: Vec<u8>, chunk: usize, failing: Vec<u64>) -> MemSource
        requires { 0 < chunk }
        ensures { result ≡ record { bytes = bytes.items; chunk = chunk; failing = failing.items; calls = 0; failed = 0 } }
    {
        MemSource {
            stored: bytes,
            position: 0,
            chunk_bytes: chunk,
            planned: failing,
            call_count: 0,
            fault_count: 0,
        }
    }
}

impl Source for MemSource {
    ghost use Rattle.std.specs.Prelude.{Some};

    ghost left = { λ s. Some s.bytes };

    ghost faults = { λ s. s.failed };

    fn read(&mut self, buf: &mut [u8]) -> Result<usize, Failed>
        ensures within { IfOk result (λ n. n ≤ length buf.old) }
        ensures front { IfOk result (λ n. TakesFront (Some self.old.bytes) (take n buf.new) (Some self.new.bytes)) }
        ensures end { result ≡ Ok 0 → 0 < length buf.old → IsAtEnd (Some self.old.bytes) }
        ensures failed { OnErr result (Rose self.old.failed self.new.failed) }
        ensures unread { OnErr result (Some self.new.bytes ≡ Some self.old.bytes) }
        ensures counted { self.old.failed ≤ self.new.failed }
        ensures planned { IsErr result ↔ Contains self.old.failing self.old.calls }
        ensures amount { IfOk result (λ n. n ≡ min self.old.chunk (min (length buf.old) (length self.old.bytes))) }
        ensures unfailed { OnOk result (self.new.failed ≡ self.old.failed) }
        ensures plan { (self.new.chunk ≡ self.old.chunk) × (self.new.failing ≡ self.old.failing) }
        ensures calls { self.old.calls < 2 ^ 64 - 1 → self.new.calls ≡ self.old.calls + 1 }
    {
        let call = self.call_count;
        self.call_count = call.saturating_add(1);
        if self.planned.contains(&call) {
            self.fault_count = self.fault_count.saturating_add(1);
            return Err(Failed);
        }
        let rest = &self.stored[self.position..];
        let count = self.chunk_bytes.min(buf.len().min(rest.len()));
        buf[..count].copy_from_slice(&rest[..count]);
        self.position += count;
        Ok(count)
    }
}

/// A reader of std as a source. It tells no bytes, and counts each error of the reader.
#[derive(Drop)]
pub struct StdSource<R: Read> {
    reader: R,
    fault_count: u64,
}

impl<R: Read> StdSource<R> {
    /// The reader, with no faults so far.
    pub fn new(reader: R) -> StdSource<R>
        ensures reader { result.reader ≡ reader }
        ensures unfailed { result.fault_count ≡ 0 }
    {
        StdSource {
            reader,
            fault_count: 0,
        }
    }
}

impl<R: Read> Source for StdSource<R> {
    ghost use Rattle.std.specs.Prelude.{None};

    ghost left = { λ _. None };

    ghost faults = { λ s. s.fault_count };

    fn read(&mut self, buf: &mut [u8]) -> Result<usize, Failed> {
        // By hand, since an error is counted.
        match self.reader.read(buf) {
            Ok(count) => Ok(count),
            Err(_) => {
                self.fault_count = self.fault_count.saturating_add(1);
                Err(Failed)
            }
        }
    }
}
