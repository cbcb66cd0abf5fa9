// Bytes that are read from their start on.
ghost use Rattle.std.specs.Prelude.{◌≡◌, ◌↔◌, ◌+◌, ◌-◌, ◌<◌, ◌≤◌, ◌++◌, ◌≤ℤ◌, pos, length, take, drop, min, IfOk, IsOk, OnOk, OnErr, Err};
ghost use Rattle.pu_index.specs.Reader.{reader, unread, seek_target};
ghost use Rattle.pu_base.specs.declared.error.PolarsUtilsError.TheVariants as refusal;

use crate::mem_slice::MemSlice;
use bytes::Bytes;
use pu_base::{PolarsUtilsError, Result};
use std::io::SeekFrom;
use std::marker::Model;

/// Bytes, and the place up to which they are read.
#[derive(Drop)]
pub struct MemReader {
    data: MemSlice,
    position: usize,
}

impl Model for MemReader {
    ghost use Rattle.std.specs.Prelude.{◌≤◌, length};
    ghost use Rattle.pu_index.specs.Reader.{Reader, reader};

    ghost Value = { Reader };

    ghost view = { λ a. reader a.data a.position };

    ghost invariant = { λ a. a.position ≤ length a.data };
}

impl MemReader {
    /// A reader at the start of some bytes.
    pub fn new(bytes: MemSlice) -> MemReader
        ensures { result ≡ reader bytes 0 }
    {
        MemReader {
            data: bytes,
            position: 0,
        }
    }

    /// A reader at the start of a vector's bytes.
    ///
    /// Fails only for want of memory.
    pub fn from_vec(v: Vec<u8>) -> Result<MemReader>
        ensures same { IfOk result (λ r. r ≡ reader v.items 0) }
        ensures memory { OnErr result (result ≡ Err refusal.OutOfMemory) }
    {
        let bytes = MemSlice::from_vec(v)?;
        Ok(MemReader::new(bytes))
    }

    /// A reader at the start of a shared buffer, which takes no memory.
    pub fn from_bytes(bytes: Bytes) -> MemReader
        ensures { result ≡ reader bytes 0 }
    {
        MemReader::new(MemSlice::from_bytes(bytes))
    }

    /// How many bytes aren't read.
    pub fn remaining_len(&self) -> usize
        ensures { result ≡ length (unread self.now) }
    {
        self.data.len() - self.position
    }

    /// How many bytes there are, read or not.
    pub fn total_len(&self) -> usize
        ensures { result ≡ length self.now.bytes }
    {
        self.data.len()
    }

    /// How many bytes are read.
    pub fn position(&self) -> usize
        ensures value { result ≡ self.now.position }
        ensures within { result ≤ length self.now.bytes }
    {
        self.position
    }

    /// Takes the next `n` bytes, or those that are left.
    ///
    /// Fails only for want of memory; nothing is then read.
    pub fn read_slice(&mut self, n: usize) -> Result<MemSlice>
        ensures read { IfOk result (λ slice. slice ≡ take n (unread self.old)) }
        ensures moved { OnOk result (self.new ≡ reader self.old.bytes (self.old.position + min n (length (unread self.old)))) }
        ensures unchanged { OnErr result (self.new ≡ self.old) }
        ensures memory { OnErr result (result ≡ Err refusal.OutOfMemory) }
    {
        let start = self.position;
        let end = start + n.min(self.data.len() - start);
        let slice = self.data.slice(start..end)?;
        self.position = end;
        Ok(slice)
    }

    /// Reads the next bytes into a buffer, as many as it holds and are left, and answers how many.
    pub fn read(&mut self, buf: &mut [u8]) -> usize
        ensures count { result ≡ min (length buf.old) (length (unread self.old)) }
        ensures read { buf.new ≡ take result (unread self.old) ++ drop result buf.old }
        ensures moved { self.new ≡ reader self.old.bytes (self.old.position + result) }
    {
        let start = self.position;
        let n = buf.len().min(self.data.len() - start);
        buf[..n].copy_from_slice(&self.data.as_slice()[start..start + n]);
        self.position = start + n;
        n
    }

    /// Moves to a place, and answers how many bytes stand before it.
    ///
    /// Fails where the place is before the start or past the end; the reader then stays.
    pub fn seek(&mut self, from: SeekFrom) -> Result<u64>
        ensures ok { IsOk result ↔ ((pos 0 ≤ℤ seek_target from self.old) × (seek_target from self.old ≤ℤ pos (length self.old.bytes))) }
        ensures value { IfOk result (λ at. (pos at ≡ seek_target from self.old) × (self.new ≡ reader self.old.bytes at)) }
        ensures unchanged { OnErr result (self.new ≡ self.old) }
        ensures refused { OnErr result (result ≡ Err refusal.SeekOutOfRange) }
    {
        let len = self.data.len();
        let target = match from {
            SeekFrom::Start(at) => Some(at),
            SeekFrom::End(offset) => (len as u64).checked_add_signed(offset),
            SeekFrom::Current(offset) => (self.position as u64).checked_add_signed(offset),
        };
        match target {
            Some(at) if at <= len as u64 => {
                self.position = at as usize;
                Ok(at)
            }
            _ => Err(PolarsUtilsError::SeekOutOfRange),
        }
    }

    /// An equal reader.
    ///
    /// Fails only for want of memory.
    pub fn try_clone(&self) -> Result<MemReader>
        ensures same { IfOk result (λ r. r ≡ self.now) }
        ensures memory { OnErr result (result ≡ Err refusal.OutOfMemory) }
    {
        let data = self.data.try_clone()?;
        Ok(MemReader {
            data,
            position: self.position,
        })
    }
}

impl From<MemSlice> for MemReader {
    ghost use Rattle.std.specs.Prelude.{◌≡◌};
    ghost use Rattle.pu_index.specs.Reader.{reader};

    ghost from_gives = { λ bytes r. r ≡ reader bytes 0 };

    fn from(bytes: MemSlice) -> MemReader {
        MemReader::new(bytes)
    }
}
