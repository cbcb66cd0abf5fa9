// Bytes with several owners.
ghost use Rattle.std.specs.Prelude.{◌≡◌, ◌↔◌, ◌<◌, ◌≤◌, ◌^◌, [], length, slice_range, IfOk, IsTrue, OnErr, Err};
ghost use Rattle.pu_base.specs.declared.error.PolarsUtilsError.TheVariants as refusal;

use bytes::Bytes;
use pu_base::Result;
use std::alloc::Global;
use std::convert::AsSlice;
use std::marker::Model;
use std::ops::Range;

/// A run of bytes, seen as a list of them.
#[derive(Drop)]
pub struct MemSlice {
    bytes: Bytes,
}

impl Model for MemSlice {
    ghost use Rattle.std.specs.Prelude.{List, ℕ};

    ghost Value = { List ℕ };

    ghost view = { λ a. a.bytes };
}

impl MemSlice {
    /// No byte.
    pub fn empty() -> MemSlice
        ensures { result ≡ [] }
    {
        MemSlice {
            bytes: Bytes::new(),
        }
    }

    /// The bytes of a vector.
    ///
    /// Fails only for want of memory.
    pub fn from_vec(v: Vec<u8>) -> Result<MemSlice>
        ensures same { IfOk result (λ slice. slice ≡ v.items) }
        ensures memory { OnErr result (result ≡ Err refusal.OutOfMemory) }
    {
        let bytes = Bytes::from_vec(v)?;
        Ok(MemSlice { bytes })
    }

    /// The bytes of a shared buffer, which takes no memory.
    pub fn from_bytes(bytes: Bytes) -> MemSlice
        ensures { result ≡ bytes }
    {
        MemSlice { bytes }
    }

    /// Bytes that live as long as the program, which takes no memory.
    pub fn from_static(bytes: &'static [u8]) -> MemSlice
        ensures { result ≡ bytes.now }
    {
        MemSlice {
            bytes: Bytes::from_static(bytes),
        }
    }

    /// A copy of the bytes.
    ///
    /// Fails only for want of memory.
    pub fn to_vec(&self, alloc: Global) -> Result<Vec<u8>>
        ensures same { IfOk result (λ v. v.items ≡ self.now) }
        ensures memory { OnErr result (result ≡ Err refusal.OutOfMemory) }
    {
        let v = Vec::from_slice(alloc, self.bytes.as_slice())?;
        Ok(v)
    }

    /// How many bytes there are.
    pub fn len(&self) -> usize
        ensures value { result ≡ length self.now }
        ensures bound { result < 2 ^ 63 }
    {
        self.bytes.len()
    }

    /// Whether there is no byte.
    pub fn is_empty(&self) -> bool
        ensures { IsTrue result ↔ (self.now ≡ []) }
    {
        self.bytes.is_empty()
    }

    /// The bytes.
    pub fn as_slice(&self) -> &[u8]
        ensures { result.now ≡ self.now }
    {
        self.bytes.as_slice()
    }

    /// The bytes of a range, which has to lie within and mustn't end before its start.
    ///
    /// Fails only for want of memory.
    pub fn slice(&self, range: Range<usize>) -> Result<MemSlice>
        requires ordered { range.start ≤ range.end }
        requires within { range.end ≤ length self.now }
        ensures part { IfOk result (λ slice. slice ≡ slice_range self.now range.start range.end) }
        ensures memory { OnErr result (result ≡ Err refusal.OutOfMemory) }
    {
        let bytes = self.bytes.slice(range)?;
        Ok(MemSlice { bytes })
    }

    /// Equal bytes.
    ///
    /// Fails only for want of memory.
    pub fn try_clone(&self) -> Result<MemSlice>
        ensures same { IfOk result (λ slice. slice ≡ self.now) }
        ensures memory { OnErr result (result ≡ Err refusal.OutOfMemory) }
    {
        let bytes = self.bytes.clone()?;
        Ok(MemSlice { bytes })
    }
}

impl AsSlice<u8> for MemSlice {
    ghost items = { λ slice. slice };

    fn as_slice(&self) -> &[u8] {
        self.bytes.as_slice()
    }
}

impl Default for MemSlice {
    ghost use Rattle.std.specs.Prelude.{◌≡◌, []};

    ghost is_default = { λ slice. slice ≡ [] };

    fn default() -> MemSlice {
        MemSlice::empty()
    }
}

impl From<Bytes> for MemSlice {
    ghost use Rattle.std.specs.Prelude.{◌≡◌};

    ghost from_gives = { λ bytes slice. slice ≡ bytes };

    fn from(bytes: Bytes) -> MemSlice {
        MemSlice::from_bytes(bytes)
    }
}
