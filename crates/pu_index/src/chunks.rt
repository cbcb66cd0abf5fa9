// The chunks of a slice.
ghost use Rattle.std.specs.Prelude.{◌≡◌, ◌-◌, ◌*◌, ◌/◌, ◌<◌, ◌≤◌, length, drop, min, IfSome, Some};
ghost use Rattle.std.specs.Iterator.{at_most, UpTo};
ghost use Rattle.std.specs.Iterator.SizeHint.{IsWithinCount};
ghost use Rattle.pu_index.specs.ChunkSteps.{chunk_total, chunk_steps, chunk_steps_back};

use std::iter::{DoubleEndedIterator, ExactSizeIterator};

/// An iterator over a slice in chunks of a size, of which the last may be shorter. Beside what std's
/// has, it shows the slice that is left and the size.
#[derive(Drop)]
pub struct Chunks<'a, T> {
    slice: &'a [T],
    chunk_size: usize,
    ghost positive: { 0 < chunk_size },
}

impl<'a, T> Chunks<'a, T> {
    ghost use Rattle.pu_index.specs.ChunksLeft.{left, size};

    /// The chunks of a slice, whose size has to be at least 1.
    pub fn new(slice: &'a [T], chunk_size: usize) -> Chunks<'a, T>
        requires { 1 ≤ chunk_size }
        ensures whole { left result ≡ slice.now }
        ensures size { size result ≡ chunk_size }
    {
        Chunks { slice, chunk_size }
    }

    /// What is left of the slice.
    pub fn as_slice(&self) -> &'a [T]
        ensures { result.now ≡ left self.now }
    {
        self.slice
    }

    /// How many items a chunk has; the last may have fewer.
    pub fn chunk_size(&self) -> usize
        ensures value { result ≡ size self.now }
        ensures positive { 1 ≤ result }
    {
        self.chunk_size
    }

    /// Leaves `n` chunks out, or all that are left.
    pub fn skip_in_place(&mut self, n: usize)
        ensures left { left self.new ≡ drop (n * size self.old) (left self.old) }
        ensures size { size self.new ≡ size self.old }
    {
        let slice = self.slice;
        let skipped = n.saturating_mul(self.chunk_size).min(slice.len());
        self.slice = &slice[skipped..];
    }
}

impl<'a, T> Iterator for Chunks<'a, T> {
    type Item = &'a [T];

    ghost use Rattle.std.specs.Prelude.{length};
    ghost use Rattle.std.specs.Iterator.{at_most};
    ghost use Rattle.pu_index.specs.ChunkSteps.{chunk_total, chunk_steps};
    ghost use Rattle.pu_index.specs.ChunksLeft.{left, size};

    ghost next_gives = { λ s r t. chunk_steps (left s) (size s) r (left t) (size t) };

    ghost remaining = { λ s. at_most (chunk_total (length (left s)) (size s)) };

    fn next(&mut self) -> Option<&'a [T]> {
        let slice = self.slice;
        if slice.is_empty() {
            return None;
        }
        let (item, rest) = slice.split_at(self.chunk_size.min(slice.len()));
        self.slice = rest;
        Some(item)
    }

    fn size_hint(&self) -> (usize, Option<usize>)
        ensures lower { IsWithinCount result.0 (at_most (chunk_total (length (left self.now)) (size self.now))) }
        ensures upper { IfSome result.1 (UpTo (at_most (chunk_total (length (left self.now)) (size self.now)))) }
        ensures count { result.0 ≡ chunk_total (length (left self.now)) (size self.now) }
        ensures exact { result.1 ≡ Some result.0 }
    {
        let len = self.len();
        (len, Some(len))
    }
}

impl<'a, T> DoubleEndedIterator for Chunks<'a, T> {
    ghost use Rattle.pu_index.specs.ChunkSteps.{chunk_steps_back};
    ghost use Rattle.pu_index.specs.ChunksLeft.{left, size};

    ghost next_back_gives = { λ s r t. chunk_steps_back (left s) (size s) r (left t) (size t) };

    fn next_back(&mut self) -> Option<&'a [T]> {
        let slice = self.slice;
        if slice.is_empty() {
            return None;
        }
        let whole_chunks = (slice.len() - 1) / self.chunk_size;
        let (rest, item) = slice.split_at(whole_chunks * self.chunk_size);
        self.slice = rest;
        Some(item)
    }
}

impl<'a, T> ExactSizeIterator for Chunks<'a, T> {
    fn len(&self) -> usize {
        self.slice.len().div_ceil(self.chunk_size)
    }
}

impl<'a, T> Clone for Chunks<'a, T> {
    ghost use Rattle.std.specs.Prelude.{◌≡◌, ⊤};
    ghost use Rattle.pu_index.specs.ChunksLeft.{left, size};

    ghost is_clone = { λ x y. (left y ≡ left x) × (size y ≡ size x) };

    ghost is_infallible = { λ _. ⊤ };

    fn clone(&self) -> std::result::Result<Chunks<'a, T>, std::alloc::AllocError> {
        Ok(Chunks {
            slice: self.slice,
            chunk_size: self.chunk_size,
        })
    }
}
