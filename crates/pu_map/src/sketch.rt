//! A sketch of how many different hashes were seen: 256 registers, each a maximum over the hashes that fall to it.
ghost use Rattle.std.specs.Prelude.{◌≡◌, ℕ, ◌++◌, ◌∷◌, [], List, replicate, length, slice_set, slice_index, max, ◌<◌, IfOk, OnErr, Err};
ghost use Rattle.pu_base.specs.declared.error.PolarsUtilsError.TheVariants as refusal;
ghost use Rattle.pu_map.specs.Sketch.{with_hash, combined, sketch_of};

use pu_base::Result;
use std::alloc::Global;
use std::marker::Model;

// Multiplied by this odd number a hash puts all of its bits into the top ones.
const ARBITRARY_ODD: u64 = 0x902813a5785dc787;

/// A sketch of the hashes that were inserted. Contracts see its 256 registers.
#[derive(Drop)]
pub struct CardinalitySketch {
    buckets: Box<[u8; 256]>,
}

impl Model for CardinalitySketch {
    ghost use Rattle.std.specs.Prelude.{List, ℕ};

    ghost Value = { List ℕ };

    ghost view = { λ s. s.buckets.value };
}

impl CardinalitySketch {
    /// A sketch without hashes. It fails only for want of memory.
    pub fn new(alloc: Global) -> Result<CardinalitySketch>
        ensures empty { IfOk result (λ s. s ≡ replicate 256 0) }
        ensures memory { OnErr result (result ≡ Err refusal.OutOfMemory) }
    {
        Ok(CardinalitySketch {
            buckets: Box::new(alloc, [0; 256])?,
        })
    }

    /// Adds a hash: one register becomes the maximum of itself and the hash's rank.
    pub fn insert(&mut self, h: u64)
        ensures { self.new ≡ with_hash self.old h }
    {
        let g = h.wrapping_mul(ARBITRARY_ODD);
        let index = (g >> 56) as usize;
        let rank = 1 + (g << 8).leading_zeros() as u8;
        raise(&mut *self.buckets, index, rank);
    }

    /// Adds the hashes of another sketch: each register becomes the maximum of both.
    pub fn combine(&mut self, other: &CardinalitySketch)
        ensures { self.new ≡ combined self.old other.now }
    {
        raise_all(&mut *self.buckets, &*other.buckets);
    }

    /// The registers.
    pub fn registers(&self) -> &[u8; 256]
        ensures { result.now ≡ self.now }
    {
        &*self.buckets
    }

    /// An equal sketch. It fails only for want of memory.
    pub fn try_clone(&self, alloc: Global) -> Result<CardinalitySketch>
        ensures equal { IfOk result (λ s. s ≡ self.now) }
        ensures memory { OnErr result (result ≡ Err refusal.OutOfMemory) }
    {
        Ok(CardinalitySketch {
            buckets: Box::new(alloc, *self.buckets)?,
        })
    }
}

fn raise(registers: &mut [u8], index: usize, rank: u8)
    requires { index < length registers.old }
    ensures { registers.new ≡ slice_set registers.old index (max (slice_index registers.old index) rank) }
{
    registers[index] = registers[index].max(rank);
}

fn raise_all(registers: &mut [u8], others: &[u8])
    requires { length registers.old ≡ length others.now }
    ensures { registers.new ≡ combined registers.old others.now }
{
    'registers: for i in 0..registers.len() {
        registers[i] = registers[i].max(others[i]);
    }
}

/// The laws of combining, of sketches as lists of registers.
pub fn combining_is_a_maximum()
    ensures associative { (a b c : List ℕ) → combined (combined a b) c ≡ combined a (combined b c) }
    ensures commutative { (a b : List ℕ) → combined a b ≡ combined b a }
    ensures idempotent { (a : List ℕ) → combined a a ≡ a }
{}

/// The sketch of two lists of hashes, one after the other, is the combination of their sketches.
pub fn combining_inserts_both()
    ensures { (xs ys : List ℕ) → combined (sketch_of xs) (sketch_of ys) ≡ sketch_of (xs ++ ys) }
{}
