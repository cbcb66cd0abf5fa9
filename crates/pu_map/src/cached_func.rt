//! A function with a cache of its answers.
ghost use Rattle.std.specs.Prelude.{◌≡◌, ℕ, ◌<◌, ◌≤◌, ◌/◌, ◌^◌, max, length, true, false, Some, None, Err, IfSome, IfOk, OnErr};
ghost use Rattle.std.specs.Fn.{AlwaysReturns};
ghost use Rattle.std.specs.Int.{IsPowerOfTwo};
ghost use Rattle.pu_base.specs.declared.error.PolarsUtilsError.TheVariants as refusal;
ghost use Rattle.pu_map.specs.Cache.{key_hash, slot_at, place_of, place_to_fill, value_at, touched, filled};
ghost use Rattle.pu_map.specs.CachedFunc.{DependsOnArgument, Computes};

use crate::cache::FastFixedCache;
use pu_base::Result;
use std::alloc::Global;
use std::hash::Hash;

/// A function whose last answers are kept. It pays where an argument costs less to hash and to compare than the answer to compute.
#[derive(Drop)]
pub struct FastCachedFunc<T, R, F> {
    pub(crate) func: F,
    pub(crate) cache: FastFixedCache<T, R>,
}

impl<T: Hash + Eq + Clone + Drop, R: Copy, F: FnMut(T) -> R> FastCachedFunc<T, R, F> {
    /// The function with an empty cache of the next power of two of `max(size, 16)` slots. It fails only for want of memory.
    pub fn new(alloc: Global, func: F, size: usize) -> Result<FastCachedFunc<T, R, F>>
    where
        F: Drop,
        requires { size ≤ 2 ^ 31 }
        ensures func { IfOk result (λ c. c.func ≡ func) }
        ensures power { IfOk result (λ c. IsPowerOfTwo (length c.cache.slots)) }
        ensures enough { IfOk result (λ c. max size 16 ≤ length c.cache.slots) }
        ensures least { IfOk result (λ c. length c.cache.slots / 2 < max size 16) }
        ensures empty { IfOk result (λ c. (i : ℕ) → slot_at c.cache.slots i ≡ None) }
        ensures counter { IfOk result (λ c. c.cache.counter ≡ 1) }
        ensures computes { (answer : T → R) → AlwaysReturns F.FnMut (λ x r. r ≡ answer x.0) func → IfOk result (Computes F.FnMut answer) }
        ensures memory { OnErr result (result ≡ Err refusal.OutOfMemory) }
    {
        let cache = FastFixedCache::new(alloc, size)?;
        Ok(FastCachedFunc { func, cache })
    }

    /// What the function answers for `x`, from the cache if it is to be used and has it. It fails only for want of memory for a
    /// copy of `x`, and then calls nothing and changes nothing.
    ///
    /// The answer is the function's where that depends on its argument alone: equal arguments, and copies, have one answer, and
    /// no call changes it.
    pub fn eval(&mut self, x: T, use_cache: bool) -> Result<R>
        requires { F.IsAlwaysCallable self.old.func }
        ensures callable { F.IsAlwaysCallable self.new.func }
        ensures answers { (answer : T → R) → DependsOnArgument T.eq T.is_clone answer → Computes F.FnMut answer self.old → IfOk result (λ r. r ≡ answer x) }
        ensures computes { (answer : T → R) → DependsOnArgument T.eq T.is_clone answer → Computes F.FnMut answer self.old → Computes F.FnMut answer self.new }
        ensures direct { use_cache ≡ false → IfOk result (λ r. F.step self.old.func x r self.new.func × (self.new.cache ≡ self.old.cache)) }
        ensures found { use_cache ≡ true → IfSome (place_of T.eq self.old.cache.slots (key_hash (T.hash_input x)) x) (λ i. (self.new.func ≡ self.old.func) × (self.new.cache ≡ touched self.old.cache i) × IfOk result (λ r. value_at self.old.cache.slots (Some i) ≡ Some r)) }
        ensures put { use_cache ≡ true → place_of T.eq self.old.cache.slots (key_hash (T.hash_input x)) x ≡ None → IfOk result (λ r. F.step self.old.func x r self.new.func × ((key : T) × T.is_clone x key × (self.new.cache ≡ filled self.old.cache (place_to_fill T.eq self.old.cache.slots (key_hash (T.hash_input key)) key) key r))) }
        ensures unchanged { OnErr result (self.new ≡ self.old) }
        ensures memory { OnErr result (result ≡ Err refusal.OutOfMemory) }
    {
        if !use_cache {
            return Ok((self.func)(x));
        }
        if let Some(value) = self.cache.get(&x) {
            return Ok(*value);
        }
        let key = x.clone()?;
        let value = (self.func)(x);
        self.cache.insert(key, value);
        Ok(value)
    }
}
