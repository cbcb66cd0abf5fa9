// The keys of a map over bytes: each with its hash, in the order of insertion, and found by both.
//
// The keys' bytes lie one after another in one buffer. A key's link says where, and its bucket's chain of links goes from each
// key to the one put in before it, so the numbers along a chain fall.
ghost use Rattle.std.specs.Prelude.{◌≡◌, ◌≢◌, ℕ, ◌+◌, ◌-◌, ◌<◌, ◌≤◌, ◌^◌, [], ◌∷◌, ◌++◌, length, take, drop, replicate, map, slice_get, Some, slice_index, vec_len, vec_capacity, IfOk, IfSome, IfNone, OnOk, OnErr, IsOk, IsTrue, ◌↔◌};
ghost use Rattle.pu_map.specs.Chains.{IsChained, bucket_of};
ghost use Rattle.pu_map.specs.Links.{hashes, nexts, key_of, keys_of, IsSound, stored};
ghost use Rattle.pu_map.specs.Keys.{IsAbsent, AreDistinct};

use pu_partition::hash_to_partition;
use std::alloc::{AllocError, Global};
use std::marker::Model;

/// Where the bytes of a key are, and the one before it in its bucket.
#[derive(Clone, Copy)]
pub struct Link {
    pub(crate) hash: u64,
    pub(crate) start: usize,
    pub(crate) size: u32,
    // One more than the number of the key before, or 0 where there is none.
    pub(crate) next: u32,
}

// The bucket of a hash: the top bits of its product with the seed.
#[inline(always)]
fn bucket_of(seed: u64, count: usize, hash: u64) -> usize
    requires { 0 < count }
    ensures value { result ≡ bucket_of seed count hash }
    ensures within { result < count }
{
    hash_to_partition(hash.wrapping_mul(seed), count)
}

// The bytes of a link's key.
#[inline(always)]
fn bytes_of<'a>(bytes: &'a [u8], link: &Link) -> &'a [u8]
    requires { link.now.start + link.now.size ≤ length bytes.now }
    ensures { result.now ≡ take link.now.size (drop link.now.start bytes.now) }
{
    &bytes[link.start..link.start + link.size as usize]
}

// Whether a link's key has this hash and these bytes. The hashes are compared first.
#[inline(always)]
fn is_key(bytes: &[u8], link: &Link, hash: u64, key: &[u8]) -> bool
    requires { link.now.start + link.now.size ≤ length bytes.now }
    ensures { IsTrue result ↔ (key_of bytes.now link.now ≡ (hash, key.now)) }
{
    link.hash == hash && bytes_of(bytes, link) == key
}

// The number of the key with this hash and these bytes.
#[inline(always)]
fn find_link(
    heads: &[u32],
    links: &[Link],
    bytes: &[u8],
    seed: u64,
    hash: u64,
    key: &[u8],
) -> Option<u32>
    requires { IsSound seed heads.now links.now bytes.now }
    ensures found { IfSome result (λ i. slice_get (keys_of bytes.now links.now) i ≡ Some (hash, key.now)) }
    ensures absent { IfNone result (IsAbsent (keys_of bytes.now links.now) hash key.now) }
{
    if heads.is_empty() {
        return None;
    }
    let mut next = heads[bucket_of(seed, heads.len(), hash)];
    'chain: while next != 0 {
        let link = &links[next as usize - 1];
        if is_key(bytes, link, hash, key) {
            return Some(next - 1);
        }
        next = link.next;
    }
    None
}

// Puts link `at`, whose bucket's chain has all links before it, at the chain's head.
#[inline(always)]
fn attach(heads: &mut [u32], links: &mut [Link], seed: u64, at: usize)
    requires within { at < length links.old }
    requires fits { length links.old < 2 ^ 32 }
    requires buckets { 0 < length heads.old }
    requires chained { IsChained (bucket_of seed (length heads.old)) heads.old (hashes links.old) (nexts links.old) at }
    ensures chained { IsChained (bucket_of seed (length heads.old)) heads.new (hashes links.new) (nexts links.new) (at + 1) }
    ensures stored { map stored links.new ≡ map stored links.old }
{
    let bucket = bucket_of(seed, heads.len(), links[at].hash);
    let link = &mut links[at];
    link.next = heads[bucket];
    heads[bucket] = at as u32 + 1;
}

// Chains all links anew.
fn attach_all(heads: &mut [u32], links: &mut [Link], seed: u64)
    requires fits { length links.old < 2 ^ 32 }
    requires loaded { length links.old ≤ length heads.old }
    requires empty { heads.old ≡ replicate (length heads.old) 0 }
    ensures chained { IsChained (bucket_of seed (length heads.old)) heads.new (hashes links.new) (nexts links.new) (length links.new) }
    ensures stored { map stored links.new ≡ map stored links.old }
{
    'links: for at in 0..links.len() {
        attach(heads, links, seed, at);
    }
}

// The heads of this many buckets, with all links chained anew.
fn chain_anew(
    alloc: Global,
    links: &mut [Link],
    count: usize,
    seed: u64,
) -> Result<Vec<u32>, AllocError>
    requires fits { length links.old < 2 ^ 32 }
    requires loaded { length links.old ≤ count }
    ensures chained { IfOk result (λ heads. IsChained (bucket_of seed count) heads.items (hashes links.new) (nexts links.new) (length links.new)) }
    ensures count { IfOk result (λ heads. vec_len heads ≡ count) }
    ensures stored { map stored links.new ≡ map stored links.old }
    ensures unchanged { OnErr result (links.new ≡ links.old) }
{
    let mut heads = vec![in alloc; 0u32; count]?;
    attach_all(heads.as_mut_slice(), links, seed);
    Ok(heads)
}

// Puts a key in, for which there is room but for its bytes.
#[inline(always)]
fn push_link(
    heads: &mut [u32],
    links: &mut Vec<Link>,
    bytes: &mut Vec<u8>,
    seed: u64,
    hash: u64,
    key: &[u8],
) -> Result<(), AllocError>
    requires sound { IsSound seed heads.old links.old.items bytes.old.items }
    requires buckets { vec_len links.old < length heads.old }
    requires room { vec_len links.old < vec_capacity links.old }
    requires few { vec_len links.old < 2 ^ 32 - 1 }
    requires short { length key.now < 2 ^ 32 }
    requires absent { IsAbsent (keys_of bytes.old.items links.old.items) hash key.now }
    ensures sound { IsSound seed heads.new links.new.items bytes.new.items }
    ensures pushed { OnOk result (keys_of bytes.new.items links.new.items ≡ keys_of bytes.old.items links.old.items ++ (hash, key.now) ∷ []) }
    ensures kept { OnErr result (keys_of bytes.new.items links.new.items ≡ keys_of bytes.old.items links.old.items) }
    ensures one { vec_len links.new ≤ vec_len links.old + 1 }
    ensures capacity { vec_capacity links.new ≡ vec_capacity links.old }
    ensures key_room { vec_capacity bytes.old - vec_len bytes.old ≤ vec_capacity bytes.new - vec_len bytes.new + length key.now }
    ensures succeeds { vec_len bytes.old + length key.now ≤ vec_capacity bytes.old → IsOk result }
{
    let start = bytes.len();
    bytes.extend_from_slice(key)?;
    let at = links.len();
    links.push_reserved(Link {
        hash,
        start,
        size: key.len() as u32,
        next: 0,
    });
    attach(heads, links.as_mut_slice(), seed, at);
    Ok(())
}

/// The keys of a map. Contracts see the hashes and keys in the order of insertion, and how many keys, and bytes of keys, may be
/// put in without taking memory.
#[derive(Drop)]
pub struct KeyTable {
    heads: Vec<u32>,
    links: Vec<Link>,
    bytes: Vec<u8>,
    seed: u64,
}

impl Model for KeyTable {
    ghost use Rattle.std.specs.Prelude.{◌-◌, min, vec_len, vec_capacity};
    ghost use Rattle.pu_map.specs.Keys.{KeyList};

    ghost Value = { KeyList };

    ghost use Rattle.pu_map.specs.Links.{keys_of, IsSound};

    ghost view = { λ t. record {
      keys = keys_of t.bytes.items t.links.items;
      room = min (vec_len t.heads) (vec_capacity t.links) - vec_len t.links;
      key_room = vec_capacity t.bytes - vec_len t.bytes;
    } };

    ghost invariant = { λ t. IsSound t.seed t.heads.items t.links.items t.bytes.items };
}

impl KeyTable {
    /// A table without keys, which takes no memory. The seed is made odd.
    pub(crate) fn new(alloc: Global, seed: u64) -> KeyTable
        ensures { result.keys ≡ [] }
    {
        KeyTable {
            heads: Vec::new(alloc),
            links: Vec::new(alloc),
            bytes: Vec::new(alloc),
            seed: seed | 1,
        }
    }

    pub(crate) fn len(&self) -> usize
        ensures count { result ≡ length self.now.keys }
        ensures fits { result < 2 ^ 32 }
        ensures distinct { AreDistinct self.now.keys }
    {
        self.links.len()
    }

    fn room(&self) -> usize
        ensures { result ≡ self.now.room }
    {
        self.heads.len().min(self.links.capacity()) - self.links.len()
    }

    /// The hash and the bytes of a key by its number.
    #[inline(always)]
    pub(crate) fn key(&self, index: usize) -> (u64, &[u8])
        requires { index < length self.now.keys }
        ensures { slice_get self.now.keys index ≡ Some (result.0, result.1.now) }
    {
        let link = &self.links[index];
        (link.hash, bytes_of(&self.bytes, link))
    }

    /// The number of the key with this hash and these bytes.
    #[inline(always)]
    pub(crate) fn find(&self, hash: u64, key: &[u8]) -> Option<u32>
        ensures found { IfSome result (λ i. slice_get self.now.keys i ≡ Some (hash, key.now)) }
        ensures absent { IfNone result (IsAbsent self.now.keys hash key.now) }
        ensures distinct { AreDistinct self.now.keys }
    {
        find_link(&self.heads, &self.links, &self.bytes, self.seed, hash, key)
    }

    /// Makes room for so many keys more, but for their bytes. It fails only for want of memory.
    pub(crate) fn reserve(&mut self, alloc: Global, additional: usize) -> Result<(), AllocError>
        ensures room { OnOk result (additional ≤ self.new.room) }
        ensures succeeds { additional ≤ self.old.room → IsOk result }
        ensures keys { self.new.keys ≡ self.old.keys }
        ensures more_room { self.old.room ≤ self.new.room }
        ensures key_room { self.new.key_room ≡ self.old.key_room }
    {
        if additional <= self.room() {
            return Ok(());
        }
        self.links.reserve(additional)?;
        let wanted = self.links.len() + additional;
        let count = self.heads.len();
        if wanted > count {
            let more = wanted.max(count.saturating_mul(2)).max(8);
            self.heads = chain_anew(alloc, self.links.as_mut_slice(), more, self.seed)?;
        }
        Ok(())
    }

    /// Puts a key in. It fails only for want of memory, and the keys are then as before.
    #[inline(always)]
    pub(crate) fn push(&mut self, alloc: Global, hash: u64, key: &[u8]) -> Result<(), AllocError>
        requires few { length self.old.keys < 2 ^ 32 - 1 }
        requires short { length key.now < 2 ^ 32 }
        requires absent { IsAbsent self.old.keys hash key.now }
        ensures pushed { OnOk result (self.new.keys ≡ self.old.keys ++ (hash, key.now) ∷ []) }
        ensures kept { OnErr result (self.new.keys ≡ self.old.keys) }
        ensures succeeds { 0 < self.old.room → length key.now ≤ self.old.key_room → IsOk result }
        ensures room { self.old.room ≤ self.new.room + 1 }
        ensures key_room { self.old.key_room ≤ self.new.key_room + length key.now }
    {
        if self.room() == 0 {
            self.reserve(alloc, 1)?;
        }
        push_link(
            self.heads.as_mut_slice(),
            &mut self.links,
            &mut self.bytes,
            self.seed,
            hash,
            key,
        )
    }
}
