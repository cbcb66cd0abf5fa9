// Items that lie one after another.
ghost use Rattle.std.specs.Prelude.{◌≡◌, ◌↔◌, ◌++◌, [], take, drop, length, slice_get, ◌<◌, ◌≤◌, IsTrue, IfOk, IfSome, Some};

use crate::value::Value;
use std::alloc::{AllocError, Global};
use std::marker::Model;
use std::sync::Arc;

/// Items that lie one after another, which other runs may share. Contracts see them as a list.
#[derive(Drop)]
pub struct Run<T> {
    shared: Arc<Vec<T>>,
    start: usize,
    len: usize,
}

impl<T> Model for Run<T> {
    ghost use Rattle.std.specs.Prelude.{List, ◌+◌, ◌≤◌, length, take, drop};

    ghost Value = { List T };

    ghost view = { λ a. take a.len (drop a.start a.shared.value.items) };

    ghost invariant = { λ a. a.start + a.len ≤ length a.shared.value.items };
}

impl<T: Drop> Run<T> {
    /// A run of these items.
    ///
    /// Fails only for want of memory.
    pub fn new(alloc: Global, items: Vec<T>) -> Result<Run<T>, AllocError>
        ensures made { IfOk result (λ run. run ≡ items.items) }
    {
        let len = items.len();
        // Not by `?`: the error holds the items, which are dropped here.
        match Arc::new(alloc, items) {
            Ok(shared) => Ok(Run {
                shared,
                start: 0,
                len,
            }),
            Err(_) => Err(AllocError),
        }
    }

    /// How many items there are.
    pub fn len(&self) -> usize
        ensures { result ≡ length self.now }
    {
        self.len
    }

    /// Whether there is no item.
    pub fn is_empty(&self) -> bool
        ensures { IsTrue result ↔ (self.now ≡ []) }
    {
        self.as_slice().is_empty()
    }

    /// The items, in order.
    pub fn as_slice(&self) -> &[T]
        ensures { result.now ≡ self.now }
    {
        &self.shared[self.start..self.start + self.len]
    }

    /// The item at a place.
    pub fn item(&self, i: usize) -> &T
        requires { i < length self.now }
        ensures { slice_get self.now i ≡ Some result.now }
    {
        &self.shared[self.start + i]
    }

    /// The same run; its items are not copied.
    ///
    /// Fails only for want of memory.
    pub fn share(&self) -> Result<Run<T>, AllocError>
        ensures same { IfOk result (λ run. run ≡ self.now) }
    {
        let shared = self.shared.clone()?;
        Ok(Run {
            shared,
            start: self.start,
            len: self.len,
        })
    }

    /// The items from a place on, as many as asked at most; they are not copied.
    ///
    /// Fails only for want of memory.
    pub fn slice(&self, offset: usize, length: usize) -> Result<Run<T>, AllocError>
        ensures part { IfOk result (λ run. run ≡ take length (drop offset self.now)) }
    {
        let from = offset.min(self.len);
        let rest = self.len - from;
        let shared = self.shared.clone()?;
        Ok(Run {
            shared,
            start: self.start + from,
            len: length.min(rest),
        })
    }
}

impl Run<Value> {
    /// This run and then another one, where the values right behind this one are the same: so slices
    /// that touch become one run again. No value is copied.
    ///
    /// Fails only for want of memory.
    pub(crate) fn grown_over(&self, next: &Run<Value>) -> Result<Option<Run<Value>>, AllocError>
        ensures joined { IfOk result (λ o. IfSome o (λ run. run ≡ self.now ++ next.now)) }
    {
        let behind = &self.shared[self.start + self.len..];
        if !begin_with(behind, next.as_slice()) {
            return Ok(None);
        }
        let shared = self.shared.clone()?;
        Ok(Some(Run {
            shared,
            start: self.start,
            len: self.len + next.len(),
        }))
    }
}

// Whether the first of these values are the others. It ends at the first that isn't, so a look at
// slices that don't touch is short.
fn begin_with(values: &[Value], others: &[Value]) -> bool
    ensures long { IsTrue result → length others.now ≤ length values.now }
    ensures same { IsTrue result → take (length others.now) values.now ≡ others.now }
{
    if values.len() < others.len() {
        return false;
    }
    for i in 0..others.len() {
        if !values[i].same(&others[i]) {
            return false;
        }
    }
    true
}
