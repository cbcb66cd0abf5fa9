// The block of a ring, a row of places that are each empty or hold an item. Only these functions handle its pointer.
ghost use Rattle.std.specs.Prelude.{◌≡◌, ℕ, ◌<◌, List, Option, Some, None, map, take, drop, replicate, get_or, slice_set, IfOk};
ghost use Rattle.std.specs.Vec.Ownership.{FitsInBlock};
ghost use base.Fml.{ftrue};
ghost use denote.RawPtr.{Ptr};
ghost use Rattle.pu_index.specs.Places.{IsEmptyAt, IsFilledAt, IsRun};
ghost use Rattle.pu_index.specs.PlacesOwned.{places_owned, places_lent, deed_owned};

use std::alloc::{AllocError, Allocator};
use std::marker::{Model, PhantomData, Send, Sync};
use std::mem::{align_of, size_of};
use std::slice;

/// The owner of the places and of the items in them.
pub struct Places<T> {
    base: *mut T,
    ghost slots: { List (Option T) },
}

impl<T> Model for Places<T> {
    ghost also_owns = { λ p. places_owned T.row p.base p.slots };

    ghost also_shares = { λ p _ κ. places_lent T.row p.base p.slots κ };
}

unsafe impl<T: Send> Send for Places<T> {}

unsafe impl<T: Sync> Sync for Places<T> {}

/// The right to give the block of `count` places at `base` back to `alloc`. It takes no space.
pub struct Deed<T, A: Allocator> {
    mark: PhantomData<*const (T, A)>,
    ghost base: { Ptr },
    ghost count: { ℕ },
    ghost alloc: { A },
}

impl<T, A: Allocator> Model for Deed<T, A> {
    ghost also_owns = { λ d. deed_owned T.row (A.dealloc_token d.alloc) d.base d.count };

    ghost also_shares = { λ _ _ _. ftrue };
}

unsafe impl<T, A: Allocator + Send> Send for Deed<T, A> {}

// A `&` to it holds nothing.
unsafe impl<T, A: Allocator> Sync for Deed<T, A> {}

/// A block of `count` empty places.
pub(crate) fn allocate<T, A: Allocator>(
    alloc: &A,
    count: usize,
) -> Result<(Places<T>, Deed<T, A>), AllocError>
    requires { FitsInBlock T.row count }
    ensures { IfOk result (λ r. (r.0.slots ≡ replicate count None) × (r.1.base ≡ r.0.base) × (r.1.count ≡ count) × (r.1.alloc ≡ alloc.now)) }
{
    // A match, whose two arms the proof by hand follows.
    match alloc.allocate(count * size_of::<T>(), align_of::<T>()) {
        Ok(block) => {
            let base = block as *mut T;
            Ok((Places { base }, Deed { mark: PhantomData }))
        }
        Err(error) => Err(error),
    }
}

/// Gives the block back. No place may hold an item, since none is dropped here.
pub(crate) fn deallocate<T, A: Allocator>(
    alloc: &A,
    count: usize,
    places: Places<T>,
    deed: Deed<T, A>,
)
    requires { (places.slots ≡ replicate count None) × (deed.base ≡ places.base) × (deed.count ≡ count) × (deed.alloc ≡ alloc.now) }
{
    let Places { base } = places;
    let Deed { mark: _ } = deed;
    unsafe {
        alloc.deallocate(base as *mut u8, count * size_of::<T>(), align_of::<T>());
    }
}

impl<T> Places<T> {
    /// Puts an item into an empty place.
    pub(crate) fn write(&mut self, index: usize, item: T)
        requires { IsEmptyAt self.old.slots index }
        ensures { (self.new.base ≡ self.old.base) × (self.new.slots ≡ slice_set self.old.slots index (Some item)) }
    {
        unsafe { self.base.add(index).write(item) }
    }

    /// Takes the item out of a place.
    pub(crate) fn read(&mut self, index: usize) -> T
        requires { IsFilledAt self.old.slots index }
        ensures value { get_or self.old.slots index None ≡ Some result }
        ensures slots { (self.new.base ≡ self.old.base) × (self.new.slots ≡ slice_set self.old.slots index None) }
    {
        unsafe { self.base.add(index).read() }
    }

    /// The items in the `len` places from `from` on.
    pub(crate) fn slice(&self, from: usize, len: usize) -> &[T]
        requires { IsRun self.now.slots from len }
        ensures { take len (drop from self.now.slots) ≡ map Some result.now }
    {
        unsafe { slice::from_raw_parts(self.base.add(from), len) }
    }
}
