// Vectors that are filled, converted and filtered in place.
ghost use Rattle.std.specs.Prelude.{◌≡◌, ◌+◌, ◌<◌, ◌++◌, ◌∷◌, [], map, replicate, length, vec_len, vec_capacity, IfOk, OnOk, OnErr, Err};
ghost use Rattle.std.specs.Fn.{CalledAt};
ghost use Rattle.std.specs.VecDeque.{deque_len, deque_capacity};
ghost use Rattle.pu_index.specs.Calls.{Calls, Filters, kept};
ghost use Rattle.pu_base.specs.declared.error.PolarsUtilsError.TheVariants as refusal;

use num_traits::Zero;
use pu_base::Result;
use std::alloc::Global;
use std::collections::VecDeque;
use std::mem;

/// Makes a vector that many times a value, whatever it held.
///
/// Fails only for want of memory; the vector is then as before.
pub fn fill_or_alloc<T: Copy + Zero>(v: &mut Vec<T>, new_len: usize, value: T) -> Result<()>
    ensures filled { OnOk result (v.new.items ≡ replicate new_len value) }
    ensures unchanged { OnErr result (v.new.items ≡ v.old.items) }
    ensures memory { OnErr result (result ≡ Err refusal.OutOfMemory) }
{
    let len = v.len();
    v.reserve(new_len.saturating_sub(len))?;
    v.clear();
    v.resize(new_len, value)?;
    Ok(())
}

/// Appends a value to a vector that has room for it, so that no memory is taken.
pub fn push_unchecked<T>(v: &mut Vec<T>, value: T)
    requires { vec_len v.old < vec_capacity v.old }
    ensures items { v.new.items ≡ v.old.items ++ value ∷ [] }
    ensures len { vec_len v.new ≡ vec_len v.old + 1 }
    ensures capacity { vec_capacity v.new ≡ vec_capacity v.old }
{
    v.push_reserved(value);
}

/// What `f` answers at each item, in order.
///
/// Fails only for want of memory.
pub fn convert<T, O: Drop, F: FnMut(&T) -> O>(alloc: Global, v: &[T], mut f: F) -> Result<Vec<O>>
    requires { F.IsAlwaysCallable f }
    ensures answers { IfOk result (λ out. (last : F) × Calls (CalledAt F.FnMut) f v.now out.items last) }
    ensures memory { OnErr result (result ≡ Err refusal.OutOfMemory) }
{
    let mut out = Vec::with_capacity(alloc, v.len())?;
    for item in v {
        let answer = f(item);
        out.push(answer)?;
    }
    Ok(out)
}

/// What `f` answers at each item, in order, where it takes the items.
///
/// Fails only for want of memory.
pub fn convert_owned<T: Drop, O: Drop, F: FnMut(T) -> O>(
    alloc: Global,
    v: Vec<T>,
    mut f: F,
) -> Result<Vec<O>>
    requires { F.IsAlwaysCallable f }
    ensures answers { IfOk result (λ out. (last : F) × Calls F.step f v.items out.items last) }
    ensures memory { OnErr result (result ≡ Err refusal.OutOfMemory) }
{
    let mut out = Vec::with_capacity(alloc, v.len())?;
    for item in v {
        let answer = f(item);
        out.push(answer)?;
    }
    Ok(out)
}

/// Calls `f` at the pairs of two vectors of equal length, in order, and leaves in them the parts of
/// the pairs that it answers. No memory is taken.
pub fn inplace_zip_filtermap<T, U, F: FnMut(T, U) -> Option<(T, U)>>(
    x: &mut Vec<T>,
    y: &mut Vec<U>,
    mut f: F,
)
    requires same_length { vec_len x.old ≡ vec_len y.old }
    requires callable { F.IsAlwaysCallable f }
    ensures { Filters (λ p a r q. F.step p a.0 a.1 r q) f x.old.items y.old.items x.new.items y.new.items }
{
    let mut firsts = take_all(x);
    let mut seconds = take_all(y);
    for _turn in 0..firsts.len() {
        let first = take_front(&mut firsts);
        let second = take_front(&mut seconds);
        keep(&mut firsts, &mut seconds, f(first, second));
    }
    give_back(x, firsts);
    give_back(y, seconds);
}

/// Takes the items out of a vector.
fn take_all<T>(v: &mut Vec<T>) -> VecDeque<T>
    ensures items { result.items ≡ v.old.items }
    ensures len { deque_len result ≡ vec_len v.old }
    ensures empty { v.new.items ≡ [] }
{
    let alloc = *v.allocator();
    VecDeque::from_vec(mem::replace(v, Vec::new(alloc)))
}

/// Puts items into a vector that has none.
fn give_back<T>(v: &mut Vec<T>, items: VecDeque<T>)
    requires { v.old.items ≡ [] }
    ensures { v.new.items ≡ items.items }
{
    mem::replace(v, items.into_vec()).destroy_empty();
}

/// Takes the first item, which leaves room for one.
fn take_front<T>(items: &mut VecDeque<T>) -> T
    requires { 0 < deque_len items.old }
    ensures item { items.old.items ≡ result ∷ items.new.items }
    ensures room { deque_len items.new < deque_capacity items.new }
{
    items.pop_front().unwrap()
}

/// Appends the parts of a pair, if there is one.
fn keep<T, U>(firsts: &mut VecDeque<T>, seconds: &mut VecDeque<U>, answer: Option<(T, U)>)
    requires firsts { deque_len firsts.old < deque_capacity firsts.old }
    requires seconds { deque_len seconds.old < deque_capacity seconds.old }
    ensures firsts { firsts.new.items ≡ firsts.old.items ++ map (λ p. p.0) (kept (answer ∷ [])) }
    ensures seconds { seconds.new.items ≡ seconds.old.items ++ map (λ p. p.1) (kept (answer ∷ [])) }
{
    if let Some((first, second)) = answer {
        firsts.push_back_reserved(first);
        seconds.push_back_reserved(second);
    }
}
