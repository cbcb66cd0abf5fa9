// The places of a map: each has a value or nothing.
ghost use Rattle.std.specs.Prelude.{◌≡◌, ◌≤◌, ℕ, IsSome, Some, IsOk, OnOk, OnErr, vec_len, vec_capacity};
ghost use Rattle.std.specs.Borrow.{sem};
ghost use Rattle.keyed_slots.specs.Lends.{lends_slot};
ghost use Rattle.keyed_slots.specs.Slots.{value_at};

use std::alloc::AllocError;

/// The value of an occupied slot, for writing.
pub(crate) fn value_mut<V>(slot: &mut Option<V>) -> &mut V
    requires { IsSome slot.old }
    ensures* lends { sem 𝓛 (lends_slot V.row slot.entry result) }
    ensures value { slot.old ≡ Some result.now }
{
    match slot {
        Some(value) => value,
        None => unreachable!(),
    }
}

/// Adds empty slots up to this length.
pub(crate) fn grow<V>(slots: &mut Vec<Option<V>>, len: usize) -> Result<(), AllocError>
    requires { vec_len slots.old ≤ len }
    ensures long { OnOk result (vec_len slots.new ≡ len) }
    ensures values { (number : ℕ) → value_at slots.new.items number ≡ value_at slots.old.items number }
    ensures capacity { vec_capacity slots.old ≤ vec_capacity slots.new }
    ensures succeeds { len ≤ vec_capacity slots.old → IsOk result }
    ensures unchanged { OnErr result ((slots.new.items ≡ slots.old.items) × (vec_capacity slots.new ≡ vec_capacity slots.old)) }
{
    slots.reserve(len - slots.len())?;
    'empties: for _ in slots.len()..len {
        slots.push_reserved(None);
    }
    Ok(())
}
