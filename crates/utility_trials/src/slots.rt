// Slot maps at one key type, call by call.
use crate::shared::can_be_shared;
use keyed_slots::{Key, SecondaryMap, SlotMap};
use std::test::Fail;

#[derive(Clone, Copy, Debug, PartialEq, Eq)]
struct RowKey(u32);

impl Key for RowKey {
    ghost use Rattle.std.specs.Prelude.{refl};

    ghost number_of = { λ key. key.0 };

    ghost key_of = { λ n. record { 0 = n } };

    fn number(self) -> u32 {
        self.0
    }

    fn from_number(number: u32) -> RowKey {
        RowKey(number)
    }

    ghost number_of_key = { λ n. refl };

    ghost key_of_number = { λ key. refl };
}

#[test]
fn keys_are_never_given_twice(rt: HostRuntime) -> Result<(), Fail> {
    let mut rows = SlotMap::<RowKey, u8>::with_capacity_and_key(rt.alloc(), 1)?;
    assert!(rt; rows.is_empty());
    let first = rows.insert(10)?;
    assert!(rt; rows.remove(first) == Some(10));
    let second = rows.insert(20)?;
    assert_ne!(rt; first, second);
    assert!(rt; rows.get(first) == None);
    assert!(rt; !rows.contains_key(first));
    assert!(rt; rows.contains_key(second));
    assert!(rt; rows.remove(RowKey::null()) == None);
    Ok(())
}

#[test]
fn iterators_keep_the_order_of_insertion(rt: HostRuntime) -> Result<(), Fail> {
    let mut rows = SlotMap::<RowKey, u8>::with_capacity_and_key(rt.alloc(), 0)?;
    let first = rows.insert(10)?;
    let second = rows.insert(20)?;
    let third = rows.insert(30)?;
    assert!(rt; rows.remove(second) == Some(20));
    if let Some(value) = rows.get_mut(third) {
        *value = 33;
    }
    assert!(rt; rows.len() == 2);
    let mut keys = rows.keys();
    assert!(rt; keys.next() == Some(first));
    assert!(rt; keys.next() == Some(third));
    assert!(rt; keys.next() == None);
    let mut values = Vec::new(rt.alloc());
    for (key, value) in rows.iter() {
        assert!(rt; rows.contains_key(key));
        values.push(*value)?;
    }
    assert!(rt; values.as_slice() == [10, 33].as_slice());
    can_be_shared(&rows);
    Ok(())
}

#[test]
fn a_secondary_map_is_a_map(rt: HostRuntime) -> Result<(), Fail> {
    let mut names = SecondaryMap::<RowKey, u8>::new(rt.alloc());
    assert!(rt; names.insert(RowKey(5), 1)? == None);
    assert!(rt; names.insert(RowKey(5), 2)? == Some(1));
    assert!(rt; names.get(RowKey(5)).copied() == Some(2));
    assert!(rt; names.get(RowKey(4)) == None);
    if let Some(value) = names.get_mut(RowKey(5)) {
        *value = 7;
    }
    assert!(rt; names.contains_key(RowKey(5)));
    assert!(rt; names.remove(RowKey(5)) == Some(7));
    assert!(rt; names.remove(RowKey(6)) == None);
    let roomy = SecondaryMap::<RowKey, u8>::with_capacity(rt.alloc(), 4)?;
    assert!(rt; !roomy.contains_key(RowKey(0)));
    can_be_shared(&names);
    Ok(())
}
