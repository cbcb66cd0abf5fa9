// Items that come before those in front of them, and more than the ring holds.
use crate::comparing::is;
use numbered_slots::NumberedSlots;
use std::test::Fail;

#[test]
fn reads_in_the_order_of_numbers(rt: HostRuntime) -> Result<(), Fail> {
    let mut slots: NumberedSlots<u32> = NumberedSlots::new(rt.alloc(), 2)?;
    slots.reserve()?;
    slots.reserve()?;
    slots.reserve()?;
    slots.put(2, 12);
    assert!(rt; !slots.is_ready());
    is("taken", slots.take(), None)?;
    slots.put(0, 10);
    is("taken", slots.take(), Some(10))?;
    is("taken", slots.take(), None)?;
    slots.put(1, 11);
    is("waiting", slots.waiting(), 2)?;
    is("taken", slots.take(), Some(11))?;
    is("taken", slots.take(), Some(12))?;
    is("next", slots.next(), 3)?;
    is("behind the ring", slots.len(), 0)?;
    Ok(())
}

// A ring of two, and a thousand items behind it.
#[test]
fn holds_more_than_its_ring(rt: HostRuntime) -> Result<(), Fail> {
    let mut slots: NumberedSlots<u32> = NumberedSlots::new(rt.alloc(), 2)?;
    for item in 0..1000 {
        slots.push(item)?;
    }
    is("waiting", slots.waiting(), 1000)?;
    for item in 0..1000 {
        is("taken", slots.take(), Some(item))?;
    }
    slots.push(7)?;
    slots.clear();
    is("taken", slots.take(), None)?;
    is("next", slots.next(), 1000)?;
    Ok(())
}
