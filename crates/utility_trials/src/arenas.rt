// Arenas.
ghost use Rattle.std.specs.Prelude.{◌≡◌, ◌≢◌, ◌<◌, ◌∷◌, [], length, slice_set, IfOk};

use pu_base::PolarsUtilsError;
use pu_index::arena::pair_of;
use pu_index::{Arena, Node};
use std::alloc::Global;
use std::test::Fail;

#[test]
fn keeps_entries(rt: HostRuntime) -> Result<(), Fail> {
    let alloc = rt.alloc();
    let mut arena: Arena<u32> = Arena::with_capacity(alloc, 4)?;
    let first = arena.add(7)?;
    let second = arena.duplicate(first)?;
    assert!(rt; arena.len() == 2);
    assert!(rt; second.0 < arena.len());
    assert!(rt; *arena.get(second) == 7);
    *arena.get_mut(second) = 9;
    assert!(rt; *arena.get(second) == 9);
    write_pair(&mut arena, first, second);
    assert!(rt; *arena.get(first) == 3);
    assert!(rt; *arena.get(second) == 4);
    let (later, earlier) = arena.get_pair_mut(second, first);
    (*later, *earlier) = (2, 1);
    assert!(rt; arena.pop() == Some(2));
    assert!(rt; arena.pop() == Some(1));
    arena.clear();
    assert!(rt; arena.version() == 1);
    assert!(rt; arena.is_empty());
    Ok(())
}

// By way of the entries it is known what the arena ends as.
fn write_pair(arena: &mut Arena<u32>, a: Node, b: Node)
    requires first { a.0 < length arena.old.items }
    requires second { b.0 < length arena.old.items }
    requires different { a.0 ≢ b.0 }
    ensures { arena.new.items ≡ slice_set (slice_set arena.old.items a.0 3) b.0 4 }
{
    let entries = arena.entries_mut();
    let (x, y) = pair_of(entries, a, b);
    (*x, *y) = (3, 4);
}

#[test]
fn numbers_its_entries(rt: HostRuntime) -> Result<(), Fail> {
    let mut arena = Arena::new(rt.alloc());
    let first = arena.add(5u32)?;
    let second = arena.duplicate(first)?;
    assert!(rt; first == Node(0));
    assert!(rt; second == Node(1));
    assert!(rt; arena.last_node() == Some(Node(1)));
    assert!(rt; Node::default() == Node(usize::MAX));
    Ok(())
}

#[test]
fn copies_all_entries(rt: HostRuntime) -> Result<(), Fail> {
    let alloc = rt.alloc();
    let mut arena = Arena::new(alloc);
    arena.add(5u32)?;
    arena.clear();
    arena.add(6)?;
    let mut copy = arena.try_clone(alloc)?;
    assert!(rt; copy.version() == 1);
    assert!(rt; copy.entries_mut().len() == 1);
    assert!(rt; copy.pop() == Some(6));
    assert!(rt; arena.len() == 1);
    Ok(())
}

#[test]
fn changes_places(rt: HostRuntime) -> Result<(), Fail> {
    let mut arena = Arena::new(rt.alloc());
    let first = arena.add(8u32)?;
    let second = arena.add(2)?;
    arena.swap(first, second);
    assert!(rt; *arena.get_unchecked(second) == 8);
    assert!(rt; arena.replace(first, 6) == 2);
    assert!(rt; arena.take(first) == 6);
    assert!(rt; *arena.get(first) == 0);
    Ok(())
}

#[test]
fn replaces_by_answers(rt: HostRuntime) -> Result<(), Fail> {
    let mut arena = Arena::new(rt.alloc());
    let n = arena.add(8u32)?;
    arena.replace_with(n, |x| x / 2);
    assert!(rt; *arena.get(n) == 4);
    arena.try_replace_with(n, |x| Ok(x / 2))?;
    assert!(rt; *arena.get(n) == 2);
    let refused = arena.try_replace_with(n, |_x| Err(PolarsUtilsError::SeekOutOfRange));
    assert!(rt; matches!(refused, Err(PolarsUtilsError::SeekOutOfRange)));
    assert!(rt; *arena.get(n) == 0);
    Ok(())
}

// An arena that was made with room for two entries takes both.
fn two_entries(alloc: Global, first: u32, second: u32) -> pu_base::Result<Arena<u32>>
    ensures { IfOk result (λ arena. arena.items ≡ first ∷ second ∷ []) }
{
    let mut arena = Arena::with_capacity(alloc, 2)?;
    arena.add(first).unwrap();
    arena.add(second).unwrap();
    Ok(arena)
}

#[test]
fn has_the_room_that_was_asked_for(rt: HostRuntime) -> Result<(), Fail> {
    let arena = two_entries(rt.alloc(), 3, 4)?;
    assert!(rt; *arena.get(Node(0)) == 3);
    assert!(rt; *arena.get(Node(1)) == 4);
    Ok(())
}
