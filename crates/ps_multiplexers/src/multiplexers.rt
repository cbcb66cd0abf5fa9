//! Nodes that several readers take.
ghost use Rattle.std.specs.Prelude.{◌≡◌, ◌↔◌, ◌+◌, ◌-◌, ◌<◌, ◌≤◌, ◌^◌, ◌++◌, [], ℕ, Option, IfOk, IsSome, OnErr, OnOk, Err, length, flat_map, map};
ghost use Rattle.keyed_slots.specs.Slots.{value_at};
ghost use Rattle.pu_base.specs.declared.arena.Node.{Node};
ghost use Rattle.ps_frame.specs.Functions.{Functions};
ghost use Rattle.ps_frame.specs.Tables.{Table};
ghost use Rattle.ps_frame.specs.Trees.{Tree};
ghost use Rattle.ps_frame.specs.declared.refusal.PolarsError.{PolarsError};
ghost use Rattle.ps_meaning.specs.Shape.{PhysicalMeans};
ghost use Rattle.ps_multiplexers.specs.Multiplexers.{multiplexer_of, read_again, rewired, with_multiplexers};
ghost use Rattle.ps_multiplexers.specs.Readers.{AreNoted, Grows, HasPorts, IsFilledFrom};
ghost use Rattle.ps_multiplexers.specs.Visiting.{IsVisited};
ghost use Rattle.ps_phys.specs.Shown.{ReadsWhatIsThere, nodes_of};
ghost use Rattle.ps_phys.specs.Underway.{AreThere, numbers_in};
ghost use Rattle.ps_phys.specs.Walks.{numbers_read};

use crate::readers::{ReadersOf, note_reader, rewire};
use crate::visits::walk_from;
use keyed_slots::{SecondaryMap, SlotMap};
use ps_frame::refusal::{PolarsError, PolarsResult};
use ps_phys::phys::{PhysNode, PhysNodeKey};
use std::alloc::Global;

/// The readers of each of the nodes that are read, where `read` names a node once for each reader. Inserts a multiplexer
/// behind each node that has several.
fn readers_of(
    alloc: Global,
    phys: &mut SlotMap<PhysNodeKey, PhysNode>,
    read: &[PhysNodeKey],
) -> PolarsResult<ReadersOf>
    requires there { AreThere phys.old.slots read.now }
    requires room { length phys.old.slots + length phys.old.slots < 2 ^ 32 - 1 }
    ensures noted { IfOk result (λ readers. AreNoted (length phys.old.slots) (numbers_in read.now) (read_again [] (numbers_in read.now)) readers.slots) }
    ensures nodes { (f : Node → Tree) → OnOk result (nodes_of f phys.new.slots ≡ nodes_of f phys.old.slots ++ map (multiplexer_of (nodes_of f phys.old.slots)) (read_again [] (numbers_in read.now))) }
    ensures inserts { OnOk result (length phys.new.slots ≤ length phys.old.slots + length phys.old.slots) }
    ensures grown { Grows phys.old.slots phys.new.slots }
    ensures filled { OnOk result (IsFilledFrom (length phys.old.slots) phys.new.slots) }
    ensures few { OnOk result (length read.now < 2 ^ 64) }
    ensures memory { OnErr result (result ≡ Err PolarsError.OutOfMemory) }
{
    let mut readers = SecondaryMap::new(alloc);
    for place in 0..read.len() {
        note_reader(alloc, &mut readers, phys, read[place])?;
    }
    Ok(readers)
}

/// Lets nodes read through the multiplexers, in order.
fn rewire_all(
    alloc: Global,
    readers: &mut ReadersOf,
    phys: &mut SlotMap<PhysNodeKey, PhysNode>,
    taken: &[PhysNodeKey],
)
    ensures count { length phys.new.slots ≡ length phys.old.slots }
    ensures there { (n : ℕ) → IsSome (value_at phys.old.slots n) → IsSome (value_at phys.new.slots n) }
    ensures nodes { (f : Node → Tree) (number : ℕ → Option ℕ) → HasPorts number [] readers.old.slots → length (flat_map (numbers_read (nodes_of f phys.old.slots)) (numbers_in taken.now)) < 2 ^ 64 → nodes_of f phys.new.slots ≡ rewired number [] (numbers_in taken.now) (nodes_of f phys.old.slots) }
{
    for place in 0..taken.len() {
        rewire(alloc, readers, phys, taken[place]);
    }
}

/// Inserts the multiplexers of nodes that were taken by a walk and read these nodes, and lets the readers take their ports.
fn insert_for(
    alloc: Global,
    phys: &mut SlotMap<PhysNodeKey, PhysNode>,
    taken: &[PhysNodeKey],
    read: &[PhysNodeKey],
) -> PolarsResult<()>
    requires there { AreThere phys.old.slots read.now }
    requires room { length phys.old.slots + length phys.old.slots < 2 ^ 32 - 1 }
    ensures nodes { (f : Node → Tree) (root : ℕ) → IsVisited phys.old.slots root taken.now read.now → OnOk result (nodes_of f phys.new.slots ≡ with_multiplexers root (nodes_of f phys.old.slots)) }
    ensures there { OnOk result ((n : ℕ) → IsSome (value_at phys.old.slots n) → IsSome (value_at phys.new.slots n)) }
    ensures filled { OnOk result (IsFilledFrom (length phys.old.slots) phys.new.slots) }
    ensures inserts { OnOk result (length phys.new.slots ≤ length phys.old.slots + length phys.old.slots) }
    ensures refused { OnErr result (Grows phys.old.slots phys.new.slots) }
    ensures memory { OnErr result (result ≡ Err PolarsError.OutOfMemory) }
{
    let mut readers = readers_of(alloc, phys, read)?;
    rewire_all(alloc, &mut readers, phys, taken);
    Ok(())
}

/// Puts a multiplexer behind each node that several readers take, with a port for each of them.
///
/// A reader is an input of a node that the root reaches. It takes time and memory for each insert and each input. It fails
/// only for want of memory; then every node is as before, and nothing reads what was inserted.
pub fn insert_multiplexers(
    alloc: Global,
    root: PhysNodeKey,
    phys_sm: &mut SlotMap<PhysNodeKey, PhysNode>,
) -> PolarsResult<()>
    requires root { IsSome (value_at phys_sm.old.slots root.0) }
    requires whole { ReadsWhatIsThere phys_sm.old.slots }
    requires room { length phys_sm.old.slots + length phys_sm.old.slots < 2 ^ 32 - 1 }
    ensures nodes { (f : Node → Tree) → OnOk result (nodes_of f phys_sm.new.slots ≡ with_multiplexers root.0 (nodes_of f phys_sm.old.slots)) }
    ensures keeps { (F : Functions) (f : Node → Tree) (n : ℕ) (T : Table) → n < length phys_sm.old.slots → OnOk result (PhysicalMeans F (nodes_of f phys_sm.old.slots) n T ↔ PhysicalMeans F (nodes_of f phys_sm.new.slots) n T) }
    ensures whole { OnOk result (ReadsWhatIsThere phys_sm.new.slots) }
    ensures there { OnOk result ((n : ℕ) → IsSome (value_at phys_sm.old.slots n) → IsSome (value_at phys_sm.new.slots n)) }
    ensures inserts { OnOk result (length phys_sm.new.slots ≤ length phys_sm.old.slots + length phys_sm.old.slots) }
    ensures refused { OnErr result (Grows phys_sm.old.slots phys_sm.new.slots) }
    ensures memory { OnErr result (result ≡ Err PolarsError.OutOfMemory) }
{
    let visits = walk_from(alloc, phys_sm, root)?;
    insert_for(
        alloc,
        phys_sm,
        visits.taken.as_slice(),
        visits.read.as_slice(),
    )
}
