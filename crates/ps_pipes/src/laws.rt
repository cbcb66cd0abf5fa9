//! What is known of a pipe from the pipe of a run's world that it shows, as theorems of functions that do nothing.
ghost use Rattle.std.specs.Prelude.{◌≡◌, ℕ, ◌≤◌, ◌∷◌, [], Bool, None, Some, slice_get};
ghost use Rattle.numbered_slots.specs.Numbered.{IsAwaited};
ghost use Rattle.ps_frame.specs.Tables.{Fields};
ghost use Rattle.ps_pipes.specs.Shown.{Shows, slots_left, table_of};
ghost use Rattle.ps_pipes.specs.declared.pipe.Pipe.{Pipe as Held};
ghost use Rattle.ps_world.specs.Opening.{fresh_pipe};
ghost use Rattle.ps_world.specs.Pipes.{dropped_pipe};
ghost use Rattle.ps_ports.specs.Wires.{Wire};
ghost use Rattle.ps_world.specs.World.{Pipe};

/// A number that was claimed, and whose answer isn't there yet, may be handed in.
pub fn awaited()
    ensures { (s : Fields) (p : Pipe) (h : Held) (number : ℕ) → Shows s p h → p.next ≤ number → slice_get p.got number ≡ Some None → h.is_dropped ≡ Bool.false → IsAwaited h.morsels number }
{}

/// What both ends say of a pipe is no part of what it shows.
pub fn says_nothing_of_its_ends()
    ensures { (s : Fields) (p : Pipe) (h : Held) (wire : Wire) (unread : Bool) → Shows s p h → Shows s (record p { wire = wire; is_unread = unread }) h }
{}

/// Of a pipe whose first morsel was read, the second is still to come and the third waits; once it is dropped nothing is left.
pub fn what_is_left()
    ensures left { (s : Fields) → slots_left s (record (fresh_pipe 0 0 1 0) { got = Some [] ∷ None ∷ Some [] ∷ []; next = 1 }) ≡ None ∷ Some (table_of s []) ∷ [] }
    ensures lost { (s : Fields) → slots_left s (dropped_pipe (record (fresh_pipe 0 0 1 0) { got = Some [] ∷ None ∷ Some [] ∷ []; next = 1 })) ≡ [] }
{}
