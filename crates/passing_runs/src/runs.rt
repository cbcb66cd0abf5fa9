// What passing nodes have sent, as theorems of functions that do nothing.
ghost use Rattle.std.specs.Prelude.{◌≡◌, ◌∷◌, [], Contains, IsFalse, Some, length, slice_get, take, ℕ};
ghost use Rattle.ps_frame.specs.Functions.{Functions};
ghost use Rattle.ps_frame.specs.Tables.{Fields};
ghost use Rattle.ps_meaning.specs.Shape.{PhysicalNode, Shape};
ghost use Rattle.ps_meaning.specs.Sound.{IsSound, input_schemas};
ghost use Rattle.ps_options.specs.declared.options.Options.{Options};
ghost use Rattle.ps_world.specs.Booking.{GivesAfter, HasBooked, IsPassing, PassesAfter};
ghost use Rattle.ps_world.specs.Opening.{Reaches};
ghost use Rattle.ps_world.specs.World.{Node, Pipe, World, rows_in_order};

/// In every reached world what a passing node has sent are its answers to the morsels that it took: under the number of each stands what the node gives over its rows, behind those of the morsels before, or nothing yet.
pub fn passing_nodes_answer_in_order()
    ensures { (F : Functions) (shape : Shape) (o : Options) (w : World) (n : ℕ) (p : PhysicalNode) (s : Fields) (from to : Pipe) → IsSound F shape → Reaches F shape o w → slice_get shape n ≡ Some p → IsPassing p.kind → input_schemas shape p ≡ s ∷ [] → Contains w.pipes from → from.wire.receiver ≡ n → Contains w.pipes to → to.wire.sender ≡ n → IsFalse to.is_dropped → PassesAfter (GivesAfter F p s) 0 from.got to.got }
{}

/// A row index and a slice have booked the rows that they took, and no others.
pub fn passing_nodes_book_what_they_take()
    ensures { (F : Functions) (shape : Shape) (o : Options) (w : World) (n : ℕ) (node : Node) (p : PhysicalNode) (s : Fields) (from to : Pipe) → IsSound F shape → Reaches F shape o w → slice_get shape n ≡ Some p → IsPassing p.kind → input_schemas shape p ≡ s ∷ [] → slice_get w.nodes n ≡ Some node → Contains w.pipes from → from.wire.receiver ≡ n → Contains w.pipes to → to.wire.sender ≡ n → HasBooked p.kind node.progress (length (rows_in_order (take from.next from.got))) }
{}
