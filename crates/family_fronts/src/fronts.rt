// What sources, selects without input, unions, multiplexers and sinks have sent begins what they may give.
ghost use Rattle.std.specs.Prelude.{◌≡◌, ℕ, List, Some, slice_get};
ghost use Rattle.ps_frame.specs.Functions.{Functions};
ghost use Rattle.ps_frame.specs.Tables.{Frame};
ghost use Rattle.ps_meaning.specs.Shape.{PhysicalNode, in_memory_sink, in_memory_source, independent_select, multiplexer, ordered_union};
ghost use Rattle.ps_meaning.specs.Sound.{input_schemas};
ghost use Rattle.ps_meaning.specs.Steps.{Named};
ghost use Rattle.ps_world.specs.Laws.{Justified, sent_at, sent_to};
ghost use Rattle.ps_world.specs.World.{World, shape_of};
ghost use Rattle.world_claims.specs.Numbering.{Known};
ghost use Rattle.world_families.specs.Holds.{Holds};

/// What a source has sent is a front of its rows, and all of them where it is complete; a select without input has sent nothing yet, or a table that it may give.
pub fn sources_are_justified()
    ensures source { (F : Functions) (w : World) (n : ℕ) (p : PhysicalNode) (t : Frame) → Known F w → slice_get (shape_of w) n ≡ Some p → p.kind ≡ in_memory_source t → Holds F w n → Justified F p (input_schemas (shape_of w) p) (sent_to (sent_at w) p) (sent_at w n) }
    ensures select { (F : Functions) (w : World) (n : ℕ) (p : PhysicalNode) (es : List Named) → Known F w → slice_get (shape_of w) n ≡ Some p → p.kind ≡ independent_select es → Holds F w n → Justified F p (input_schemas (shape_of w) p) (sent_to (sent_at w) p) (sent_at w n) }
{}

/// What a union has sent is a front of its inputs' rows, one input after the other.
pub fn unions_are_justified()
    ensures { (F : Functions) (w : World) (n : ℕ) (p : PhysicalNode) → Known F w → slice_get (shape_of w) n ≡ Some p → p.kind ≡ ordered_union → Holds F w n → Justified F p (input_schemas (shape_of w) p) (sent_to (sent_at w) p) (sent_at w n) }
{}

/// What a multiplexer has sent on each port, and what a sink has stored, is a front of its input, and all of it where it is complete.
pub fn fronts_are_justified()
    ensures ports { (F : Functions) (w : World) (n : ℕ) (p : PhysicalNode) → Known F w → slice_get (shape_of w) n ≡ Some p → p.kind ≡ multiplexer → Holds F w n → Justified F p (input_schemas (shape_of w) p) (sent_to (sent_at w) p) (sent_at w n) }
    ensures sink { (F : Functions) (w : World) (n : ℕ) (p : PhysicalNode) → Known F w → slice_get (shape_of w) n ≡ Some p → p.kind ≡ in_memory_sink → Holds F w n → Justified F p (input_schemas (shape_of w) p) (sent_to (sent_at w) p) (sent_at w n) }
{}
