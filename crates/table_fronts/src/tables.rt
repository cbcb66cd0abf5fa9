// What reduces, zips and makers of one table have sent begins what they may give.
ghost use Rattle.std.specs.Prelude.{◌≡◌, ℕ, Bool, IsTrue, List, Some, slice_get};
ghost use Rattle.ps_frame.specs.Functions.{Functions, IsLawful};
ghost use Rattle.ps_meaning.specs.Shape.{PhysicalNode, reduce, zip_node};
ghost use Rattle.ps_meaning.specs.Sound.{input_schemas};
ghost use Rattle.ps_meaning.specs.Steps.{Named};
ghost use Rattle.ps_turns.specs.Progress.{makes_table};
ghost use Rattle.ps_world.specs.Laws.{Justified, sent_at, sent_to};
ghost use Rattle.ps_world.specs.World.{World, shape_of};
ghost use Rattle.world_claims.specs.Numbering.{Known};
ghost use Rattle.world_families.specs.Holds.{Holds};

/// What a reduce has sent is the one row of a table that it may give, and nothing before that.
pub fn reduces_are_justified()
    ensures { (F : Functions) (w : World) (n : ℕ) (p : PhysicalNode) (es : List Named) → Known F w → slice_get (shape_of w) n ≡ Some p → p.kind ≡ reduce es → Holds F w n → Justified F p (input_schemas (shape_of w) p) (sent_to (sent_at w) p) (sent_at w n) }
{}

/// What a map, an in-memory join or a negative slice has sent is a front of a table that it may give over all that came, and nothing before that.
pub fn tables_are_justified()
    ensures { (F : Functions) (w : World) (n : ℕ) (p : PhysicalNode) → IsLawful F → Known F w → slice_get (shape_of w) n ≡ Some p → IsTrue (makes_table p.kind) → Holds F w n → Justified F p (input_schemas (shape_of w) p) (sent_to (sent_at w) p) (sent_at w n) }
{}

/// What a zip has sent is a front of the zip of its inputs, cut by cut.
pub fn zips_are_justified()
    ensures { (F : Functions) (w : World) (n : ℕ) (p : PhysicalNode) (extend : Bool) → Known F w → slice_get (shape_of w) n ≡ Some p → p.kind ≡ zip_node extend → Holds F w n → Justified F p (input_schemas (shape_of w) p) (sent_to (sent_at w) p) (sent_at w n) }
{}
