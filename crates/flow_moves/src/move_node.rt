//! What a world asks of nodes of which it tells whether they may move.
ghost use Rattle.std.specs.Prelude.{◌≡◌, Bool, IsTrue, List, None, is_some};
ghost use Rattle.ps_flow.specs.Claiming.{streams};
ghost use Rattle.ps_options.specs.declared.options.Options.{Options};
ghost use Rattle.ps_turns.specs.Claims.{claim_of};
ghost use Rattle.ps_turns.specs.Heads.{Head};
ghost use Rattle.ps_turns.specs.Pulls.{pulls};
ghost use Rattle.turn_laws.specs.Updating.{SeenNode};

use ps_flow::ClaimNode;

/// A node that tells in which way it takes what comes, and whether it has something of its own to give.
pub trait MoveNode: ClaimNode {
    /// Whether it pulls the morsels of its inputs into what it stores. Else it claims them.
    fn pulls(&self) -> bool
        ensures { (o : Options) (x : SeenNode) → Self.Has o self.now x → result ≡ pulls x.node.kind };

    /// Whether it has a claim that takes no morsel: of the next part of its own.
    fn claims_own(&self) -> bool
        ensures { (o : Options) (x : SeenNode) (hs : List Head) (ds : List Bool) → Self.Has o self.now x → IsTrue (streams x.node.kind) → result ≡ is_some (claim_of o x.node x.schemas x.progress hs ds 0 None) };
}
