//! Nodes that take their input before they give morsels of their own: what they answer in each of their stages.
ghost use Rattle.std.specs.Prelude.{◌≡◌, ℕ, ◌+◌, ◌<◌, ◌^◌};

use node_states::stage::Stage;
use plain_nodes::group_by::GroupByNode;
use plain_nodes::negative_slice::NegativeSliceNode;
use plain_nodes::reduce::ReduceNode;
use std::alloc::Global;
use std::test::Fail;
use turn_scripts::script::{follow, update};
use turn_scripts::turns::Turns;

// The tables. What is done stays done, and once the output is done, all is, whatever the input says.

/// While it takes its input.
pub const TAKES: &str = "
*/D -> D/D
D/* -> D/R
*/* -> R/B
";

/// Once its input was done, as long as something is left of what it gives.
pub const GIVES: &str = "
*/D -> D/D
*/* -> D/R
";

/// Once it gave all, or once its output was done.
pub const OVER: &str = "*/* -> D/D";

/// A node that takes its input before it gives morsels of its own.
pub trait Keeper: Turns {
    /// Its stage.
    fn stage(&self) -> Stage;

    /// One of its morsels more is claimed.
    fn claim(&mut self)
        requires { Self.claimed self.old + 1 < 2 ^ 64 }
        ensures claimed { Self.claimed self.new ≡ Self.claimed self.old + 1 }
        ensures inputs { (k : ℕ) → Self.HasInputs self.old k → Self.HasInputs self.new k };
}

impl Keeper for ReduceNode {
    fn stage(&self) -> Stage {
        self.stage()
    }

    fn claim(&mut self) {
        self.claim();
    }
}

impl Keeper for GroupByNode {
    fn stage(&self) -> Stage {
        self.stage()
    }

    fn claim(&mut self) {
        self.claim();
    }
}

impl Keeper for NegativeSliceNode {
    fn stage(&self) -> Stage {
        self.stage()
    }

    fn claim(&mut self) {
        self.claim();
    }
}

fn claim_many<K: Keeper>(node: &mut K, claims: u16)
    requires inputs { K.HasInputs node.old 1 }
    requires claimed { K.claimed node.old ≡ 0 }
    ensures { K.HasInputs node.new 1 }
{
    for _ in 0..claims {
        node.claim();
    }
}

// It takes while its output is blocked, gives while that is ready, and is spent once that is done.
fn is_in_stage<K: Keeper>(node: &K, answer: &str) -> Result<(), Fail> {
    let stage = if answer.ends_with("B") {
        Stage::Taking
    } else if answer.ends_with("R") {
        Stage::Giving
    } else {
        Stage::Spent
    };
    if node.stage() != stage {
        return Err(Fail::new(format_args!("another stage after {answer}")));
    }
    Ok(())
}

/// Behind a script and so many claims a new node answers so to these states, and again where it is given the same; its stage is
/// what it answers.
pub fn answers_behind<K: Keeper>(
    alloc: Global,
    mut node: K,
    before: &str,
    claims: u16,
    states: &str,
    wanted: &str,
) -> Result<(), Fail>
    requires inputs { K.HasInputs node 1 }
    requires claimed { K.claimed node ≡ 0 }
{
    follow(alloc, &mut node, 1, before)?;
    claim_many(&mut node, claims);
    for _ in 0..2 {
        update(alloc, &mut node, 1, states, wanted)?;
        is_in_stage(&node, wanted)?;
    }
    Ok(())
}

/// Once the input of a new node is done, it is ready until so many morsels are claimed, and then done.
pub fn gives_morsels<K: Keeper>(alloc: Global, mut node: K, morsels: u16) -> Result<(), Fail>
    requires inputs { K.HasInputs node 1 }
    requires claimed { K.claimed node ≡ 0 }
{
    for _ in 0..morsels {
        follow(alloc, &mut node, 1, "D/B -> D/R\nD/R -> D/R")?;
        node.claim();
    }
    follow(alloc, &mut node, 1, "D/R -> D/D\nD/B -> D/D")
}
