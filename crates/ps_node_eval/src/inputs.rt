// The inputs of a node.
ghost use Rattle.std.specs.Prelude.{◌≡◌, ◌∷◌, [], length};

use ps_frame::frame::DataFrame;

// The table of a node's only input.
pub(crate) fn only(inputs: &[DataFrame]) -> &DataFrame
    requires { length inputs.now ≡ 1 }
    ensures { inputs.now ≡ result.now ∷ [] }
{
    &inputs[0]
}

// The tables of a node's left and right input.
pub(crate) fn both(inputs: &[DataFrame]) -> (&DataFrame, &DataFrame)
    requires { length inputs.now ≡ 2 }
    ensures { inputs.now ≡ result.0.now ∷ result.1.now ∷ [] }
{
    (&inputs[0], &inputs[1])
}
