//! Scripts of a node that is handed on, of which what its ports are is one fact.
ghost use Rattle.flow_trials.specs.Tested.{HasInputs};

use flow_scripts::script;
use ps_nodes::flow::FlowNode;
use std::alloc::Global;
use std::test::Fail;

/// Behind a script a node answers so to these states: by those of its own ends, or by an error, at no node in particular.
pub fn answers(
    alloc: Global,
    node: FlowNode,
    inputs: usize,
    before: &str,
    states: &str,
    wanted: &str,
) -> Result<(), Fail>
    requires { HasInputs inputs node }
{
    script::answers(alloc, node, inputs, before, states, wanted)
}

/// Behind a script a node has this word for its kind, takes its inputs in whole or doesn't, and has so many stages behind it. It
/// has no rows for its graph's answer.
pub fn stands_behind(
    alloc: Global,
    node: FlowNode,
    inputs: usize,
    before: &str,
    stand: (&str, bool, usize),
) -> Result<(), Fail>
    requires { HasInputs inputs node }
{
    script::stands_behind(alloc, node, inputs, before, stand)
}
