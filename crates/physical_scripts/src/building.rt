//! Physical nodes, put together from descriptions.
ghost use Rattle.std.specs.Prelude.{◌≤◌, IfOk, IsSome, IsTrue, length};
ghost use Rattle.keyed_slots.specs.Slots.{value_at};
ghost use Rattle.ps_phys.specs.Shown.{ReadsWhatIsThere, inputs_of};
ghost use Rattle.physical_scripts.specs.Built.{AreThere, ReadsThere};

use crate::kinds::{bare_kind, kind};
use crate::words::{number, parts, schema};
use keyed_slots::{Key, SlotMap};
use ps_frame::schema::Schema;
use ps_phys::phys::{PhysNode, PhysNodeKey, PhysNodeKind};
use pu_base::Node;
use std::alloc::Global;
use std::test::Fail;

/// Nodes by their numbers.
pub type Nodes = SlotMap<PhysNodeKey, PhysNode>;

/// What describes a node.
#[derive(Clone, Copy)]
enum Form {
    /// Its word, its inputs, its parameters and its schema. It comes from node 0.
    WithParameters,
    /// Its word, the node that it comes from, and its inputs. Its parameters are of no account, and its schema is empty.
    WithOrigin,
}

fn with_parameters(alloc: Global, text: &str) -> Result<PhysNode, Fail> {
    let (word, rest) = parts(text, " ")?;
    let (inputs, rest) = parts(rest, " ")?;
    let (parameters, fields) = parts(rest, " ")?;
    let kind = kind(alloc, word, inputs, parameters)?;
    Ok(PhysNode::new(schema(alloc, fields)?, kind, Node(0)))
}

fn with_origin(alloc: Global, text: &str) -> Result<PhysNode, Fail> {
    let (word, rest) = parts(text, " ")?;
    let (origin, inputs) = parts(rest, " ")?;
    let origin = Node(number(origin)?);
    let kind = bare_kind(alloc, word, inputs)?;
    Ok(PhysNode::new(Schema::new(alloc), kind, origin))
}

fn described(alloc: Global, form: Form, text: &str) -> Result<PhysNode, Fail> {
    match form {
        Form::WithParameters => with_parameters(alloc, text),
        Form::WithOrigin => with_origin(alloc, text),
    }
}

// Whether all that a node reads is there.
fn reads_what_is_there(phys: &Nodes, kind: &PhysNodeKind) -> bool
    ensures { IsTrue result → AreThere phys.now.slots (inputs_of kind.now) }
{
    let mut place = 0usize;
    while let Some(input) = kind.input(place) {
        if !phys.contains_key(input.node) {
            return false;
        }
        place += 1;
    }
    true
}

// The same of the node of a number, if there is one.
fn is_fit(phys: &Nodes, number: usize) -> bool
    ensures { IsTrue result → ReadsThere phys.now.slots number }
{
    let Ok(number) = u32::try_from(number) else {
        return false;
    };
    match phys.get(PhysNodeKey::from_number(number)) {
        Some(node) => reads_what_is_there(phys, &node.kind),
        None => true,
    }
}

/// Whether all that any node reads is there.
pub fn is_whole(phys: &Nodes) -> bool
    ensures { IsTrue result → ReadsWhatIsThere phys.now.slots }
{
    for number in 0..phys.inserts() {
        if !is_fit(phys, number) {
            return false;
        }
    }
    true
}

// Whether the node of a number reads earlier ones alone.
fn reads_earlier(kind: &PhysNodeKind, number: u32) -> bool {
    let mut place = 0usize;
    while let Some(input) = kind.input(place) {
        if input.node.number() >= number {
            return false;
        }
        place += 1;
    }
    true
}

// The same of every node.
fn is_in_order(phys: &Nodes) -> bool {
    for (key, node) in phys.iter() {
        if !reads_earlier(&node.kind, key.number()) {
            return false;
        }
    }
    true
}

// The nodes of descriptions, one after the other, and the last of them. They may read later ones.
fn nodes(alloc: Global, form: Form, text: &str) -> Result<(Nodes, PhysNodeKey), Fail>
    ensures few { IfOk result (λ built. length built.0.slots ≤ 1000) }
{
    let mut phys = SlotMap::with_capacity_and_key(alloc, 0)?;
    let mut last = None;
    let mut count = 0u32;
    for part in text.split("; ") {
        if count == 1000 {
            return Err(Fail::from("too many nodes"));
        }
        count += 1;
        last = Some(phys.insert(described(alloc, form, part)?)?);
    }
    match last {
        Some(root) => Ok((phys, root)),
        None => Err(Fail::from("no node")),
    }
}

// The same, where all that they read is there.
fn whole(alloc: Global, form: Form, text: &str) -> Result<(Nodes, PhysNodeKey), Fail>
    ensures whole { IfOk result (λ built. ReadsWhatIsThere built.0.slots) }
    ensures there { IfOk result (λ built. IsSome (value_at built.0.slots built.1.0)) }
    ensures few { IfOk result (λ built. length built.0.slots ≤ 1000) }
{
    let (phys, root) = nodes(alloc, form, text)?;
    if !is_whole(&phys) {
        return Err(Fail::from("an input that isn't there"));
    }
    if !phys.contains_key(root) {
        return Err(Fail::from("a root that isn't there"));
    }
    Ok((phys, root))
}

/// The nodes of descriptions, with `; ` between them, and the last of them. A node is described by its word, its inputs, its
/// parameters and its schema. It may read later ones.
pub fn built(alloc: Global, text: &str) -> Result<(Nodes, PhysNodeKey), Fail>
    ensures whole { IfOk result (λ built. ReadsWhatIsThere built.0.slots) }
    ensures there { IfOk result (λ built. IsSome (value_at built.0.slots built.1.0)) }
{
    whole(alloc, Form::WithParameters, text)
}

/// The same of nodes that are described by their word, the node that they come from, and their inputs. Each reads earlier ones
/// alone.
pub fn built_in_order(alloc: Global, text: &str) -> Result<(Nodes, PhysNodeKey), Fail>
    ensures whole { IfOk result (λ built. ReadsWhatIsThere built.0.slots) }
    ensures there { IfOk result (λ built. IsSome (value_at built.0.slots built.1.0)) }
    ensures few { IfOk result (λ built. length built.0.slots ≤ 1000) }
{
    let (phys, root) = whole(alloc, Form::WithOrigin, text)?;
    if !is_in_order(&phys) {
        return Err(Fail::from("an input that comes later"));
    }
    Ok((phys, root))
}
