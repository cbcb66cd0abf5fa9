//! Which ports of nodes are read, and that each is read once.
ghost use Rattle.std.specs.Prelude.{◌≡◌, ◌<◌, ◌≤◌, ◌==◌, ◌++◌, ◌∷◌, [], ℕ, List, Err, IfOk, IsTrue, OnErr, OnOk, false, get_or, length, replicate, slice_set, true};
ghost use Rattle.std.specs.List.{count_by};
ghost use Rattle.ps_frame.specs.declared.refusal.PolarsError.{PolarsError};
ghost use Rattle.plan_readers.specs.Readers.{AreTold, ports_read};

use ps_frame::refusal::PolarsResult;
use std::alloc::Global;
use std::marker::Model;

/// The ports of a node that are read, one for each reader. Contracts see the list.
#[derive(Drop)]
pub struct Ports {
    ports: Vec<usize>,
}

impl Model for Ports {
    ghost use Rattle.std.specs.Prelude.{List, ℕ};

    ghost Value = { List ℕ };

    ghost view = { λ p. p.ports.items };
}

impl Ports {
    /// Of a node that nothing reads.
    fn new(alloc: Global) -> Ports
        ensures { result ≡ [] }
    {
        Ports {
            ports: Vec::new(alloc),
        }
    }

    /// One reader more.
    fn push(&mut self, port: usize) -> PolarsResult<()>
        ensures pushed { OnOk result (self.new ≡ self.old ++ port ∷ []) }
        ensures memory { OnErr result (result ≡ Err PolarsError.OutOfMemory) }
    {
        self.ports.push(port)?;
        Ok(())
    }

    /// How many readers there are.
    pub fn count(&self) -> usize
        ensures { result ≡ length self.now }
    {
        self.ports.len()
    }

    /// The ports, in the order of the inputs that read them.
    pub fn as_slice(&self) -> &[usize]
        ensures { result.now ≡ self.now }
    {
        self.ports.as_slice()
    }
}

/// Whether each port from 0 on, of as many as are read, is read once.
///
/// Fails only for want of memory.
pub fn are_read_once(alloc: Global, ports: &[usize]) -> PolarsResult<bool>
    ensures once { IfOk result (λ once. IsTrue once → (port : ℕ) → port < length ports.now → count_by (λ q. q == port) ports.now ≡ 1) }
    ensures memory { OnErr result (result ≡ Err PolarsError.OutOfMemory) }
{
    let mut read = vec![in alloc; false; ports.len()]?;
    for place in 0..ports.len() {
        let is_new = mark(&mut read, ports[place]);
        if !is_new {
            return Ok(false);
        }
    }
    Ok(are_all_true(read.as_slice()))
}

// Marks a port, if there are so many; answers whether it had no mark.
fn mark(read: &mut Vec<bool>, port: usize) -> bool
    ensures marked { IsTrue result → port < length read.old.items → (get_or read.old.items port false ≡ false) × (read.new.items ≡ slice_set read.old.items port true) }
    ensures past { IsTrue result → length read.old.items ≤ port → read.new.items ≡ read.old.items }
{
    if port >= read.len() {
        return true;
    }
    if read[port] {
        return false;
    }
    read[port] = true;
    true
}

fn are_all_true(flags: &[bool]) -> bool
    ensures { IsTrue result → (i : ℕ) → i < length flags.now → IsTrue (get_or flags.now i false) }
{
    for i in 0..flags.len() {
        if !flags[i] {
            return false;
        }
    }
    true
}

// One reader more of a node.
fn note_reader(readers: &mut Vec<Ports>, node: usize, port: usize) -> PolarsResult<()>
    requires { node < length readers.old.items }
    ensures noted { OnOk result (readers.new.items ≡ slice_set readers.old.items node (get_or readers.old.items node [] ++ port ∷ [])) }
    ensures memory { OnErr result (result ≡ Err PolarsError.OutOfMemory) }
{
    let ports = &mut readers[node];
    ports.push(port)?;
    Ok(())
}

// So many nodes, none of which is read.
fn without_readers(alloc: Global, nodes: usize) -> PolarsResult<Vec<Ports>>
    ensures none { IfOk result (λ readers. readers.items ≡ replicate nodes []) }
    ensures memory { OnErr result (result ≡ Err PolarsError.OutOfMemory) }
{
    let mut readers = Vec::with_capacity(alloc, nodes)?;
    for _ in 0..nodes {
        readers.push(Ports::new(alloc))?;
    }
    Ok(readers)
}

/// Of each of so many nodes the ports that are read, where these are all inputs: each the number of a node, and a port.
///
/// It takes time and memory for each node and each input. Fails only for want of memory.
pub fn readers_of(
    alloc: Global,
    nodes: usize,
    inputs: &[(usize, usize)],
) -> PolarsResult<Vec<Ports>>
    ensures count { IfOk result (λ readers. length readers.items ≡ nodes) }
    ensures told { IfOk result (λ readers. (n : ℕ) → n < nodes → get_or readers.items n [] ≡ ports_read n inputs.now) }
    ensures memory { OnErr result (result ≡ Err PolarsError.OutOfMemory) }
{
    let mut readers = without_readers(alloc, nodes)?;
    for place in 0..inputs.len() {
        let (node, port) = inputs[place];
        if node < readers.len() {
            note_reader(&mut readers, node, port)?;
        }
    }
    Ok(readers)
}
