//! The zip.
ghost use Rattle.std.specs.Prelude.{◌≡◌, List, ◌+◌, ◌<◌, ◌^◌, Err, IfErr, IfOk, OnErr, OnOk, length, slice_index, slice_set};
ghost use Rattle.node_states.specs.States.{IsZip};
ghost use Rattle.node_states.specs.Views.{sides_of};
ghost use Rattle.ps_frame.specs.declared.refusal.PolarsError.{PolarsError};
ghost use Rattle.ps_ports.specs.declared.port_state.PortState.{PortState as PortStateSeen};
ghost use Rattle.plain_nodes.specs.Seen.{Faults, HasInputsOf, IsNewZip, Updates, view_of};
ghost use Rattle.plain_nodes.specs.Plain as plain;

use node_states::heads::{self, HeadState};
use node_states::zip;
use ps_frame::refusal::{PolarsError, PolarsResult};
use ps_frame::schema::Schema;
use ps_ports::port_state::PortState;
use pu_base::Node;
use std::alloc::Global;

/// Puts the columns of its inputs beside each other.
#[derive(Drop)]
pub struct ZipNode {
    pub(crate) null_extend: bool,
    pub(crate) schemas: Vec<Schema>,
    pub(crate) booked: usize,
    pub(crate) came: Vec<usize>,
    pub(crate) heads: Vec<HeadState>,
}

impl ZipNode {
    /// The zip of inputs with these schemas, which may fill what is short with nulls.
    ///
    /// Fails only for want of memory.
    pub fn new(alloc: Global, null_extend: bool, schemas: Vec<Schema>) -> PolarsResult<ZipNode>
        ensures new { IfOk result (λ n. IsNewZip null_extend (length schemas.items) n) }
        ensures schemas { IfOk result (λ n. n.schemas.items ≡ schemas.items) }
        ensures memory { OnErr result (result ≡ Err PolarsError.OutOfMemory) }
    {
        let inputs = schemas.len();
        let came = vec![in alloc; 0; inputs]?;
        let heads = vec![in alloc; HeadState {
            rows: 0,
            broadcasts: false
        }; inputs]?;
        Ok(ZipNode {
            null_extend,
            schemas,
            booked: 0,
            came,
            heads,
        })
    }

    /// So many rows more came of an input.
    pub fn store(&mut self, input: usize, rows: usize)
        requires input { input < length self.old.came.items }
        requires counted { slice_index self.old.came.items input + rows < 2 ^ 64 }
        ensures came { self.new.came.items ≡ slice_set self.old.came.items input (slice_index self.old.came.items input + rows) }
        ensures others { self.new ≡ record self.old { came = self.new.came } }
    {
        self.came[input] += rows;
    }

    /// So many rows of each input are claimed.
    pub fn book(&mut self, rows: usize)
        requires { self.old.booked + rows < 2 ^ 64 }
        ensures { self.new ≡ record self.old { booked = self.old.booked + rows } }
    {
        self.booked += rows;
    }

    /// Writes its heads, as they are where its inputs are given these states.
    fn see_heads(&mut self, recv: &[PortState])
        requires { HasInputsOf (plain.zip self.old) (length recv.now) }
        ensures heads { (outputs : List PortStateSeen) → IsZip self.old.null_extend self.new.heads.items (view_of (plain.zip self.old) (sides_of recv.now outputs)) }
        ensures others { self.new ≡ record self.old { heads = self.new.heads } }
        ensures as_many { length self.new.heads.items ≡ length self.old.heads.items }
    {
        heads::see(
            self.null_extend,
            self.booked,
            recv,
            self.came.as_slice(),
            self.heads.as_mut_slice(),
        );
    }

    /// Gives rows while its heads have some.
    ///
    /// Fails by `Shape`, at no node in particular, where its heads can't agree.
    pub fn update(&mut self, recv: &mut [PortState], send: &mut [PortState]) -> PolarsResult<()>
        requires inputs { HasInputsOf (plain.zip self.old) (length recv.old) }
        requires output { length send.old ≡ 1 }
        ensures updated { OnOk result (Updates (plain.zip self.old) (sides_of recv.old send.old) (plain.zip self.new) (sides_of recv.new send.new)) }
        ensures fault { IfErr result (Faults (plain.zip self.old) (sides_of recv.old send.old)) }
    {
        self.see_heads(recv);
        let heads = self.heads.as_slice();
        if zip::has_shape_fault(self.null_extend, heads, recv, send) {
            return Err(PolarsError::ShapeMismatch {
                node: Node::default(),
            });
        }
        zip::answer(heads, recv, send);
        Ok(())
    }
}
