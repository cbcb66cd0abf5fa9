//! A zip: it stores its inputs, and gives the rows that all of its heads have.
ghost use Rattle.std.specs.Prelude.{◌≡◌, ◌||◌, ◌==◌, Bool, Some, None, cond, length, slice_get};
ghost use Rattle.std.specs.List.{list_all};
ghost use Rattle.ps_frame.specs.Zip.{all_same};
ghost use Rattle.ps_frame.specs.declared.value.DataFault.TheVariants as data_fault;
ghost use Rattle.ps_meaning.specs.Shape.{PhysicalNode};
ghost use Rattle.ps_turns.specs.Updates.{shape_fault};
ghost use Rattle.node_states.specs.Heads.{all_broadcast, are_spent, disagree, is_over, open_lengths};
ghost use Rattle.node_states.specs.Views.{NodeView, answer_to, sides_of};
ghost use Rattle.node_states.specs.States.{IsZip};

use crate::heads::HeadState;
use crate::ports;
use ps_ports::port_state::PortState;

/// Whether each head broadcasts.
fn all_broadcast(heads: &[HeadState]) -> bool
    ensures { result ≡ all_broadcast heads.now }
{
    heads.iter().all(|head| head.broadcasts)
}

/// Whether each head broadcasts or is empty.
fn are_spent(heads: &[HeadState]) -> bool
    ensures { result ≡ are_spent heads.now }
{
    heads.iter().all(|head| head.broadcasts || head.rows == 0)
}

/// How many rows the first head has that doesn't broadcast.
fn first_open(heads: &[HeadState]) -> Option<usize>
    ensures { result ≡ slice_get (open_lengths heads.now) 0 }
{
    for head in heads {
        if !head.broadcasts {
            return Some(head.rows);
        }
    }
    None
}

/// Whether each head that doesn't broadcast has so many rows.
fn all_have(heads: &[HeadState], rows: usize) -> bool
    ensures { result ≡ list_all (λ h. h.broadcasts || (h.rows == rows)) heads.now }
{
    heads
        .iter()
        .all(|head| head.broadcasts || head.rows == rows)
}

/// Whether the heads that don't broadcast have one length.
#[tactic(auto, using(crate::proofs::HeadLemmas::agree_with, crate::proofs::HeadLemmas::agree_none))]
fn lengths_agree(heads: &[HeadState]) -> bool
    ensures { result ≡ all_same (open_lengths heads.now) }
{
    match first_open(heads) {
        None => true,
        Some(rows) => all_have(heads, rows),
    }
}

/// Whether the zip gives nothing more: its output is done, or its inputs are and its heads have nothing left to give.
fn is_over(heads: &[HeadState], recv: &[PortState], send: &[PortState]) -> bool
    ensures { result ≡ is_over heads.now (sides_of recv.now send.now) }
{
    ports::is_done(ports::first(send))
        || ports::all_done(recv) && are_spent(heads) && !all_broadcast(heads)
}

/// Whether heads that don't broadcast have several lengths, while all inputs are done and the output isn't.
fn disagree(heads: &[HeadState], recv: &[PortState], send: &[PortState]) -> bool
    ensures { result ≡ disagree heads.now (sides_of recv.now send.now) }
{
    ports::all_done(recv) && !ports::is_done(ports::first(send)) && !lengths_agree(heads)
}

/// Whether the heads can't agree: without extension by nulls, all inputs are done, the output isn't, and heads that don't
/// broadcast have several lengths. While an input may bring more this is no fault.
#[tactic(auto, using(crate::proofs::HeadLemmas::zip_fault))]
pub fn has_shape_fault(
    null_extend: bool,
    heads: &[HeadState],
    recv: &[PortState],
    send: &[PortState],
) -> bool
    ensures { (n : NodeView) (p : PhysicalNode) → IsZip null_extend heads.now n → shape_fault p n.kind n.heads (sides_of recv.now send.now) ≡ cond result (Some (record { fault = data_fault.Shape; node = p.origin })) None }
{
    !null_extend && disagree(heads, recv, send)
}

/// Answers done on all sides once it is over; all blocked where an input is; else ready to the output, and to the inputs
/// blocked where the output is and else ready.
pub fn answer(heads: &[HeadState], recv: &mut [PortState], send: &mut [PortState])
    requires output { length send.old ≡ 1 }
    ensures { (n : NodeView) (null_extend : Bool) → IsZip null_extend heads.now n → sides_of recv.new send.new ≡ answer_to (sides_of recv.old send.old) n }
{
    if is_over(heads, recv, send) {
        ports::set_all(recv, PortState::Done);
        ports::set_one(send, PortState::Done);
    } else if ports::any_blocked(recv) {
        ports::set_all(recv, PortState::Blocked);
        ports::set_one(send, PortState::Blocked);
    } else {
        let is_stopped = ports::is_blocked(ports::first(send));
        ports::set_all(recv, ports::blocked_if(is_stopped));
        ports::set_one(send, PortState::Ready);
    }
}
