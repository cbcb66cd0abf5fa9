//! The heads of a zip: what it stores of each input and hasn't claimed.
ghost use Rattle.std.specs.Prelude.{◌≡◌, ◌&&◌, List, length, map, nat_lt};
ghost use Rattle.ps_frame.specs.Tables.{Row};
ghost use Rattle.ps_ports.specs.Ports.{is_done};
ghost use Rattle.ps_turns.specs.Heads.{heads_by, stored_inputs};
ghost use Rattle.node_states.specs.Heads.{all_single, head_from, head_state, heads_from, is_single, rows_stored};

use crate::ports;
use ps_ports::port_state::PortState;

/// A head: how many rows it has, and whether it broadcasts, that is, repeats its one row.
#[derive(Clone, Copy, Debug, PartialEq, Eq)]
pub struct HeadState {
    pub rows: usize,
    pub broadcasts: bool,
}

/// Whether an input of which so many rows came broadcasts: without extension, where it is done and had one row.
fn is_single(null_extend: bool, input: PortState, came: usize) -> bool
    ensures { result ≡ is_single null_extend input came }
{
    !null_extend && ports::is_done(input) && came == 1
}

/// Whether all inputs do.
fn are_single(null_extend: bool, recv: &[PortState], came: &[usize]) -> bool
    requires { length came.now ≡ length recv.now }
    ensures { result ≡ all_single null_extend recv.now came.now }
{
    for (i, input) in recv.iter().enumerate() {
        if !is_single(null_extend, *input, came[i]) {
            return false;
        }
    }
    true
}

/// The head of an input of which so many rows came, and so many were booked: one that broadcasts keeps its row, until
/// that is spent.
fn head(
    null_extend: bool,
    is_spent: bool,
    booked: usize,
    input: PortState,
    came: usize,
) -> HeadState
    ensures { result ≡ head_from null_extend is_spent booked input came }
{
    let broadcasts = is_single(null_extend, input, came) && !is_spent;
    let rows = if broadcasts {
        came
    } else {
        came.saturating_sub(booked)
    };
    HeadState { rows, broadcasts }
}

/// Whether heads that all broadcast were claimed: their rows are spent.
fn is_spent(null_extend: bool, booked: usize, recv: &[PortState], came: &[usize]) -> bool
    requires { length came.now ≡ length recv.now }
    ensures { result ≡ (all_single null_extend recv.now came.now && nat_lt 0 booked) }
{
    are_single(null_extend, recv, came) && booked > 0
}

/// Writes each head.
fn write(
    null_extend: bool,
    is_spent: bool,
    booked: usize,
    recv: &[PortState],
    came: &[usize],
    heads: &mut [HeadState],
)
    requires came { length came.now ≡ length recv.now }
    requires heads { length heads.old ≡ length recv.now }
    ensures { heads.new ≡ heads_from null_extend is_spent booked recv.now came.now }
{
    for (i, place) in heads.iter_mut().enumerate() {
        *place = head(null_extend, is_spent, booked, recv[i], came[i]);
    }
}

/// Writes the heads of a zip that is given these states of its inputs. `came` says how many rows came of each input in
/// all, and `booked` how many were claimed of each.
pub fn see(
    null_extend: bool,
    booked: usize,
    recv: &[PortState],
    came: &[usize],
    heads: &mut [HeadState],
)
    requires came { length came.now ≡ length recv.now }
    requires heads { length heads.old ≡ length recv.now }
    ensures { (stores : List (List (List Row))) → map rows_stored stores ≡ came.now → heads.new ≡ map head_state (heads_by null_extend booked (stored_inputs (map is_done recv.now) stores)) }
{
    let is_spent = is_spent(null_extend, booked, recv, came);
    write(null_extend, is_spent, booked, recv, came, heads);
}
