//! The pieces that nodes of a run give out to workers who claim them.
ghost use Rattle.std.specs.Prelude.{◌≡◌, ◌+◌, ◌<◌, ◌^◌, ◌&&◌, false, true, None, not, Err, IfNone, IfOk, IfSome, OnErr, OnOk, length, nat_eq, option_copied, option_map};
ghost use Rattle.flow_runs.specs.Claims.{CanCount, CanCountIn, CanGive, FoundAlone, FoundOver, FoundUnited, IsPieceFor, counted_in, cut_piece, given_once_more, morsel_piece, own_piece, slice_piece};
ghost use Rattle.ps_flow.specs.Claiming.{rows_of};
ghost use Rattle.ps_frame.specs.declared.refusal.PolarsError.{PolarsError};
ghost use Rattle.ps_pieces.specs.declared.piece.Task.TheVariants as task;
ghost use Rattle.ps_turns.specs.Cuts.{is_exhausted};

use crate::node::RunningNode;
use node_work::tasks;
use node_work::work::Work;
use plain_nodes::independent_select::InputIndependentSelectNode;
use plain_nodes::row_index::WithRowIndexNode;
use plain_nodes::slice::StreamingSliceNode;
use plain_nodes::source::InMemorySourceNode;
use ps_flow::{ClaimNode, Claimed, Seat};
use ps_frame::frame::DataFrame;
use ps_frame::refusal::{PolarsError, PolarsResult};
use ps_nodes::flow::FlowNode;
use ps_pieces::piece::{Piece, Task};
use std::alloc::Global;

/// How many rows the next morsel has, if there is one.
fn rows_in(morsel: Option<&DataFrame>) -> usize
    ensures { result ≡ rows_of (option_copied morsel.entry) }
{
    match morsel {
        Some(morsel) => morsel.height(),
        None => 0,
    }
}

/// A piece of a node's own, where the next morsel of the input has so many rows.
fn own(seat: Seat, number: u64, rows: usize, task: Task) -> Claimed<Piece>
    ensures { result ≡ own_piece seat number rows task }
{
    Claimed {
        piece: Piece {
            node: seat.node,
            input: seat.input,
            number,
            worker: seat.worker,
            gives: number,
            task,
        },
        rows,
        takes_morsel: false,
        drops_input: false,
    }
}

/// A piece of a morsel of so many rows, whose answer goes on under another number.
fn over(seat: Seat, number: u64, gives: u64, rows: usize, task: Task) -> Claimed<Piece>
    ensures { result ≡ morsel_piece seat number gives rows task }
{
    Claimed {
        piece: Piece {
            node: seat.node,
            input: seat.input,
            number,
            worker: seat.worker,
            gives,
            task,
        },
        rows,
        takes_morsel: true,
        drops_input: false,
    }
}

/// Whether a source has a cut of its table left, which its first input names.
fn has_cut(source: &InMemorySourceNode, seat: Seat) -> bool
    ensures { result ≡ (nat_eq seat.input 0 && not (is_exhausted source.now.options source.now.source.rows source.now.sent)) }
{
    seat.input == 0 && !tasks::is_spent(source)
}

/// The next cut of a source's table.
fn cut_of(
    alloc: Global,
    source: &InMemorySourceNode,
    seat: Seat,
    rows: usize,
) -> PolarsResult<Claimed<Piece>>
    ensures piece { IfOk result (λ y. y ≡ cut_piece seat rows source.now) }
    ensures count { OnOk result (source.now.sent + 1 < 2 ^ 64) }
    ensures memory { OnErr result (result ≡ Err PolarsError.OutOfMemory) }
{
    match tasks::one_more(source.sent()) {
        Ok(_count) => match tasks::cut(alloc, source) {
            Ok(task) => Ok(own(seat, source.sent() as u64, rows, task)),
            Err(error) => Err(error),
        },
        Err(error) => Err(error),
    }
}

/// The next cut of a source's table, if one is left.
fn from_source(
    alloc: Global,
    source: &InMemorySourceNode,
    seat: Seat,
    rows: usize,
) -> PolarsResult<Option<Claimed<Piece>>>
    ensures some { IfOk result (λ found. IfSome found (λ y. y ≡ cut_piece seat rows source.now)) }
    ensures none { IfOk result (λ found. IfNone found ((nat_eq seat.input 0 && not (is_exhausted source.now.options source.now.source.rows source.now.sent)) ≡ false)) }
    ensures count { IfOk result (λ found. IfSome found (λ y. source.now.sent + 1 < 2 ^ 64)) }
    ensures memory { OnErr result (result ≡ Err PolarsError.OutOfMemory) }
{
    if !has_cut(source, seat) {
        return Ok(None);
    }
    match cut_of(alloc, source, seat, rows) {
        Ok(claimed) => Ok(Some(claimed)),
        Err(error) => Err(error),
    }
}

/// Whether a select that reads no input has its morsel left, which its first input names.
fn has_morsel(select: &InputIndependentSelectNode, seat: Seat) -> bool
    ensures { result ≡ (nat_eq seat.input 0 && nat_eq select.now.sent 0) }
{
    seat.input == 0 && select.sent() == 0
}

/// The morsel of a select that reads no input.
fn alone(
    alloc: Global,
    work: &Work,
    seat: Seat,
    rows: usize,
) -> PolarsResult<Option<Claimed<Piece>>>
    ensures found { IfOk result (FoundAlone work.now seat rows) }
    ensures memory { OnErr result (result ≡ Err PolarsError.OutOfMemory) }
{
    match work {
        Work::Computes(parameters) => match tasks::computed_alone(alloc, parameters) {
            Ok(task) => Ok(Some(own(seat, 0, rows, task))),
            Err(error) => Err(error),
        },
        // Of such a node nothing else is done.
        _ => Ok(None),
    }
}

/// The morsel of a select that reads no input, if it wasn't claimed yet.
fn from_select(
    alloc: Global,
    select: &InputIndependentSelectNode,
    work: &Work,
    seat: Seat,
    rows: usize,
) -> PolarsResult<Option<Claimed<Piece>>>
    ensures left { (nat_eq seat.input 0 && nat_eq select.now.sent 0) ≡ true → IfOk result (FoundAlone work.now seat rows) }
    ensures none { (nat_eq seat.input 0 && nat_eq select.now.sent 0) ≡ false → IfOk result (λ found. found ≡ None) }
    ensures memory { OnErr result (result ≡ Err PolarsError.OutOfMemory) }
{
    if has_morsel(select, seat) {
        alone(alloc, work, seat, rows)
    } else {
        Ok(None)
    }
}

/// What a slice keeps of a morsel; it drops its input with its last row.
fn kept_of(
    alloc: Global,
    slice: &StreamingSliceNode,
    seat: Seat,
    number: u64,
    morsel: &DataFrame,
) -> PolarsResult<Claimed<Piece>>
    ensures piece { IfOk result (λ y. y ≡ slice_piece seat number slice.now morsel.now) }
    ensures count { OnOk result (slice.now.state.booked + length morsel.now.rows < 2 ^ 64) }
    ensures memory { OnErr result (result ≡ Err PolarsError.OutOfMemory) }
{
    let state = slice.state();
    match tasks::rows_behind(state.booked, morsel) {
        Ok(booked) => match tasks::kept(alloc, state, morsel) {
            Ok(task) => {
                let mut claimed = over(seat, number, number, morsel.height(), task);
                claimed.drops_input = tasks::has_rows(state, booked);
                Ok(claimed)
            }
            Err(error) => Err(error),
        },
        Err(error) => Err(error),
    }
}

/// What a slice keeps of the next morsel, if there is one.
fn from_slice(
    alloc: Global,
    slice: &StreamingSliceNode,
    seat: Seat,
    number: u64,
    morsel: Option<&DataFrame>,
) -> PolarsResult<Option<Claimed<Piece>>>
    ensures piece { IfOk result (λ found. found ≡ option_map (slice_piece seat number slice.now) (option_copied morsel.entry)) }
    ensures count { IfOk result (λ found. IfSome found (λ y. slice.now.state.booked + y.rows < 2 ^ 64)) }
    ensures memory { OnErr result (result ≡ Err PolarsError.OutOfMemory) }
{
    match morsel {
        Some(morsel) => match kept_of(alloc, slice, seat, number, morsel) {
            Ok(claimed) => Ok(Some(claimed)),
            Err(error) => Err(error),
        },
        None => Ok(None),
    }
}

/// A morsel of a union, under the next number of its own.
fn united(
    alloc: Global,
    sent: u64,
    seat: Seat,
    number: u64,
    morsel: &DataFrame,
) -> PolarsResult<Claimed<Piece>>
    ensures piece { IfOk result (λ y. y ≡ morsel_piece seat number sent (length morsel.now.rows) (task.HandsOn morsel.now)) }
    ensures count { OnOk result (sent + 1 < 2 ^ 64) }
    ensures memory { OnErr result (result ≡ Err PolarsError.OutOfMemory) }
{
    match tasks::one_more(sent as usize) {
        Ok(_count) => match tasks::whole(alloc, morsel) {
            Ok(task) => Ok(over(seat, number, sent, morsel.height(), task)),
            Err(error) => Err(error),
        },
        Err(error) => Err(error),
    }
}

/// The next morsel of a union, if there is one.
fn from_union(
    alloc: Global,
    work: &Work,
    seat: Seat,
    number: u64,
    morsel: Option<&DataFrame>,
) -> PolarsResult<Option<Claimed<Piece>>>
    ensures found { IfOk result (FoundUnited work.now seat number (option_copied morsel.entry)) }
    ensures count { IfOk result (λ found. IfSome found (λ y. CanGive work.now)) }
    ensures memory { OnErr result (result ≡ Err PolarsError.OutOfMemory) }
{
    match work {
        Work::Unites { sent } => match morsel {
            Some(morsel) => match united(alloc, *sent, seat, number, morsel) {
                Ok(claimed) => Ok(Some(claimed)),
                Err(error) => Err(error),
            },
            None => Ok(None),
        },
        // No union does anything else.
        _ => Ok(None),
    }
}

/// The next morsel over which a node's parameters are computed, behind so many rows, if there is one.
fn over_morsel(
    alloc: Global,
    work: &Work,
    before: usize,
    seat: Seat,
    number: u64,
    morsel: Option<&DataFrame>,
) -> PolarsResult<Option<Claimed<Piece>>>
    ensures found { IfOk result (FoundOver work.now before seat number (option_copied morsel.entry)) }
    ensures rows { IfOk result (λ found. IfSome found (λ y. y.rows ≡ rows_of (option_copied morsel.entry))) }
    ensures memory { OnErr result (result ≡ Err PolarsError.OutOfMemory) }
{
    match work {
        Work::Computes(parameters) => match morsel {
            Some(morsel) => match tasks::computed(alloc, parameters, before, morsel) {
                Ok(task) => {
                    let claimed = over(seat, number, number, morsel.height(), task);
                    Ok(Some(claimed))
                }
                Err(error) => Err(error),
            },
            None => Ok(None),
        },
        // Of such a node nothing else is done.
        _ => Ok(None),
    }
}

/// So many rows behind others, where 64 bits hold their number. No run counts as far.
fn rows_after(before: usize, morsel: Option<&DataFrame>) -> PolarsResult<()>
    ensures count { OnOk result (before + rows_of (option_copied morsel.entry) < 2 ^ 64) }
    ensures memory { OnErr result (result ≡ Err PolarsError.OutOfMemory) }
{
    match before.checked_add(rows_in(morsel)) {
        Some(_rows) => Ok(()),
        None => Err(PolarsError::OutOfMemory),
    }
}

/// The next morsel of a row index, behind the rows that it booked, if there is one.
fn from_index(
    alloc: Global,
    index: &WithRowIndexNode,
    work: &Work,
    seat: Seat,
    number: u64,
    morsel: Option<&DataFrame>,
) -> PolarsResult<Option<Claimed<Piece>>>
    ensures found { IfOk result (FoundOver work.now index.now.booked seat number (option_copied morsel.entry)) }
    ensures count { IfOk result (λ found. IfSome found (λ y. index.now.booked + y.rows < 2 ^ 64)) }
    ensures memory { OnErr result (result ≡ Err PolarsError.OutOfMemory) }
{
    let Ok(()) = rows_after(index.booked(), morsel) else {
        return Err(PolarsError::OutOfMemory);
    };
    over_morsel(alloc, work, index.booked(), seat, number, morsel)
}

/// A node counts a claim, of a morsel with so many rows.
fn count(flow: &mut FlowNode, work: &mut Work, rows: usize)
    requires { CanCountIn flow.old work.old rows }
    ensures { counted_in flow.old work.old rows ≡ record { flow = flow.new; work = work.new } }
{
    match flow {
        FlowNode::InMemorySource(source) => source.claim(),
        FlowNode::InputIndependentSelect(select) => select.claim(),
        FlowNode::StreamingSlice(slice) => slice.book(rows),
        FlowNode::WithRowIndex(index) => index.book(rows),
        FlowNode::OrderedUnion(_) => give(work),
        _ => (),
    }
}

/// A union has given one morsel more.
fn give(work: &mut Work)
    requires { CanGive work.old }
    ensures { work.new ≡ given_once_more work.old }
{
    match work {
        Work::Unites { sent } => *sent += 1,
        _ => (),
    }
}

impl ClaimNode for RunningNode {
    ghost IsFor = { IsPieceFor };

    ghost HasCount = { CanCount };

    fn prepare(
        &self,
        alloc: Global,
        seat: Seat,
        number: u64,
        morsel: Option<&DataFrame>,
    ) -> PolarsResult<Option<Claimed<Piece>>> {
        let work = &self.work;
        match &self.flow {
            FlowNode::InMemorySource(source) => from_source(alloc, source, seat, rows_in(morsel)),
            FlowNode::InputIndependentSelect(select) => {
                from_select(alloc, select, work, seat, rows_in(morsel))
            }
            FlowNode::StreamingSlice(slice) => from_slice(alloc, slice, seat, number, morsel),
            FlowNode::OrderedUnion(_) => from_union(alloc, work, seat, number, morsel),
            FlowNode::WithRowIndex(index) => from_index(alloc, index, work, seat, number, morsel),
            FlowNode::Select(_) => over_morsel(alloc, work, 0, seat, number, morsel),
            FlowNode::Filter(_) => over_morsel(alloc, work, 0, seat, number, morsel),
            FlowNode::SimpleProjection(_) => over_morsel(alloc, work, 0, seat, number, morsel),
            FlowNode::Map(_) => over_morsel(alloc, work, 0, seat, number, morsel),
            // A sink has no claim, and the others don't stream.
            _ => Ok(None),
        }
    }

    fn claim(&mut self, _input: u32, rows: usize) {
        count(&mut self.flow, &mut self.work, rows);
    }
}
