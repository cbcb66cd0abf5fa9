//! Small worlds that tell the rules from wrong ones, as theorems of functions that do nothing.
ghost use Rattle.std.specs.Prelude.{◌≡◌, [], ◌∷◌, false, map, true};
ghost use Rattle.ps_ports.specs.declared.port_state.PortState.TheVariants as port;
ghost use Rattle.ps_world.specs.Laws.{sent_by};
ghost use Rattle.ps_world.specs.Pipes.{with_drops};
ghost use Rattle.ps_world.specs.Promises.{IsSpared};
ghost use Rattle.ps_world.specs.World.{Pipe, counts_for_sender, has_place, in_flight, is_cut_off, places_taken};
ghost use Rattle.world_runs.specs.Nodes.{update};
ghost use Rattle.world_samples.specs.SmallWorlds.{beside, filters, no_rows_asked, reduces, shared, three_wait};

/// A multiplexer's port leads on until its reader is done, in the phase or not. So where one port leads to a dropped pipe, and the other's reader is blocked, what feeds the multiplexer is still wanted. Once that reader is done it is spared, and its pipe is dropped.
pub fn ports_lead_on_until_done()
    ensures counts { (counts_for_sender (shared port.Blocked) (beside port.Blocked) ≡ true) × (counts_for_sender (shared port.Done) (beside port.Done) ≡ false) }
    ensures wanted { ¬ IsSpared (shared port.Blocked) 0 × (is_cut_off (shared port.Blocked) 1 ≡ false) }
    ensures wanted_stays { map (λ (p : Pipe). p.is_dropped) (with_drops (shared port.Blocked)).pipes ≡ false ∷ true ∷ false ∷ [] }
    ensures spared { IsSpared (shared port.Done) 0 × (is_cut_off (shared port.Done) 1 ≡ true) }
    ensures spared_drops { map (λ (p : Pipe). p.is_dropped) (with_drops (shared port.Done)).pipes ≡ true ∷ true ∷ false ∷ [] }
{}

/// A slice of no row is done before the scan that feeds it, whichever of the two is updated first. So their pipe is unread, and what the scan sent isn't all that it means, though it is done then. What the slice sent is.
pub fn slices_of_nothing_leave_pipes_unread()
    ensures slice_first { map (λ (p : Pipe). p.is_unread) (update (update no_rows_asked 1) 0).pipes ≡ true ∷ false ∷ [] }
    ensures scan_first { map (λ (p : Pipe). p.is_unread) (update (update (update no_rows_asked 0) 1) 0).pipes ≡ true ∷ false ∷ [] }
    ensures complete { map (λ (p : Pipe). (sent_by p).is_complete) (update (update no_rows_asked 1) 0).pipes ≡ false ∷ true ∷ [] }
    ensures both_done { map (λ (p : Pipe). p.wire.send_state) (update (update no_rows_asked 1) 0).pipes ≡ port.Done ∷ port.Done ∷ [] }
{}

/// Three morsels wait for a reduce that has a fourth out with a worker: it gives nothing on, so its piece keeps its place in the pipe. A filter's piece has a place in what leaves the filter, and keeps none. With one worker there is room for five morsels, and four are in flight.
pub fn pieces_keep_places()
    ensures reduce { places_taken reduces three_wait ≡ 4 }
    ensures filter { places_taken filters three_wait ≡ 3 }
    ensures flight { (in_flight reduces ≡ 4) × (in_flight filters ≡ 4) }
    ensures room { has_place reduces three_wait ≡ true }
{}
