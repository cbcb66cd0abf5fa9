//! Journals, and pieces that are out.
ghost use Rattle.std.specs.Prelude.{◌≡◌, ◌∷◌, [], None, Some, false, map, nat_eq, true};
ghost use Rattle.ps_outs.specs.Out.{passes, places_out};
ghost use Rattle.run_samples.specs.Journals.{out_of, place, told, two_out, written};
ghost use Rattle.world_records.specs.Journals.{claims_of};
ghost use Rattle.world_records.specs.Shown.{journal_shown, move_made};
ghost use Rattle.world_records.specs.declared.records.Move.TheVariants as turn;

/// What a journal shows, how many claims it has, and of which moves it tells: a hand-in is none.
pub fn journals_shown()
    ensures records { journal_shown written ≡ told }
    ensures claims { claims_of written ≡ 1 }
    ensures moves { map move_made told ≡ Some turn.Open ∷ Some (turn.Claim 3 1) ∷ None ∷ Some (turn.Pull 4 0) ∷ Some (turn.Close 3) ∷ Some turn.End ∷ [] }
{}

/// Where the pieces are that workers have out, and which pass a test.
pub fn pieces_out()
    ensures places { places_out 0 two_out ≡ place 0 5 0 ∷ place 2 5 1 ∷ [] }
    ensures tests { map (passes (λ n i. nat_eq i 1)) two_out ≡ false ∷ false ∷ true ∷ [] }
    ensures none { passes (λ n i. nat_eq n 5) None ≡ false }
    ensures one { passes (λ n i. nat_eq n 5) (Some (out_of 5 0)) ≡ true }
{}
