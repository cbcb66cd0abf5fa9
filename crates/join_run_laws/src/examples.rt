//! Small worlds of a right join, two of them different in one place, so that no run leads there, whatever their journal, as theorems of functions that do nothing.
ghost use Rattle.std.specs.Prelude.{List};
ghost use Rattle.ps_frame.specs.Functions.{Functions};
ghost use Rattle.ps_meaning.specs.Shape.{Shape};
ghost use Rattle.ps_meaning.specs.Sound.{IsSound};
ghost use Rattle.ps_options.specs.declared.options.Options.{Options};
ghost use Rattle.ps_world.specs.Opening.{Reaches};
ghost use Rattle.ps_world.specs.World.{Record};
ghost use Rattle.world_families.specs.Joins.{HoldsJoin};
ghost use Rattle.join_run_laws.specs.Worlds.{given_twice, in_order, last_claimed, last_world, right_on_a, under_a_left_number};

/// A right join of two left morsels gave what each of them gives, and under the number behind theirs the right row without a match. No run leads to a world in which that row stands under the number of a left morsel, or comes twice.
pub fn right_joins_end_with_rows_without_a_match()
    ensures behind_the_left { (F : Functions) (journal : List Record) → HoldsJoin F (last_world journal in_order) 2 last_claimed right_on_a }
    ensures never_under_a_left_number { (F : Functions) (journal : List Record) (shape : Shape) (o : Options) → IsSound F shape → ¬ Reaches F shape o (last_world journal under_a_left_number) }
    ensures never_twice { (F : Functions) (journal : List Record) (shape : Shape) (o : Options) → IsSound F shape → ¬ Reaches F shape o (last_world journal given_twice) }
{}
