//! A small run of a zip, and small worlds of a zip and of a multiplexer, some of them different in one place, so that no run leads there, whatever their journal, as theorems of functions that do nothing.
ghost use Rattle.std.specs.Prelude.{◌∷◌, [], List, pos};
ghost use Rattle.ps_frame.specs.Functions.{Functions};
ghost use Rattle.ps_frame.specs.declared.value.Value.TheVariants as val;
ghost use Rattle.ps_meaning.specs.Shape.{Shape};
ghost use Rattle.ps_meaning.specs.Sound.{IsSound};
ghost use Rattle.ps_options.specs.declared.options.Options.{Options};
ghost use Rattle.ps_world.specs.Opening.{Reaches, opening};
ghost use Rattle.ps_world.specs.Step.{Replays};
ghost use Rattle.ps_world.specs.World.{Record};
ghost use Rattle.world_families.specs.Examples.{came, row};
ghost use Rattle.world_families.specs.Onward.{HoldsPorts};
ghost use Rattle.zip_laws.specs.Worlds.{cut_journal, cut_world, given_journal, given_world, one_worker, ports_world, two_rows, zip_shape};

/// A zip without extension stores two rows of its first input and one of its second, and claims nothing of them before the second Open. Then the second input is known to have one row, and the zip cuts both rows of the first, beside the one; what comes of it has that one in each row. No run leads to a world in which it booked both rows and cut the first alone, or in which nothing stands beside the second.
pub fn zips_broadcast_what_had_one_row()
    ensures cuts_both { (F : Functions) → Replays F (opening zip_shape one_worker) cut_journal (cut_world cut_journal two_rows) }
    ensures in_each_row { (F : Functions) → Replays F (opening zip_shape one_worker) given_journal (given_world given_journal (val.Int64 (pos 7))) }
    ensures never_the_first_alone { (F : Functions) (journal : List Record) (shape : Shape) (o : Options) → IsSound F shape → ¬ Reaches F shape o (cut_world journal (row 1 ∷ [])) }
    ensures never_once { (F : Functions) (journal : List Record) (shape : Shape) (o : Options) → IsSound F shape → ¬ Reaches F shape o (given_world journal val.Null) }
{}

/// A slice of one row reads a multiplexer's first port, and is done with it after one morsel; the second port, which is read later, got both. No run leads to a world in which it misses the one that the first didn't get.
pub fn open_ports_get_all()
    ensures gets_both { (journal : List Record) → HoldsPorts (ports_world journal (came (row 1) ∷ []) (came (row 1) ∷ came (row 2) ∷ [])) 1 }
    ensures never_misses_one { (F : Functions) (journal : List Record) (shape : Shape) (o : Options) → IsSound F shape → ¬ Reaches F shape o (ports_world journal (came (row 1) ∷ []) (came (row 1) ∷ [])) }
{}
