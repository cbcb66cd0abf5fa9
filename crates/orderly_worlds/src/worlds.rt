// What every reached world keeps of its pipes between what is sent and what is read, whatever its nodes.
ghost use Rattle.std.specs.Prelude.{◌≡◌, ◌||◌, Contains, length, true};
ghost use Rattle.ps_frame.specs.Functions.{Functions};
ghost use Rattle.ps_meaning.specs.Shape.{Shape};
ghost use Rattle.ps_meaning.specs.Sound.{IsSound};
ghost use Rattle.ps_options.specs.declared.options.Options.{Options};
ghost use Rattle.ps_ports.specs.Ports.{is_done};
ghost use Rattle.ps_world.specs.Laws.{EndsAgree};
ghost use Rattle.ps_world.specs.Opening.{Reaches};
ghost use Rattle.ps_world.specs.World.{Pipe, World};
ghost use Rattle.world_families.specs.Work.{IsComplete};

/// In every reached world, whatever its nodes: both ends of a pipe agree on what is done while a phase is open; where a reader is done, its sender is or the pipe is unread; and a pipe that has got all that it ever will was read to its end.
pub fn reached_worlds_are_orderly()
    ensures agree { (F : Functions) (shape : Shape) (o : Options) (w : World) → IsSound F shape → Reaches F shape o w → w.is_open ≡ true → EndsAgree w }
    ensures unread { (F : Functions) (shape : Shape) (o : Options) (w : World) (p : Pipe) → IsSound F shape → Reaches F shape o w → Contains w.pipes p → is_done p.wire.receive_state ≡ true → (is_done p.wire.send_state || p.is_unread) ≡ true }
    ensures read { (F : Functions) (shape : Shape) (o : Options) (w : World) (p : Pipe) → IsSound F shape → Reaches F shape o w → Contains w.pipes p → IsComplete p → p.next ≡ length p.got }
{}
