// What follows for a whole graph from the parts that its nodes keep, as theorems of functions that do nothing.
ghost use Rattle.std.specs.Prelude.{◌<◌, ◌⊎◌, ℕ, Contains, IsTrue, length};
ghost use Rattle.ps_frame.specs.Functions.{Functions};
ghost use Rattle.ps_ports.specs.Wires.{Wire, is_live};
ghost use Rattle.ps_meaning.specs.Shape.{Shape};
ghost use Rattle.ps_world.specs.World.{World, closed, wires_of, IsWorking};
ghost use Rattle.ps_world.specs.Laws.{AllJustified, IsForward, IsOut, IsRunnable, MayStep, PhaseFacts, PortLaw, Progresses, Sent, ServedByChoice};

/// One choice of tables serves all ports.
pub fn one_choice()
    ensures { (F : Functions) (shape : Shape) (sent : ℕ → ℕ → Sent) → IsForward shape → AllJustified F shape sent → ServedByChoice F shape sent }
{}

/// While a node of the open phase isn't closed, a move is enabled or a piece is out.
pub fn goes_on()
    ensures { (F : Functions) (w : World) → PhaseFacts w → ((n : ℕ) → Progresses F w n) → (n : ℕ) → IsWorking w n → MayStep F w ⊎ IsOut w }
{}

/// Between phases, where some pipe isn't done, a blocker can run.
pub fn some_blocker()
    ensures { (w : World) → ((p : Wire) → Contains (wires_of w) p → p.sender < p.receiver) → ((p : Wire) → Contains (wires_of w) p → p.receiver < length w.nodes) → ((n : ℕ) → PortLaw w n) → (p : Wire) → Contains (wires_of w) p → IsTrue (is_live p) → (n : ℕ) × IsRunnable w n }
{}
