//! Runs that are driven: which moves may be made, the pieces that workers have, and a run to its end.
#![tactic(auto)]

pub mod driving;
mod handing;
mod making;
pub mod run;

pub use driving::drive;
pub use run::Run;
pub use worker_pieces::ComputePiece;
