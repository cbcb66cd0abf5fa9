//! What a call gathers while it goes over its expressions.
ghost use Rattle.std.specs.Prelude.{◌≡◌, ◌++◌, ◌∷◌, [], Err, OnErr, OnOk};
ghost use Rattle.ps_frame.specs.declared.refusal.PolarsError.{PolarsError};
ghost use Rattle.ps_phys.specs.Shown.{stream_of, streams_of};
ghost use Rattle.ps_rules.specs.Slots.{added, all_added};

use crate::streams::Streams;
use ps_frame::refusal::PolarsResult;
use ps_meaning::options::ExprIR;
use ps_phys::phys::PhysStream;
use pu_base::Node;
use std::alloc::Global;

/// The streams in the order of first adding, what one reduce of the input is to compute, the expressions over the columns of these, and those that go into one map.
///
/// A call that fails leaves in it what it had gathered until then, which is of no use.
#[derive(Drop)]
pub struct Gathered {
    pub streams: Streams,
    pub reduced: Vec<ExprIR>,
    pub exprs: Vec<Node>,
    pub mapped: Vec<ExprIR>,
}

impl Gathered {
    /// Nothing yet.
    pub fn new(alloc: Global) -> Gathered
        ensures streams { result.streams ≡ [] }
        ensures reduced { result.reduced.items ≡ [] }
        ensures exprs { result.exprs.items ≡ [] }
        ensures mapped { result.mapped.items ≡ [] }
    {
        Gathered {
            streams: Streams::new(alloc),
            reduced: Vec::new(alloc),
            exprs: Vec::new(alloc),
            mapped: Vec::new(alloc),
        }
    }

    /// One more expression, over a stream.
    ///
    /// Fails only for want of memory.
    pub fn give(&mut self, expr: Node, stream: PhysStream) -> PolarsResult<()>
        ensures streams { OnOk result (streams_of self.new.streams ≡ added (stream_of stream) (streams_of self.old.streams)) }
        ensures reduced { OnOk result (self.new.reduced.items ≡ self.old.reduced.items) }
        ensures exprs { OnOk result (self.new.exprs.items ≡ self.old.exprs.items ++ expr ∷ []) }
        ensures mapped { OnOk result (self.new.mapped.items ≡ self.old.mapped.items) }
        ensures memory { OnErr result (result ≡ Err PolarsError.OutOfMemory) }
    {
        self.streams.add(stream)?;
        self.exprs.push(expr)?;
        Ok(())
    }

    /// One more expression, over no stream that isn't there.
    ///
    /// Fails only for want of memory.
    pub fn keep(&mut self, expr: Node) -> PolarsResult<()>
        ensures streams { OnOk result (self.new.streams ≡ self.old.streams) }
        ensures reduced { OnOk result (self.new.reduced.items ≡ self.old.reduced.items) }
        ensures exprs { OnOk result (self.new.exprs.items ≡ self.old.exprs.items ++ expr ∷ []) }
        ensures mapped { OnOk result (self.new.mapped.items ≡ self.old.mapped.items) }
        ensures memory { OnErr result (result ≡ Err PolarsError.OutOfMemory) }
    {
        self.exprs.push(expr)?;
        Ok(())
    }

    /// One more expression, over all that another call has gathered.
    ///
    /// Fails only for want of memory.
    pub fn give_bundle(&mut self, expr: Node, bundle: Gathered) -> PolarsResult<()>
        ensures streams { OnOk result (streams_of self.new.streams ≡ all_added (streams_of bundle.streams) (streams_of self.old.streams)) }
        ensures reduced { OnOk result (self.new.reduced.items ≡ self.old.reduced.items ++ bundle.reduced.items) }
        ensures exprs { OnOk result (self.new.exprs.items ≡ self.old.exprs.items ++ expr ∷ []) }
        ensures mapped { OnOk result (self.new.mapped.items ≡ self.old.mapped.items) }
        ensures memory { OnErr result (result ≡ Err PolarsError.OutOfMemory) }
    {
        let Gathered {
            streams,
            mut reduced,
            ..
        } = bundle;
        self.streams.add_all(streams.as_slice())?;
        self.exprs.push(expr)?;
        self.reduced.append(&mut reduced)?;
        Ok(())
    }

    /// One more reduction of the input, and the column that it gives.
    ///
    /// Fails only for want of memory.
    pub fn give_reduction(&mut self, column: Node, reduction: ExprIR) -> PolarsResult<()>
        ensures streams { OnOk result (self.new.streams ≡ self.old.streams) }
        ensures reduced { OnOk result (self.new.reduced.items ≡ self.old.reduced.items ++ reduction ∷ []) }
        ensures exprs { OnOk result (self.new.exprs.items ≡ self.old.exprs.items ++ column ∷ []) }
        ensures mapped { OnOk result (self.new.mapped.items ≡ self.old.mapped.items) }
        ensures memory { OnErr result (result ≡ Err PolarsError.OutOfMemory) }
    {
        self.exprs.push(column)?;
        self.reduced.push(reduction)?;
        Ok(())
    }

    /// One more expression that is left to the map, and the column that it gives.
    ///
    /// Fails only for want of memory.
    pub fn give_mapped(&mut self, column: Node, mapped: ExprIR) -> PolarsResult<()>
        ensures streams { OnOk result (self.new.streams ≡ self.old.streams) }
        ensures reduced { OnOk result (self.new.reduced.items ≡ self.old.reduced.items) }
        ensures exprs { OnOk result (self.new.exprs.items ≡ self.old.exprs.items ++ column ∷ []) }
        ensures mapped { OnOk result (self.new.mapped.items ≡ self.old.mapped.items ++ mapped ∷ []) }
        ensures memory { OnErr result (result ≡ Err PolarsError.OutOfMemory) }
    {
        self.exprs.push(column)?;
        self.mapped.push(mapped)?;
        Ok(())
    }
}
