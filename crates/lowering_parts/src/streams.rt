//! Streams, each once, in the order of first adding.
ghost use Rattle.std.specs.Prelude.{◌≡◌, ◌++◌, ◌∷◌, [], Err, IsTrue, OnErr, OnOk};
ghost use Rattle.std.specs.List.{list_any};
ghost use Rattle.ps_frame.specs.declared.refusal.PolarsError.{PolarsError};
ghost use Rattle.ps_phys.specs.Shown.{stream_of, streams_of};
ghost use Rattle.ps_rules.specs.Slots.{added, all_added, same_stream};

use keyed_slots::Key;
use ps_frame::refusal::PolarsResult;
use ps_phys::phys::PhysStream;
use std::alloc::Global;
use std::collections::BTreeMap;
use std::marker::Model;

/// Streams in the order of first adding; one more takes the logarithm of their number.
#[derive(Drop)]
pub struct Streams {
    list: Vec<PhysStream>,
    // For the number of each node of these, the place of its first stream.
    places: BTreeMap<u32, usize>,
}

impl Model for Streams {
    ghost use Rattle.std.specs.Prelude.{List};
    ghost use Rattle.ps_phys.specs.declared.phys.PhysStream.{PhysStream};
    ghost use Rattle.lowering_parts.specs.Places.{HavePlaces};

    ghost Value = { List PhysStream };

    ghost view = { λ a. a.list.items };

    ghost invariant = { λ a. HavePlaces a.list.items a.places };
}

impl Streams {
    /// No streams.
    pub fn new(alloc: Global) -> Streams
        ensures { result ≡ [] }
    {
        Streams {
            list: Vec::new(alloc),
            places: BTreeMap::new(alloc),
        }
    }

    /// The streams, in order.
    pub fn as_slice(&self) -> &[PhysStream]
        ensures { result.now ≡ self.now }
    {
        self.list.as_slice()
    }

    /// The streams, in order.
    pub fn into_vec(self) -> Vec<PhysStream>
        ensures { result.items ≡ self }
    {
        let Streams { list, places: _ } = self;
        list
    }

    fn contains(&self, stream: PhysStream) -> bool
        ensures { result ≡ list_any (λ s. same_stream (stream_of stream) (stream_of s)) self.now }
    {
        let Some(place) = self.places.get(&stream.node.number()) else {
            return false;
        };
        // Most nodes have one stream, so it is mostly the first that is looked at.
        is_at(&self.list, *place, stream) || is_among(&self.list, stream)
    }

    /// Puts a stream at the end, where it isn't among them.
    ///
    /// Fails only for want of memory; the streams are then as before.
    pub fn add(&mut self, stream: PhysStream) -> PolarsResult<()>
        ensures added { OnOk result (streams_of self.new ≡ added (stream_of stream) (streams_of self.old)) }
        ensures same { OnErr result (self.new ≡ self.old) }
        ensures memory { OnErr result (result ≡ Err PolarsError.OutOfMemory) }
    {
        if self.contains(stream) {
            return Ok(());
        }
        self.append(stream)
    }

    fn append(&mut self, stream: PhysStream) -> PolarsResult<()>
        ensures added { OnOk result (self.new ≡ self.old ++ stream ∷ []) }
        ensures same { OnErr result (self.new ≡ self.old) }
        ensures memory { OnErr result (result ≡ Err PolarsError.OutOfMemory) }
    {
        self.list.reserve(1)?;
        let number = stream.node.number();
        if !self.places.contains_key(&number) {
            let _none = self.places.insert(number, self.list.len())?;
        }
        self.list.push_reserved(stream);
        Ok(())
    }

    /// Puts others at the end, each where it isn't among them.
    ///
    /// Fails only for want of memory; some of them may then be there.
    pub fn add_all(&mut self, streams: &[PhysStream]) -> PolarsResult<()>
        ensures added { OnOk result (streams_of self.new ≡ all_added (streams_of streams.now) (streams_of self.old)) }
        ensures memory { OnErr result (result ≡ Err PolarsError.OutOfMemory) }
    {
        for stream in streams {
            self.add(*stream)?;
        }
        Ok(())
    }
}

fn is_at(streams: &[PhysStream], place: usize, stream: PhysStream) -> bool
    ensures { IsTrue result → IsTrue (list_any (λ s. same_stream (stream_of stream) (stream_of s)) streams.now) }
{
    match streams.get(place) {
        Some(other) => is_same(stream, *other),
        None => false,
    }
}

fn is_among(streams: &[PhysStream], stream: PhysStream) -> bool
    ensures { result ≡ list_any (λ s. same_stream (stream_of stream) (stream_of s)) streams.now }
{
    streams.iter().any(|other| is_same(stream, *other))
}

fn is_same(one: PhysStream, other: PhysStream) -> bool
    ensures { result ≡ same_stream (stream_of one) (stream_of other) }
{
    one == other
}
