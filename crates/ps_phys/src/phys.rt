//! Physical nodes: what a plan is lowered to.
ghost use Rattle.std.specs.Prelude.{◌≡◌, ◌+◌, ◌<◌, ◌^◌, ◌∷◌, [], IfSome, option_map, slice_get};
ghost use Rattle.ps_phys.specs.Shown.{inputs_of, stream_of, streams_of};

use keyed_slots::Key;
use ps_frame::frame::DataFrame;
use ps_frame::items::Items;
use ps_frame::schema::Schema;
use ps_meaning::map::MapKind;
use ps_meaning::options::{ExprIR, JoinArgs, SortMultipleOptions};
use pu_base::{Node, PlSmallStr};

/// The key of a physical node.
#[derive(Clone, Copy, Debug, PartialEq, Eq, Hash)]
pub struct PhysNodeKey(u32);

impl Key for PhysNodeKey {
    ghost use Rattle.std.specs.Prelude.{refl};

    ghost number_of = { λ key. key.0 };

    ghost key_of = { λ n. record { 0 = n } };

    fn number(self) -> u32 {
        self.0
    }

    fn from_number(number: u32) -> PhysNodeKey {
        PhysNodeKey(number)
    }

    ghost number_of_key = { λ n. refl };

    ghost key_of_number = { λ key. refl };
}

/// One of the outputs of a physical node.
#[derive(Clone, Copy, Debug, PartialEq, Eq, Hash)]
pub struct PhysStream {
    pub node: PhysNodeKey,
    pub port: usize,
}

impl PhysStream {
    /// An output of a node.
    pub fn new(node: PhysNodeKey, port: usize) -> PhysStream
        ensures node { result.node ≡ node }
        ensures port { result.port ≡ port }
    {
        PhysStream { node, port }
    }

    /// The first output of a node.
    pub fn first(node: PhysNodeKey) -> PhysStream
        ensures node { result.node ≡ node }
        ensures port { result.port ≡ 0 }
    {
        PhysStream { node, port: 0 }
    }
}

/// What a physical node does with its inputs. A slice of a sort is an offset and a length, applied last; that of a
/// `NegativeSlice` has an offset below 0, which counts from the end.
#[derive(Drop)]
pub enum PhysNodeKind {
    InMemorySource {
        df: DataFrame,
    },
    Select {
        input: PhysStream,
        selectors: Items<ExprIR>,
        extend_original: bool,
    },
    WithRowIndex {
        input: PhysStream,
        name: PlSmallStr,
        offset: Option<u32>,
    },
    InputIndependentSelect {
        selectors: Items<ExprIR>,
    },
    Reduce {
        input: PhysStream,
        exprs: Items<ExprIR>,
    },
    StreamingSlice {
        input: PhysStream,
        offset: usize,
        length: usize,
    },
    NegativeSlice {
        input: PhysStream,
        offset: i64,
        length: usize,
    },
    Filter {
        input: PhysStream,
        predicate: ExprIR,
    },
    SimpleProjection {
        input: PhysStream,
        columns: Items<PlSmallStr>,
    },
    InMemorySink {
        input: PhysStream,
    },
    InMemoryMap {
        input: PhysStream,
        map: MapKind,
    },
    Map {
        input: PhysStream,
        map: MapKind,
    },
    Sort {
        input: PhysStream,
        by_column: Items<ExprIR>,
        slice: Option<(i64, usize)>,
        sort_options: SortMultipleOptions,
    },
    OrderedUnion {
        inputs: Items<PhysStream>,
    },
    Zip {
        inputs: Items<PhysStream>,
        null_extend: bool,
    },
    Multiplexer {
        input: PhysStream,
    },
    GroupBy {
        input: PhysStream,
        key: Items<ExprIR>,
        aggs: Items<ExprIR>,
    },
    EquiJoin {
        input_left: PhysStream,
        input_right: PhysStream,
        left_on: Items<ExprIR>,
        right_on: Items<ExprIR>,
        args: JoinArgs,
    },
    InMemoryJoin {
        input_left: PhysStream,
        input_right: PhysStream,
        left_on: Items<ExprIR>,
        right_on: Items<ExprIR>,
        args: JoinArgs,
    },
}

/// The stream at a place of a list of one.
fn at_one(input: PhysStream, place: usize) -> Option<PhysStream>
    ensures { option_map stream_of result ≡ slice_get (stream_of input ∷ []) place }
{
    if place == 0 { Some(input) } else { None }
}

/// The stream at a place of a list of two.
fn at_two(left: PhysStream, right: PhysStream, place: usize) -> Option<PhysStream>
    ensures { option_map stream_of result ≡ slice_get (stream_of left ∷ stream_of right ∷ []) place }
{
    match place {
        0 => Some(left),
        1 => Some(right),
        _ => None,
    }
}

/// The stream at a place of a list.
fn at_place(inputs: &[PhysStream], place: usize) -> Option<PhysStream>
    ensures stream { option_map stream_of result ≡ slice_get (streams_of inputs.now) place }
    ensures bounded { IfSome result (λ _. place + 1 < 2 ^ 64) }
{
    inputs.get(place).copied()
}

impl PhysNodeKind {
    /// The stream that a node reads at a place from 0 on, if it reads so many.
    pub fn input(&self, place: usize) -> Option<PhysStream>
        ensures stream { option_map stream_of result ≡ slice_get (inputs_of self.now) place }
        ensures bounded { IfSome result (λ _. place + 1 < 2 ^ 64) }
    {
        match self {
            PhysNodeKind::InMemorySource { .. } | PhysNodeKind::InputIndependentSelect { .. } => {
                None
            }
            PhysNodeKind::Select { input, .. }
            | PhysNodeKind::WithRowIndex { input, .. }
            | PhysNodeKind::Reduce { input, .. }
            | PhysNodeKind::StreamingSlice { input, .. }
            | PhysNodeKind::NegativeSlice { input, .. }
            | PhysNodeKind::Filter { input, .. }
            | PhysNodeKind::SimpleProjection { input, .. }
            | PhysNodeKind::InMemorySink { input }
            | PhysNodeKind::InMemoryMap { input, .. }
            | PhysNodeKind::Map { input, .. }
            | PhysNodeKind::Sort { input, .. }
            | PhysNodeKind::Multiplexer { input }
            | PhysNodeKind::GroupBy { input, .. } => at_one(*input, place),
            PhysNodeKind::OrderedUnion { inputs } | PhysNodeKind::Zip { inputs, .. } => {
                at_place(inputs.as_slice(), place)
            }
            PhysNodeKind::EquiJoin {
                input_left,
                input_right,
                ..
            }
            | PhysNodeKind::InMemoryJoin {
                input_left,
                input_right,
                ..
            } => at_two(*input_left, *input_right, place),
        }
    }
}

/// A physical node: what it does, the schema of what it gives, and the logical node whose lowering made it.
#[derive(Drop)]
pub struct PhysNode {
    pub output_schema: Schema,
    pub kind: PhysNodeKind,
    pub origin: Node,
}

impl PhysNode {
    /// A node of these parts.
    pub fn new(output_schema: Schema, kind: PhysNodeKind, origin: Node) -> PhysNode
        ensures schema { result.output_schema ≡ output_schema }
        ensures kind { result.kind ≡ kind }
        ensures origin { result.origin ≡ origin }
    {
        PhysNode {
            output_schema,
            kind,
            origin,
        }
    }
}
