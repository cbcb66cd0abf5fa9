// What is in flight, as the records of a run tell.
use keyed_slots::Key;
use ps_flow::Record;
use ps_graph::graph::Graph;
use std::alloc::Global;
use std::test::Fail;

// A pipe with what its sender claimed and handed in, and what its reader took.
#[derive(Clone, Copy, Debug)]
struct Passed {
    sender: u32,
    receiver: u32,
    input: usize,
    claimed: u64,
    handed: u64,
    taken: u64,
}

impl Passed {
    // Whether it has no more than its room, and nothing was taken that wasn't there.
    fn is_within(&self, room: u64) -> bool {
        self.taken <= self.handed
            && self.handed <= self.claimed
            && self.claimed.saturating_sub(self.taken) <= room
    }
}

/// What goes through the pipes of a run, as its records tell.
#[derive(Drop)]
pub struct Flight {
    pipes: Vec<Passed>,
    // How many parts of its own each node claimed.
    own: Vec<u64>,
    seen: usize,
    room: u64,
}

impl Flight {
    /// Nothing, in a graph whose pipes have so much room.
    pub fn new<N>(alloc: Global, graph: &Graph<N>, room: usize) -> Result<Flight, Fail> {
        let mut pipes = Vec::new(alloc);
        for (_key, pipe) in graph.pipes.iter() {
            pipes.push(Passed {
                sender: pipe.sender.number(),
                receiver: pipe.receiver.number(),
                input: pipe.recv_port,
                claimed: 0,
                handed: 0,
                taken: 0,
            })?;
        }
        let own = vec![in alloc; 0u64; graph.nodes.len()]?;
        Ok(Flight {
            pipes,
            own,
            seen: 0,
            room: room as u64,
        })
    }

    // The number of a morsel that is taken of an input, if the node has such an input.
    fn take(&mut self, node: u32, input: u32) -> Option<u64> {
        let mut number = None;
        for pipe in self.pipes.iter_mut() {
            if pipe.receiver == node && pipe.input == input as usize {
                number = Some(pipe.taken);
                pipe.taken = pipe.taken.saturating_add(1);
            }
        }
        number
    }

    // The number of a part of a node's own.
    fn give(&mut self, node: u32) -> u64 {
        let place = node as usize;
        if place >= self.own.len() {
            return 0;
        }
        let number = self.own[place];
        self.own[place] = number.saturating_add(1);
        number
    }

    // A place was kept for a piece in each pipe out of its node.
    fn keep_place(&mut self, node: u32) {
        for pipe in self.pipes.iter_mut() {
            if pipe.sender == node {
                pipe.claimed = pipe.claimed.saturating_add(1);
            }
        }
    }

    // An answer went into each pipe out of its node.
    fn fill_place(&mut self, node: u32) {
        for pipe in self.pipes.iter_mut() {
            if pipe.sender == node {
                pipe.handed = pipe.handed.saturating_add(1);
            }
        }
    }

    // The number under which a node claims next, which it then did.
    fn claim(&mut self, node: u32, input: u32) -> u64 {
        self.keep_place(node);
        match self.take(node, input) {
            Some(taken) => taken,
            None => self.give(node),
        }
    }

    // One record more. Answers whether its number is the next one.
    fn count(&mut self, record: Record) -> bool {
        match record {
            Record::Claim {
                node,
                input,
                number,
                worker: _,
            } => self.claim(node, input) == number,
            Record::HandIn { node, .. } => {
                self.fill_place(node);
                true
            }
            Record::Pull {
                node,
                input,
                number,
            } => self.take(node, input) == Some(number),
            _ => true,
        }
    }

    // Whether no pipe has more than its room.
    fn is_within(&self) -> bool {
        self.pipes.iter().all(|pipe| pipe.is_within(self.room))
    }

    /// Counts the records that weren't counted yet. Each number of an input comes once, in order, and little is in flight.
    pub fn follow(&mut self, records: &[Record]) -> bool {
        let mut holds = true;
        for place in self.seen..records.len() {
            let counted = self.count(records[place]);
            holds = holds && counted && self.is_within();
        }
        self.seen = records.len();
        holds
    }
}
