// Where a value of another column is likely to stand among a few.
//
// Many columns that are put in show a few values of one run by places. A value that was looked for once is then
// found again by its place in that run. A cell that isn't told by a place has no hint: the place of its row says
// nothing of its value. A hint may be wrong or missing, as a guess may, so it is taken only where the value that stands
// there is the same. No more than memory depends on it.
ghost use Rattle.std.specs.Prelude.{◌≡◌, Err, IfSome, OnErr, Some, slice_get};

use crate::error::FrameError;
use crate::guesses::stands_at;
use crate::value::Value;
use std::alloc::Global;

// Of more values that others show, the rest has no hints.
const MOST_HINTS: usize = 4096;

/// Hints: for each place among the values of other columns, where the value that stood there last is held.
#[derive(Drop)]
pub(crate) struct Hints {
    places: Vec<u32>,
}

impl Hints {
    /// No hint, which takes no memory.
    pub(crate) fn new(alloc: Global) -> Hints {
        Hints {
            places: Vec::new(alloc),
        }
    }

    /// Where a value that stands at a place of its own run is held among those values, if there is a hint and it is right.
    pub(crate) fn place_of(&self, values: &[Value], value: &Value, at: Option<usize>) -> Option<u32>
        ensures { IfSome result (λ place. slice_get values.now place ≡ Some value.now) }
    {
        let place = *self.places.get(at?)?;
        if stands_at(values, place, value) {
            Some(place)
        } else {
            None
        }
    }

    /// Makes room for a hint at a place, unless that is too far.
    ///
    /// Fails only for want of memory.
    pub(crate) fn reach(&mut self, at: usize) -> Result<(), FrameError>
        ensures memory { OnErr result (result ≡ Err FrameError.OutOfMemory) }
    {
        if self.places.len() <= at && at < MOST_HINTS {
            self.places.resize(at + 1, 0)?;
        }
        Ok(())
    }

    /// Notes that the value which stands at a place of its own run is held at the last of these places, if there is
    /// room for the hint.
    pub(crate) fn note(&mut self, at: usize, places: &[u32]) {
        if let Some(place) = places.last() {
            if at < self.places.len() {
                self.places[at] = *place;
            }
        }
    }
}
