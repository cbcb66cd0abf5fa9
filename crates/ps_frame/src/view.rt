// The values of a column, read where they lie.
ghost use Rattle.std.specs.Prelude.{◌≡◌, ◌<◌, ◌↔◌, [], length, slice_get, IsTrue, Some};
ghost use Rattle.std.specs.List.{All};
ghost use Rattle.ps_frame.specs.Gathered.{picked};

use crate::value::Value;
use std::marker::Model;

/// The values that cells show, where they lie: all of a slice, or those at some places of it.
/// Contracts see them as a list.
#[derive(Drop)]
pub struct ColumnView<'a> {
    values: &'a [Value],
    places: Option<&'a [u32]>,
}

impl<'a> Model for ColumnView<'a> {
    ghost use Rattle.std.specs.Prelude.{List, ◌<◌, IfSome, length, option_map};
    ghost use Rattle.std.specs.List.{All};
    ghost use Rattle.ps_frame.specs.Gathered.{picked};
    ghost use Rattle.ps_frame.specs.declared.value.Value.{Value as CellValue};

    ghost Value = { List CellValue };

    ghost view = { λ a. picked (option_map (λ places. places.now) a.places) a.values.now };

    ghost invariant = { λ a. IfSome a.places (λ places. All (λ i. i < length a.values.now) places.now) };
}

impl<'a> ColumnView<'a> {
    /// These values, one for each cell.
    pub fn of_slice(values: &'a [Value]) -> ColumnView<'a>
        ensures { result ≡ values.now }
    {
        ColumnView {
            values,
            places: None,
        }
    }

    // What stands at places of these values.
    pub(crate) fn of_places(values: &'a [Value], places: &'a [u32]) -> ColumnView<'a>
        requires { All (λ i. i < length values.now) places.now }
        ensures { result ≡ picked (Some places.now) values.now }
    {
        ColumnView {
            values,
            places: Some(places),
        }
    }

    /// How many cells there are.
    pub fn len(&self) -> usize
        ensures { result ≡ length self.now }
    {
        match self.places {
            Some(places) => places.len(),
            None => self.values.len(),
        }
    }

    /// Whether there is no cell.
    pub fn is_empty(&self) -> bool
        ensures { IsTrue result ↔ (self.now ≡ []) }
    {
        self.len() == 0
    }

    // Where the value of a cell stands in the slice, if it is told by its place.
    pub(crate) fn place(&self, i: usize) -> Option<usize>
        requires { i < length self.now }
    {
        match self.places {
            Some(places) => Some(place_at(places, i)),
            None => None,
        }
    }

    /// The value of a cell.
    pub fn value(&self, i: usize) -> &'a Value
        requires { i < length self.now }
        ensures { slice_get self.now i ≡ Some result.now }
    {
        match self.places {
            Some(places) => picked_value(self.values, places, i),
            None => value_at(self.values, i),
        }
    }
}

fn value_at(values: &[Value], i: usize) -> &Value
    requires { i < length values.now }
    ensures { slice_get values.now i ≡ Some result.now }
{
    &values[i]
}

fn place_at(places: &[u32], i: usize) -> usize
    requires { i < length places.now }
    ensures { slice_get places.now i ≡ Some result }
{
    places[i] as usize
}

// The value at the i-th of these places.
fn picked_value<'a>(values: &'a [Value], places: &[u32], i: usize) -> &'a Value
    requires there { All (λ place. place < length values.now) places.now }
    requires within { i < length places.now }
    ensures { slice_get (picked (Some places.now) values.now) i ≡ Some result.now }
{
    value_at(values, places[i] as usize)
}
