// How many rows operands give side by side, and what ends them early.
ghost use Rattle.std.specs.Prelude.{◌≡◌, map, false};
ghost use Rattle.std.specs.List.{list_any};
ghost use Rattle.ps_expr_eval.specs.Lengths.{disagrees, ending_fault, extent_held, first_ended, first_open, lesser_of};
ghost use Rattle.ps_frame.specs.Zip.{breaks_shape, broadcasts, zip_length};

use ps_frame::value::DataFault;

/// How an operand ends: after so many cells, and by a fault if it ends early.
#[derive(Clone, Copy, Debug)]
pub struct Ending {
    pub fault: Option<DataFault>,
    pub len: usize,
}

impl Ending {
    /// Whether the operand's only cell stands in each row.
    pub fn repeats(&self) -> bool
        ensures { result ≡ broadcasts false (extent_held self.now) }
    {
        self.fault.is_none() && self.len == 1
    }
}

/// How many rows the operands give: the least length of those that don't repeat, and 1 where all do.
pub fn count_rows(endings: &[Ending]) -> usize
    ensures { result ≡ zip_length false (map extent_held endings.now) }
{
    let mut least = None;
    for ending in endings {
        if !ending.repeats() {
            least = Some(lesser(least, ending.len));
        }
    }
    least.unwrap_or(1)
}

fn lesser(least: Option<usize>, len: usize) -> usize
    ensures { result ≡ lesser_of least len }
{
    match least {
        Some(least) => least.min(len),
        None => len,
    }
}

/// Whether the lengths of the operands can't agree.
pub fn differ(endings: &[Ending]) -> bool
    ensures { result ≡ breaks_shape false (map extent_held endings.now) }
{
    match first_open_length(endings) {
        Some(len) => any_unlike(endings, len),
        None => false,
    }
}

/// The length of the first operand that no fault ended and that hasn't one cell.
fn first_open_length(endings: &[Ending]) -> Option<usize>
    ensures { result ≡ first_open endings.now }
{
    for ending in endings {
        if ending.fault.is_none() && ending.len != 1 {
            return Some(ending.len);
        }
    }
    None
}

// Whether an operand can't stand beside whole ones of this length.
fn is_unlike(ending: &Ending, len: usize) -> bool
    ensures { result ≡ disagrees len ending.now }
{
    match ending.fault {
        Some(_) => 2 <= ending.len && len < ending.len,
        None => ending.len != 1 && ending.len != len,
    }
}

fn any_unlike(endings: &[Ending], len: usize) -> bool
    ensures { result ≡ list_any (disagrees len) endings.now }
{
    endings.iter().any(|ending| is_unlike(ending, len))
}

/// One of the faults that end the operands side by side early, if there is one.
pub fn early_fault(endings: &[Ending]) -> Option<DataFault>
    ensures { result ≡ ending_fault endings.now }
{
    if differ(endings) {
        return Some(DataFault::Shape);
    }
    first_fault(endings)
}

fn first_fault(endings: &[Ending]) -> Option<DataFault>
    ensures { result ≡ first_ended endings.now }
{
    for ending in endings {
        if ending.fault.is_some() {
            return ending.fault;
        }
    }
    None
}
