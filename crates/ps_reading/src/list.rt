// Lists of parts.
ghost use Rattle.std.specs.Prelude.{ℕ, suc, List, IfOk, IfSome};
ghost use Rattle.std.specs.List.{AllZip};
ghost use Rattle.serde_json.specs.Data.{Data, array};
ghost use Rattle.serde_json.specs.View.{items_of};
ghost use Rattle.ps_reading.specs.Reading.{Reads, ReadsItems};

use json::{Reader, Token};
use std::alloc::{AllocError, Global};

/// A part of a document that is read off the tokens of its JSON, under what stood before it.
pub trait ReadJson<C>: Drop {
    ghost use Rattle.std.specs.Prelude.{ℕ, IfOk, IfSome};
    ghost use Rattle.serde_json.specs.Data.{Data};
    ghost use Rattle.ps_reading.specs.Reading.{Reads};

    ghost is_json: { C → Self → Data → Type 0 };

    ghost nests: { ℕ };

    /// The part whose JSON comes first.
    ///
    /// `None` where no such part is told from the tokens; where the reader then stands isn't said.
    /// Fails only for want of memory.
    fn read_json(
        alloc: Global,
        context: &C,
        reader: &mut Reader<'_>,
    ) -> Result<Option<Self>, AllocError>
        ensures { IfOk result (λ o. IfSome o (λ x. (d : Data) × is_json context.now x d × Reads nests reader.old d reader.new)) };
}

/// The parts that an array holds.
///
/// `None` where no such array is told from the tokens; where the reader then stands isn't said. Fails
/// only for want of memory.
pub fn read_list<C, T: ReadJson<C>>(
    alloc: Global,
    context: &C,
    reader: &mut Reader<'_>,
) -> Result<Option<Vec<T>>, AllocError>
    ensures { IfOk result (λ o. IfSome o (λ xs. (ds : List Data) × AllZip (T.ReadJson.is_json context.now) xs.items ds × Reads (suc T.ReadJson.nests) reader.old (array (items_of ds)) reader.new)) }
{
    let Some(Token::BeginArray) = reader.next() else {
        return Ok(None);
    };
    // By `let`-`else`, so that the proof cites the value by its name.
    let Some(parts) = read_items(alloc, context, reader)? else {
        return Ok(None);
    };
    Ok(Some(parts))
}

// The parts up to the bracket that closes their array.
fn read_items<C, T: ReadJson<C>>(
    alloc: Global,
    context: &C,
    reader: &mut Reader<'_>,
) -> Result<Option<Vec<T>>, AllocError>
    ensures { IfOk result (λ o. IfSome o (λ xs. (ds : List Data) × AllZip (T.ReadJson.is_json context.now) xs.items ds × ReadsItems T.ReadJson.nests reader.old ds reader.new)) }
{
    let mut parts = Vec::new(alloc);
    'items: while !reader.take_end_array() {
        match T::read_json(alloc, context, reader)? {
            Some(part) => parts.push(part)?,
            None => return Ok(None),
        }
    }
    parts.shrink_to_fit();
    Ok(Some(parts))
}
