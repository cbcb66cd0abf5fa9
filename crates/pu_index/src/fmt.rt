// Lists as text.
ghost use Rattle.std.specs.Prelude.{◌≡◌, ◌++◌, List, IfOk, OnErr, Err, encode_utf8, string_bytes};
ghost use Rattle.std.specs.Iterator.{Drains, IsFinite};
ghost use Rattle.pu_index.specs.Listed.{ShownBy, listed};
ghost use Rattle.pu_base.specs.declared.error.PolarsUtilsError.TheVariants as refusal;

use pu_base::Result;
use std::alloc::Global;
use std::fmt::Display;

/// The items of an iterator by `Display`, joined by `, `, between two characters.
///
/// Fails only for want of memory; an item that refuses to be shown counts as that.
pub fn joined<I: Iterator>(alloc: Global, items: I, start: char, end: char) -> Result<String>
where
    I::Item: Display + Drop,
    requires can { I.can_next items }
    requires ends { IsFinite (I.remaining items) }
    ensures text { IfOk result (λ text. (all : List I.Item) × Drains I.next_gives items all × ShownBy I.Item.output (λ show. string_bytes text ≡ encode_utf8 start ++ listed show all ++ encode_utf8 end)) }
    ensures memory { OnErr result (result ≡ Err refusal.OutOfMemory) }
{
    let mut text = String::new(alloc);
    text.push(start)?;
    let mut separator = "";
    for item in items {
        text.push_str(separator)?;
        text.write(item)?;
        separator = ", ";
    }
    text.push(end)?;
    Ok(text)
}

/// The items of what can be gone over, as a text between two characters: `format_list_container!(alloc, items, '<', '>')`.
#[macro_export]
macro_rules! format_list_container {
    ($alloc:expr, $items:expr, $start:expr, $end:expr) => {
        $crate::fmt::joined($alloc, $items.into_iter(), $start, $end)
    };
}

/// The items of what can be gone over, as a text in brackets: `format_list!(alloc, items)`.
#[macro_export]
macro_rules! format_list {
    ($alloc:expr, $items:expr) => {
        $crate::fmt::joined($alloc, $items.into_iter(), '[', ']')
    };
}

/// The items of what can be gone over, as a text in parentheses: `format_tuple!(alloc, items)`.
#[macro_export]
macro_rules! format_tuple {
    ($alloc:expr, $items:expr) => {
        $crate::fmt::joined($alloc, $items.into_iter(), '(', ')')
    };
}
