//! The calls that ask for the lines of a list.

ghost use Rattle.std.specs.Prelude.{◌≡◌, ◌+◌, ◌≤◌, length};
ghost use Rattle.model.specs.Calls.Ask.{list_count};
ghost use Rattle.model.specs.Questions.{answer_of, ask, list_start, list_extent, list_slice};

use crate::list_rows::shown_rows;
use model::{Answer, Item, LineRow, Refusal};
use rows::table::offset_of;

/// Counts the lines of a list. The result is how many rows it has.
pub fn list_count(image: &[u8], list: Item) -> Answer
    ensures { result ≡ ask image.now (list_count list.0) }
{
    Answer::from(asked_count(image, list))
}

#[tactic(auto, using(crate::specs::Shown::rows_ordered, crate::specs::Shown::count_refused, crate::specs::Shown::count_done))]
fn asked_count(image: &[u8], list: Item) -> Result<u32, Refusal>
    ensures { answer_of result ≡ ask image.now (list_count list.0) }
{
    let rows = shown_rows(image, list)?;
    Ok(rows.end - rows.first)
}

/// The rows of a list, as the slice of the lent image that holds them. Where the call is refused or the list has no rows,
/// it is the empty slice at offset 0.
/// The `ref_ptr` of a reference is a pair: the block of memory that it points into, and the byte in that block. The slice's
/// block is the image's, and its byte is the image's byte plus `list_start`. Equal bytes alone would not say which slice of
/// the image it is.
pub fn lines_of<'a>(image: &'a [u8], list: Item) -> &'a [u8]
    ensures rows { result.now ≡ list_slice image.now list.0 }
    ensures same_block { result.ref_ptr.0 ≡ image.entry.ref_ptr.0 }
    ensures offset { result.ref_ptr.1 ≡ list_start image.now list.0 + image.entry.ref_ptr.1 }
{
    let (start, end) = shown_bytes(image, list);
    &image[start..end]
}

/// The offset in the image at which the rows of a list start, for a host that cannot be handed the slice itself. Where the
/// call is refused or the list has no rows, it is 0.
pub fn list_start(image: &[u8], list: Item) -> usize
    ensures { result ≡ list_start image.now list.0 }
{
    let (start, _) = shown_bytes(image, list);
    start
}

// The offsets at which the rows of a list start and end.
#[tactic(auto, using(crate::specs::Shown::refused_start, crate::specs::Shown::refused_end, crate::specs::Shown::no_start, crate::specs::Shown::no_end, crate::specs::Shown::ends_inside))]
fn shown_bytes(image: &[u8], list: Item) -> (usize, usize)
    ensures start { result.0 ≡ list_start image.now list.0 }
    ensures end { result.1 ≡ list_start image.now list.0 + list_extent image.now list.0 }
    ensures inside { result.1 ≤ length image.now }
{
    let Ok(rows) = shown_rows(image, list) else {
        return (0, 0);
    };
    if rows.end <= rows.first {
        return (0, 0);
    }
    let start = offset_of::<LineRow>(rows.layout, rows.first);
    let end = offset_of::<LineRow>(rows.layout, rows.end);
    (start, end)
}
