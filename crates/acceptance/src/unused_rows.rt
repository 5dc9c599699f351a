//! Question 7: the bytes of rows that are not in use.

ghost use Rattle.std.specs.Prelude.{◌≡◌, ◌+◌, ◌≤◌, length, take, drop, fold};
ghost use Rattle.std.specs.Int.Bits.{bit_or};
ghost use Rattle.model.specs.Lists.{all_of, zeros};
ghost use Rattle.model.specs.Image.{value, unused_rules, unused};

use model::{GrantRow, ItemRow, Layout, LineRow, SubjectRow};
use rows::table::{Row, offset_of};

#[tactic(auto, unfolding(model::specs::Image::unused_rules))]
pub fn unused_is_zero(image: &[u8], layout: Layout) -> bool
    ensures { result ≡ all_of (unused_rules layout image.now) }
{
    zero_behind::<SubjectRow>(image, layout)
        && zero_behind::<GrantRow>(image, layout)
        && zero_behind::<LineRow>(image, layout)
        && zero_behind::<ItemRow>(image, layout)
}

// Whether the bytes of a table's free rows are zero. Past the end of the image there are no bytes.
#[tactic(auto, using(crate::specs::Zeros::zero_none, crate::specs::Zeros::zero_some))]
fn zero_behind<R: Row>(image: &[u8], layout: Layout) -> bool
    ensures { result ≡ zeros (unused R.format (R.table layout) image.now) }
{
    let table = R::table(layout);
    let from = offset_of::<R>(layout, table.used);
    let end = image.len().min(table.end as usize);
    end <= from || is_zero(&image[from..end])
}

// Bytes are read by words of eight. The last word is read from the end, because the bytes may not be whole words. The first
// and the last are read before the loop, so one free row hardly needs it: byte by byte the check of a few subjects took 1.4 of
// the time. Every word is looked at: a loop that may end at any word could not take several at once.
#[tactic(auto, using(crate::specs::Zeros::union_zero, crate::specs::Zeros::seen_ends, crate::specs::Zeros::seen_one, crate::specs::Zeros::seen_all))]
fn is_zero(bytes: &[u8]) -> bool
    ensures { result ≡ zeros bytes.now }
{
    if bytes.len() < 8 {
        return union(bytes) == 0;
    }
    let mut seen = word(bytes, 0) | word(bytes, bytes.len() - 8);
    for n in 1..bytes.len() / 8 {
        seen |= word(bytes, n * 8);
    }
    seen == 0
}

// Eight bytes as one number, the lowest byte first, which the compiler reads at once.
#[tactic(auto, using(crate::specs::Zeros::word_read))]
fn word(bytes: &[u8], at: usize) -> u64
    requires { at + 8 ≤ length bytes.now }
    ensures { result ≡ value (take 8 (drop at bytes.now)) }
{
    u64::from_le_bytes([
        bytes[at],
        bytes[at + 1],
        bytes[at + 2],
        bytes[at + 3],
        bytes[at + 4],
        bytes[at + 5],
        bytes[at + 6],
        bytes[at + 7],
    ])
}

// The union of the bits of fewer bytes than a word. Unused rows of a table that is laid out are never so few.
fn union(bytes: &[u8]) -> u8
    ensures { result ≡ fold bit_or 0 bytes.now }
{
    bytes.iter().fold(0, |seen, byte| seen | *byte)
}
