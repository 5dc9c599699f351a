//! A number in four bytes, the lowest byte first.
ghost use Rattle.std.specs.Prelude.{◌≡◌};
ghost use Rattle.model.specs.Image.{bytes_of, field_at};
ghost use Rattle.fields.specs.Edits.{put_bytes};

use crate::edits::{offset_count, replace_row};

/// A field that runs past the end reads as 0.
#[tactic(auto, using(crate::proofs::FieldLaws::field_past, crate::proofs::FieldLaws::field_read))]
pub fn field(bytes: &[u8], at: usize) -> u32
    ensures { result ≡ field_at 4 bytes.now at }
{
    if offset_count(bytes, 4) <= at {
        return 0;
    }
    u32::from_le_bytes([bytes[at], bytes[at + 1], bytes[at + 2], bytes[at + 3]])
}

/// A field that would run past the end is not written.
pub fn put_field(bytes: &mut [u8], at: usize, value: u32)
    ensures { bytes.new ≡ put_bytes bytes.old at (bytes_of 4 value) }
{
    replace_row(bytes, at, &value.to_le_bytes());
}
