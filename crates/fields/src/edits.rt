//! Rows of any length replaced, inserted and removed in bytes that the caller lends.
ghost use Rattle.std.specs.Prelude.{List, ℕ, ◌≡◌, ◌+◌, ◌-◌, length};
ghost use Rattle.fields.specs.Edits.{put_bytes, insert_bytes, remove_bytes};

/// Writes a row over the bytes from offset `at` on.
#[tactic(auto, using(crate::proofs::EditLaws::not_replaced, crate::proofs::EditLaws::replaced))]
pub fn replace_row(bytes: &mut [u8], at: usize, row: &[u8])
    ensures { bytes.new ≡ put_bytes bytes.old at row.now }
{
    if offset_count(bytes, row.len()) <= at {
        return;
    }
    bytes[at..at + row.len()].copy_from_slice(row);
}

/// Moves the bytes from offset `at` on up by `size`, so that a row of that size that is then written there is inserted. The last
/// bytes, as many as the row has, are lost: callers make sure that they are free. The last byte moves first, so that none is
/// overwritten before it has moved. It is a loop, as the compiler makes a call of C's `memmove` of a `copy_within` upward: the
/// static library then needs that name from whoever links it.
#[tactic(auto, using(crate::proofs::Raised::raised_pasted, crate::proofs::EditLaws::no_room, crate::proofs::EditLaws::inserted))]
pub fn make_room(bytes: &mut [u8], at: usize, size: usize)
    ensures { (row : List ℕ) → length row ≡ size → put_bytes bytes.new at row ≡ insert_bytes bytes.old at row }
{
    if offset_count(bytes, size) <= at {
        return;
    }
    for from in (at..bytes.len() - size).rev() {
        bytes[from + size] = bytes[from];
    }
}

/// The bytes that this frees at the end become zero, as the bytes of unused rows have to be.
#[tactic(auto, using(crate::proofs::EditLaws::not_removed, crate::proofs::EditLaws::removed))]
pub fn remove_row(bytes: &mut [u8], at: usize, size: usize)
    ensures { bytes.new ≡ remove_bytes bytes.old at size }
{
    if offset_count(bytes, size) <= at {
        return;
    }
    let remaining = bytes.len() - size;
    bytes.copy_within(at + size.., at);
    bytes[remaining..].fill(0);
}

/// The number of offsets at which `size` bytes fit. They fit at every offset below this number, and at no other.
pub fn offset_count(bytes: &[u8], size: usize) -> usize
    ensures { result ≡ length bytes.now + 1 - size }
{
    if bytes.len() < size {
        return 0;
    }
    bytes.len() - size + 1
}
