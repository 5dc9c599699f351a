//! A row of any table, and the rows of a table as a list. Both are defined for any bytes: a field that is not there is 0,
//! and a row that the bytes do not have, or not whole, is the row of zeros.
ghost use Rattle.std.specs.Prelude.{◌≡◌, ℕ, ◌+◌, ◌*◌, ◌/◌, ◌^◌, ◌≤◌, ◌<◌, length, drop, get_or};
ghost use Rattle.model.specs.declared.Layout.{Layout};
ghost use Rattle.model.specs.declared.Table.{Table};
ghost use Rattle.model.specs.Image.{Format, size, first_row, rows_in, row_in_bytes};
ghost use Rattle.laws.specs.Rows.{Lawful};
ghost use Rattle.fields.specs.Edits.{put_bytes};
ghost use Rattle.rows.specs.Reading.{row_of, row_slice, rows_slice, used_slice, among_slice, zero_row};

use fields::edits::offset_count;
use model::{Layout, Table};
use std::marker::{Model, PhantomData};

/// A row of one of the tables, read and written field by field.
pub trait Row: Copy {
    ghost format: { Format Self };

    ghost SIZE: { ℕ };

    ghost USED: { ℕ };

    ghost table: { Layout → Table };

    const SIZE: usize;

    /// The offset at which the header counts the rows in use.
    const USED: usize;

    /// The table that has such rows.
    fn table(layout: Layout) -> Table
        ensures { result ≡ table layout };

    /// The row whose fields some bytes begin with.
    fn read(bytes: &[u8]) -> Self
        ensures { result ≡ row_of format bytes.now };

    /// A row that does not fit whole is not written.
    fn write(self, bytes: &mut [u8], at: usize)
        ensures { bytes.new ≡ put_bytes bytes.old at (row_in_bytes format self) };

    ghost lawful: { Lawful format };

    ghost sized: { SIZE ≡ size format };

    ghost few_bytes: { SIZE ≤ 32 };
}

/// The rows in use of one table.
#[derive(Drop)]
pub struct Rows<'a, R: Row> {
    bytes: &'a [u8],
    used: u32,
    row: PhantomData<R>,
}

impl<'a, R: Row> Model for Rows<'a, R> {
    ghost use Rattle.std.specs.Prelude.{List, ◌*◌, ◌≤◌, length};
    ghost use Rattle.model.specs.Image.{rows_from};

    ghost Value = { List R };

    ghost view = { λ r. rows_from R.format r.used r.bytes.now };

    ghost invariant = { λ r. length r.bytes.now ≤ r.used * R.SIZE };
}

impl<'a, R: Row> Rows<'a, R> {
    #[tactic(auto, using(crate::proofs::Listed::used_few))]
    pub fn cut(bytes: &'a [u8], layout: Layout) -> Rows<'a, R>
        ensures { result ≡ rows_in R.format (R.table layout) bytes.now }
    {
        Rows {
            bytes: rows_in_use::<R>(bytes, layout),
            used: R::table(layout).used,
            row: PhantomData,
        }
    }

    #[tactic(auto, using(laws::specs::Rows::rows_from_count))]
    pub fn len(&self) -> u32
        ensures { result ≡ length self.now }
    {
        self.used
    }

    /// How many rows the bytes have whole. All rows behind these are rows of zeros, so a pass may end here.
    #[tactic(auto, using(crate::proofs::Listed::whole_listed, crate::proofs::Listed::zeros_listed))]
    pub fn whole(&self) -> usize
        ensures few { result ≤ length self.now }
        ensures zeros { (k : ℕ) → result ≤ k → get_or self.now k (zero_row R.format) ≡ zero_row R.format }
    {
        whole_rows::<R>(self.bytes)
    }

    /// The row with an index; where there is none, the row of zeros.
    #[tactic(auto, using(crate::proofs::Listed::row_listed))]
    pub fn row(&self, n: u32) -> R
        ensures { result ≡ get_or self.now n (zero_row R.format) }
    {
        row_among(self.bytes, n)
    }
}

/// The row with an index, for whoever needs one row alone.
#[tactic(auto, using(crate::specs::RowLaws::row_sliced))]
pub fn row_at<R: Row>(bytes: &[u8], layout: Layout, n: u32) -> R
    ensures { result ≡ get_or (rows_in R.format (R.table layout) bytes.now) n (zero_row R.format) }
{
    R::read(row_bytes(bytes, R::table(layout), R::SIZE, n))
}

/// The slice of a table's rows in use, as far as the bytes have them. A pass, a climb or a search takes it once. For each row
/// it then only tests whether the slice has this row.
pub fn rows_in_use<'a, R: Row>(bytes: &'a [u8], layout: Layout) -> &'a [u8]
    ensures { result.now ≡ rows_slice R.format (R.table layout) bytes.now }
{
    used_bytes(bytes, R::table(layout), R::SIZE)
}

/// How many whole rows such a slice has.
pub fn whole_rows<R: Row>(rows: &[u8]) -> usize
    ensures { result ≡ length rows.now / size R.format }
{
    rows.len() / R::SIZE
}

/// The row with an index of such a slice. A row that the slice does not have, or not whole, is the row of zeros.
#[tactic(auto, using(crate::specs::Among::among_read))]
pub fn row_among<R: Row>(rows: &[u8], n: u32) -> R
    ensures { result ≡ first_row R.format (drop (n * size R.format) rows.now) }
{
    R::read(bytes_among(rows, R::SIZE, n))
}

/// The offset of the row with an index. The bound lets callers add a row's size to it without a test.
pub fn offset_of<R: Row>(layout: Layout, n: u32) -> usize
    ensures value { result ≡ (R.table layout).start + n * size R.format }
    ensures upper_bound { result < 2 ^ 40 }
{
    R::table(layout).start as usize + n as usize * R::SIZE
}

// These three are handed plain numbers, so they are compiled and proved once, and not for each kind of row.

// The slice of the row with index n, in a table whose rows have `size` bytes. The slice is empty if the row is not in
// use or runs past the end.
#[tactic(auto, using(crate::specs::RowLaws::slice_unused, crate::specs::RowLaws::slice_out, crate::specs::RowLaws::slice_whole, crate::specs::RowLaws::product_near))]
fn row_bytes<'a>(bytes: &'a [u8], table: Table, size: usize, n: u32) -> &'a [u8]
    requires { size ≤ 32 }
    ensures { result.now ≡ row_slice table size n bytes.now }
{
    if table.used <= n {
        return &bytes[..0];
    }
    let at = table.start as usize + n as usize * size;
    if offset_count(bytes, size) <= at {
        return &bytes[..0];
    }
    let end = at + size;
    &bytes[at..end]
}

// The slice of a table's rows in use, as far as the bytes have them. Its rows have `size` bytes.
#[tactic(auto, using(crate::specs::Among::rows_none, crate::specs::Among::rows_rest, crate::specs::Among::rows_all, crate::specs::RowLaws::product_near))]
fn used_bytes<'a>(bytes: &'a [u8], table: Table, size: usize) -> &'a [u8]
    requires { size ≤ 32 }
    ensures { result.now ≡ used_slice size table bytes.now }
{
    let start = table.start as usize;
    if bytes.len() <= start {
        return &bytes[..0];
    }
    let end = start + table.used as usize * size;
    if bytes.len() < end {
        return &bytes[start..];
    }
    &bytes[start..end]
}

// The bytes of the row with index n of such a slice, or none. The test compares the index and not an offset, so that a pass,
// a climb or a search computes the number of rows only once.
#[tactic(auto, using(crate::specs::Among::among_past, crate::specs::Among::among_whole, crate::specs::RowLaws::product_near))]
fn bytes_among<'a>(rows: &'a [u8], size: usize, n: u32) -> &'a [u8]
    requires size_nonzero { 0 < size }
    requires size_bound { size ≤ 32 }
    ensures { result.now ≡ among_slice size n rows.now }
{
    if rows.len() / size <= n as usize {
        return &rows[..0];
    }
    let at = n as usize * size;
    let end = at + size;
    &rows[at..end]
}
