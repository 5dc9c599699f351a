//! Stores rows in the tables of an image and removes them, together with the count in the header. No function asks whether
//! there is a free row: the questions before a call do.
#![tactic(auto)]

ghost use Rattle.std.specs.Prelude.{◌≡◌};
ghost use Rattle.model.specs.Image.{row_in_bytes};
ghost use Rattle.fields.specs.Edits.{insert_bytes};
ghost use Rattle.store.specs.Stores.{with_row, without_row, over_item, stored_at};

use fields::edits::{make_room, offset_count, remove_row};
use fields::numbers::put_field;
use model::{Item, ItemRow, Layout};
use rows::table::{Row, offset_of};
use tables::RowIndex;

/// Adds a row as the last one of its table.
pub fn add_row<R: Row>(image: &mut [u8], layout: Layout, row: R)
    ensures { image.new ≡ with_row R.format R.USED (R.table layout) (R.table layout).used row image.old }
{
    insert_row(image, layout, R::table(layout).used, row);
}

/// Stores a row at the row index that a search found.
pub fn store_row<R: Row>(image: &mut [u8], layout: Layout, index: RowIndex, row: R)
    ensures { image.new ≡ stored_at R.format R.USED (R.table layout) index row image.old }
{
    match index {
        RowIndex::Existing(n) => row.write(image, offset_of::<R>(layout, n)),
        RowIndex::New(n) => insert_row(image, layout, n, row),
    }
}

/// 0 is no item.
pub fn replace_item(image: &mut [u8], layout: Layout, item: Item, row: ItemRow)
    ensures { image.new ≡ over_item layout.items item.0 row image.old }
{
    if item.0 == 0 {
        return;
    }
    store_row(image, layout, RowIndex::Existing(item.0 - 1), row);
}

/// The rows in use behind the removed one move down, and the row that this frees at their end becomes zero.
#[tactic(auto, using(crate::proofs::StoreLaws::none_there, crate::proofs::StoreLaws::taken))]
pub fn take_row<R: Row>(image: &mut [u8], layout: Layout, n: u32)
    ensures { image.new ≡ without_row R.format R.USED (R.table layout) n image.old }
{
    let used = R::table(layout).used;
    let end = offset_of::<R>(layout, used);
    if image.len() < end {
        return;
    }
    if used == 0 {
        return;
    }
    remove_row(&mut image[..end], offset_of::<R>(layout, n), R::SIZE);
    put_field(image, R::USED, used - 1);
}

// The rows in use from the index on move up into the free row behind them, and no byte further on changes. The count wraps at
// 2^32, because every table is answered. In a call it does not: question 19 has found a free row before.
#[tactic(auto, using(crate::proofs::StoreLaws::added))]
fn insert_row<R: Row>(image: &mut [u8], layout: Layout, n: u32, row: R)
    ensures { image.new ≡ with_row R.format R.USED (R.table layout) n row image.old }
{
    let used = R::table(layout).used;
    let end = offset_of::<R>(layout, used);
    if offset_count(image, R::SIZE) <= end {
        return;
    }
    insert_at(&mut image[..end + R::SIZE], offset_of::<R>(layout, n), row);
    put_field(image, R::USED, used.wrapping_add(1));
}

#[tactic(auto, using(laws::specs::Rows::row_long))]
fn insert_at<R: Row>(bytes: &mut [u8], at: usize, row: R)
    ensures { bytes.new ≡ insert_bytes bytes.old at (row_in_bytes R.format row) }
{
    make_room(bytes, at, R::SIZE);
    row.write(bytes, at);
}
