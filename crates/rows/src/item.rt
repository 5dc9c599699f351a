//! Items as rows, and by number.
ghost use Rattle.std.specs.Prelude.{◌≡◌};
ghost use Rattle.std.proofs.Common.{rules};
ghost use Rattle.model.specs.Image.{item_format, item_in, rows_in};
ghost use Rattle.laws.specs.Rows.{item_lawful};

use crate::table::{Row, row_at};
use fields::edits::offset_count;
use fields::numbers::{field, put_field};
use model::{Item, ItemRow, Layout, Subject, Table};

impl Row for ItemRow {
    ghost format = { item_format };

    ghost SIZE = { 16 };

    ghost USED = { 24 };

    ghost table = { λ layout. layout.items };

    const SIZE: usize = ItemRow::SIZE;

    const USED: usize = Layout::ITEMS_USED;

    fn table(layout: Layout) -> Table {
        layout.items
    }

    fn read(bytes: &[u8]) -> ItemRow {
        ItemRow::new(
            Subject(field(bytes, 0)),
            Item(field(bytes, 4)),
            field(bytes, 8),
            Item(field(bytes, 12)),
        )
    }

    #[tactic(auto, using(crate::proofs::PutLaws::put_out))]
    fn write(self, bytes: &mut [u8], at: usize) {
        if offset_count(bytes, ItemRow::SIZE) <= at {
            return;
        }
        put_field(bytes, at, self.owner.0);
        put_field(bytes, at + 4, self.list.0);
        put_field(bytes, at + 8, self.flags);
        put_field(bytes, at + 12, self.folder.0);
    }

    ghost lawful = { item_lawful };

    ghost sized = { Prim.search rules };

    ghost few_bytes = { Prim.search rules };
}

/// Item n is the row with index n - 1, and 0 is no item.
pub fn item_at(bytes: &[u8], layout: Layout, item: Item) -> ItemRow
    ensures { result ≡ item_in (rows_in item_format layout.items bytes.now) item.0 }
{
    if item.0 == 0 {
        return ItemRow::new(Subject(0), Item(0), 0, Item(0));
    }
    row_at(bytes, layout, item.0 - 1)
}
