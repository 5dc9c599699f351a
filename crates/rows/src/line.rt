//! Lines as rows.
ghost use Rattle.std.specs.Prelude.{◌≡◌};
ghost use Rattle.std.proofs.Common.{rules};
ghost use Rattle.model.specs.WhoAndWhat.{privilege_width};
ghost use Rattle.model.specs.Image.{line_format};
ghost use Rattle.laws.specs.Rows.{line_lawful};

use crate::table::Row;
use fields::edits::offset_count;
use fields::numbers::{field, put_field};
use model::{Item, Layout, LineRow, Subject, Table};

impl Row for LineRow {
    ghost format = { line_format privilege_width };

    ghost SIZE = { 16 };

    ghost USED = { 16 };

    ghost table = { λ layout. layout.lines };

    const SIZE: usize = LineRow::SIZE;

    const USED: usize = Layout::LINES_USED;

    fn table(layout: Layout) -> Table {
        layout.lines
    }

    fn read(bytes: &[u8]) -> LineRow {
        LineRow::new(
            Item(field(bytes, 0)),
            field(bytes, 4),
            Subject(field(bytes, 8)),
            field(bytes, 12),
        )
    }

    #[tactic(auto, using(crate::proofs::PutLaws::put_out))]
    fn write(self, bytes: &mut [u8], at: usize) {
        if offset_count(bytes, LineRow::SIZE) <= at {
            return;
        }
        put_field(bytes, at, self.list.0);
        put_field(bytes, at + 4, self.kind);
        put_field(bytes, at + 8, self.subject.0);
        put_field(bytes, at + 12, self.privileges);
    }

    ghost lawful = { line_lawful privilege_width };

    ghost sized = { Prim.search rules };

    ghost few_bytes = { Prim.search rules };
}
