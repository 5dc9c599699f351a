//! Grants as rows.
ghost use Rattle.std.specs.Prelude.{◌≡◌};
ghost use Rattle.std.proofs.Common.{rules};
ghost use Rattle.model.specs.WhoAndWhat.{privilege_width};
ghost use Rattle.model.specs.Image.{grant_format};
ghost use Rattle.laws.specs.Rows.{grant_lawful};

use crate::table::Row;
use fields::edits::offset_count;
use fields::numbers::{field, put_field};
use model::{GrantRow, Layout, Role, Subject, Table};

impl Row for GrantRow {
    ghost format = { grant_format privilege_width };

    ghost SIZE = { 20 };

    ghost USED = { 8 };

    ghost table = { λ layout. layout.grants };

    const SIZE: usize = GrantRow::SIZE;

    const USED: usize = Layout::GRANTS_USED;

    fn table(layout: Layout) -> Table {
        layout.grants
    }

    fn read(bytes: &[u8]) -> GrantRow {
        GrantRow::new(
            Subject(field(bytes, 0)),
            Role(field(bytes, 4)),
            Subject(field(bytes, 8)),
            Subject(field(bytes, 12)),
            field(bytes, 16),
        )
    }

    #[tactic(auto, using(crate::proofs::PutLaws::put_out))]
    fn write(self, bytes: &mut [u8], at: usize) {
        if offset_count(bytes, GrantRow::SIZE) <= at {
            return;
        }
        put_field(bytes, at, self.receiver.0);
        put_field(bytes, at + 4, self.role.0);
        put_field(bytes, at + 8, self.grantor.0);
        put_field(bytes, at + 12, self.domain.0);
        put_field(bytes, at + 16, self.privileges);
    }

    ghost lawful = { grant_lawful privilege_width };

    ghost sized = { Prim.search rules };

    ghost few_bytes = { Prim.search rules };
}
