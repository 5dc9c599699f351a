//! Subjects as rows.
ghost use Rattle.std.specs.Prelude.{◌≡◌};
ghost use Rattle.std.proofs.Common.{rules};
ghost use Rattle.model.specs.WhoAndWhat.{privilege_width};
ghost use Rattle.model.specs.Image.{subject_format};
ghost use Rattle.laws.specs.Rows.{subject_lawful};

use crate::table::Row;
use fields::edits::offset_count;
use fields::numbers::{field, put_field};
use model::{Layout, Subject, SubjectRow, Table};

impl Row for SubjectRow {
    ghost format = { subject_format privilege_width };

    ghost SIZE = { 12 };

    ghost USED = { 0 };

    ghost table = { λ layout. layout.subjects };

    const SIZE: usize = SubjectRow::SIZE;

    const USED: usize = Layout::SUBJECTS_USED;

    fn table(layout: Layout) -> Table {
        layout.subjects
    }

    fn read(bytes: &[u8]) -> SubjectRow {
        SubjectRow::new(
            Subject(field(bytes, 0)),
            field(bytes, 4),
            Subject(field(bytes, 8)),
        )
    }

    #[tactic(auto, using(crate::proofs::PutLaws::put_out))]
    fn write(self, bytes: &mut [u8], at: usize) {
        if offset_count(bytes, SubjectRow::SIZE) <= at {
            return;
        }
        put_field(bytes, at, self.parent.0);
        put_field(bytes, at + 4, self.privileges);
        put_field(bytes, at + 8, self.creator.0);
    }

    ghost lawful = { subject_lawful privilege_width };

    ghost sized = { Prim.search rules };

    ghost few_bytes = { Prim.search rules };
}
