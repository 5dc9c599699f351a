//! Questions 3 to 6: the rules of the rows, table by table. Each pass ends at the first row that breaks a rule. A climb from
//! a subject to its parents comes after the test that the subject is in use. So the table bounds the climb's length.

// A pass and the rules of a row take the image and the layout by value and make the view inside: through a reference to the
// view, the check of an image was slower by up to a quarter.

ghost use Rattle.std.specs.Prelude.{Bool, true, ◌&&◌, ◌≡◌};
ghost use Rattle.model.specs.WhoAndWhat.{privilege_width};
ghost use Rattle.model.specs.Lists.{every};
ghost use Rattle.model.specs.Sorted.{before, ascending};
ghost use Rattle.model.specs.Image.{Tables, tables_by, subject_in, item_in, subjects_hold, items_hold, lines_hold, grants_hold};
ghost use Rattle.model.specs.Image.{custodian_rules, subject_rules, item_rules, line_rules, grant_rules};
ghost use Rattle.rows.specs.Reading.{zero_row};
ghost use Rattle.acceptance.specs.Rules.{line_follows, grant_follows};

use model::{
    GrantRow, Item, ItemRow, Layout, LineRow, Privileges, Role, Subject, SubjectRow, is_within,
};
use rows::key::Keyed;
use rows::table::Rows;
use tables::lines::kind_fits;
use tables::{Listed, Tables};

/// The pass goes through the rows that are entirely inside the image. Every other row counts as a row of zeros, which holds
/// the rules of every subject but the custodian. It counts by hand: by a range of `u32` or of `usize` the compiler keeps the
/// test whether the creator's row is there, and the check of many subjects took 1.18 and 1.34 of the time.
pub fn subjects_hold(image: &[u8], layout: Layout) -> bool
    ensures { result ≡ subjects_hold (tables_by layout image.now) }
{
    let tables = Tables::at(image, layout);
    let rows = tables.rows::<SubjectRow>();
    let used = rows.len();
    let whole = rows.whole();
    let mut n = 0;
    while (n as usize) < whole {
        if !subject_fits(&rows, n) {
            return false;
        }
        n += 1;
    }
    0 < n || used == 0
}

// Whether subject n holds its rules; `rows` are all subjects' rows.
fn subject_fits(rows: &Rows<'_, SubjectRow>, n: u32) -> bool
    ensures { result ≡ subject_rules privilege_width rows.now n (subject_in rows.now n) }
{
    let row = rows.row(n);
    if n == 0 {
        return custodian_fits(row);
    }
    row.parent.0 < n
        && row.creator.0 < n
        && is_within(row.privileges, rows.row(row.creator.0).privileges)
}

// Row 0: parent 0, all privileges, creator 0.
fn custodian_fits(row: SubjectRow) -> bool
    ensures { result ≡ custodian_rules privilege_width row }
{
    row == SubjectRow::new(Subject(0), Privileges::MAX, Subject(0))
}

pub fn items_hold(image: &[u8], layout: Layout) -> bool
    ensures { result ≡ items_hold (tables_by layout image.now) }
{
    let tables = Tables::at(image, layout);
    let used = tables.count::<ItemRow>();
    for n in 0..used {
        if !item_fits(image, layout, Item(n + 1)) {
            return false;
        }
    }
    true
}

fn item_fits(image: &[u8], layout: Layout, item: Item) -> bool
    ensures { let t = tables_by layout image.now in
        result ≡ item_rules t.subjects t.items item.0 (item_in t.items item.0) }
{
    let tables = Tables::at(image, layout);
    let row = tables.item_at(item);
    tables.subject_used(row.owner)
        && tables.none_or_list(row.list)
        && ItemRow::flags_fit(row.flags, row.folder)
        && row.folder.0 < item.0
}

/// A row of a sorted table, with the rules of one row. A row that holds them comes after the row of zeros.
trait Ruled: Keyed + Listed {
    ghost rules: { Tables → Self → Bool };

    fn fits(self, image: &[u8], layout: Layout) -> bool
        ensures { result ≡ rules (tables_by layout image.now) self };

    ghost follows: { (t : Tables) (x : Self) → rules t x ≡ true → before (Self.key_of (zero_row Self.format)) (Self.key_of x) ≡ true };
}

impl Ruled for LineRow {
    ghost rules = { λ t. line_rules t.subjects t.items };

    // The kind is asked last, which was measured (docs/DECISIONS.md, D9).
    fn fits(self, image: &[u8], layout: Layout) -> bool {
        let tables = Tables::at(image, layout);
        tables.is_list(self.list)
            && tables.subject_used(self.subject)
            && kind_fits(self.kind, self.subject)
    }

    ghost follows = { line_follows };
}

impl Ruled for GrantRow {
    ghost rules = { λ t. grant_rules t.subjects };

    fn fits(self, image: &[u8], layout: Layout) -> bool {
        let tables = Tables::at(image, layout);
        tables.subject_used(self.receiver)
            && self.role != Role(0)
            && tables.subject_used(self.grantor)
            && tables.subject_used(self.domain)
            && tables.in_tree(self.grantor, self.domain)
    }

    ghost follows = { grant_follows };
}

// Rows hold their rules and ascend. The first row needs no case of its own, as it comes after the row of zeros, which is
// what no bytes are read as. The order is asked first, which was measured (docs/DECISIONS.md, D9).
fn rows_hold<R: Ruled>(image: &[u8], layout: Layout) -> bool
    ensures { let t = tables_by layout image.now in
        result ≡ (every (R.rules t) (R.rows t) && ascending R.key_of (R.rows t)) }
{
    let tables = Tables::at(image, layout);
    let used = tables.count::<R>();
    let mut last = R::read(&image[..0]);
    for n in 0..used {
        let row = tables.row_at::<R>(n);
        if !last.before(row.key()) {
            return false;
        }
        if !row.fits(image, layout) {
            return false;
        }
        last = row;
    }
    true
}

#[tactic(auto, unfolding(model::specs::Image::lines_hold))]
pub fn lines_hold(image: &[u8], layout: Layout) -> bool
    ensures { result ≡ lines_hold (tables_by layout image.now) }
{
    rows_hold::<LineRow>(image, layout)
}

#[tactic(auto, unfolding(model::specs::Image::grants_hold))]
pub fn grants_hold(image: &[u8], layout: Layout) -> bool
    ensures { result ≡ grants_hold (tables_by layout image.now) }
{
    rows_hold::<GrantRow>(image, layout)
}
