//! How many subjects hold each privilege on an item.

ghost use Rattle.std.specs.Prelude.{◌≡◌, ◌+◌, ◌^◌, ◌<◌, length};
ghost use Rattle.std.specs.List.{AllByRecursion};
ghost use Rattle.model.specs.Image.{item_in};
ghost use Rattle.model.specs.Permission.{permission_set};
ghost use Rattle.model.specs.Calls.{holder_counts};
ghost use Rattle.holding.specs.Found.{counted};

use model::{Item, ItemRow, Privileges, Role, Subject, SubjectRow, intersection};
use permission::decision::{own_set_on, permissions};
use permission::folders::leads_up;
use tables::Tables;

/// Counts one subject's set after the other, from the custodian's on. The item's row is read once, a folder's row once for each
/// subject.
pub fn count_subjects(tables: &Tables<'_>, item: Item, counts: &mut [u32])
    ensures { let t = tables.now in
        counts.new ≡ holder_counts t item.0 (length counts.old) }
{
    counts.fill(0);
    let row = tables.item_at(item);
    for n in 0..tables.count::<SubjectRow>() {
        let set = set_on(tables, Subject(n), item, row);
        count_set(set, counts);
    }
}

// The permission set of a subject on an item whose row was read before: its own set, and where a folder applies, what that shares
// with the folder's permission set.
fn set_on(tables: &Tables<'_>, subject: Subject, item: Item, row: ItemRow) -> Privileges
    requires { row ≡ item_in tables.now.items item.0 }
    ensures { result ≡ permission_set tables.now subject.0 0 item.0 }
{
    let own = own_set_on(tables, subject, row);
    let folder = row.applied_folder();
    if !leads_up(item, folder) {
        return own;
    }
    intersection(own, permissions(tables, subject, Role(0), folder))
}

// Adds 1 to the entry of each position that the set has. Past the highest one there is nothing to add.
fn count_set(set: Privileges, counts: &mut [u32])
    requires { AllByRecursion (λ c. c + 1 < 2 ^ 32) counts.old }
    ensures { counts.new ≡ counted set counts.old }
{
    let mut rest = set;
    for count in counts.iter_mut() {
        if rest == 0 {
            return;
        }
        *count += rest % 2;
        rest /= 2;
    }
}
