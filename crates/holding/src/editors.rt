//! The lowest subject that may edit a list.

ghost use Rattle.std.specs.Prelude.{◌≡◌, option_map};
ghost use Rattle.model.specs.WhoAndWhat.{edit_list, has};
ghost use Rattle.model.specs.Image.{item_in};
ghost use Rattle.model.specs.Permission.{permission_set};
ghost use Rattle.model.specs.Calls.{lowest_editor};

use lines::lines_part;
use model::{Item, ItemRow, Role, SET_LINE, Subject, SubjectRow, has, needed_position};
use permission::decision::permissions;
use permission::folders::leads_up;
use tables::Tables;

/// The lowest subject, other than the custodian, that may edit the list. The list's row is read once.
pub fn lowest_editor(tables: &Tables<'_>, list: Item) -> Option<Subject>
    ensures { option_map (λ s. s.0) result ≡ lowest_editor tables.now list.0 }
{
    let row = tables.item_at(list);
    for n in 1..tables.count::<SubjectRow>() {
        if may_edit(tables, Subject(n), list, row) {
            return Some(Subject(n));
        }
    }
    None
}

// Whether a subject may edit a list without claiming a role. The list's row was read before. Lines are looked up only if the
// subject may edit lists at all, and folders only if the list's own lines allow it.
fn may_edit(tables: &Tables<'_>, subject: Subject, list: Item, row: ItemRow) -> bool
    requires { row ≡ item_in tables.now.items list.0 }
    ensures { result ≡ has edit_list (permission_set tables.now subject.0 0 list.0) }
{
    let needed = needed_position(SET_LINE);
    if !has(needed, tables.privileges_of(subject)) {
        return false;
    }
    if !has(needed, lines_part(tables, subject, row)) {
        return false;
    }
    let folder = row.applied_folder();
    if !leads_up(list, folder) {
        return true;
    }
    has(needed, permissions(tables, subject, Role(0), folder))
}
