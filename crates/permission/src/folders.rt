//! What an item's object set shares with those of the folders that apply to it, and to them, upward.

ghost use Rattle.std.specs.Prelude.{◌≡◌};
ghost use Rattle.model.specs.WhoAndWhat.{◌∪◌, ◌∩◌};
ghost use Rattle.model.specs.Permission.{part_on, lent_on, object_under, leads_up, shared_up};

use crate::decision::Asker;
use crate::parts::granted_part;
use lines::lines_part;
use model::{Item, ItemRow, Privileges, intersection, union};

/// The way goes on from an item to a folder: there is one, and its number is lower. In an accepted image the number of a folder
/// always is, so the second test only ensures that a loop ends on any bytes.
pub fn leads_up(item: Item, folder: Item) -> bool
    ensures { result ≡ leads_up item.0 folder.0 }
{
    folder.0 != 0 && folder.0 < item.0
}

impl<'t, 'a> Asker<'t, 'a> {
    /// What a set shares with the object sets of an item, of the folder that applies to it, of the folder that applies to that
    /// one, and so on. Each item's row is read once. Where nothing is left, no further folder is looked at. The way goes from
    /// folder to folder, so it is a loop: no iterator has it.
    pub fn shared_objects(&self, item: Item, set: Privileges) -> Privileges
        ensures { let t = self.now.tables.now in
            result ≡ set ∩ shared_up t.items (object_under t self.now.subject.0 self.now.grant) item.0 }
    {
        let mut left = set;
        let mut at = item;
        while left != 0 {
            let row = self.tables.item_at(at);
            left = intersection(left, self.objects_on(row));
            let folder = row.applied_folder();
            if !leads_up(at, folder) {
                return left;
            }
            at = folder;
        }
        0
    }

    // The object set on an item whose row is handed in. Without a grant it is the lines' part.
    fn objects_on(&self, item: ItemRow) -> Privileges
        ensures { let t = self.now.tables.now in
            result ≡ part_on t self.now.subject.0 item ∪ lent_on t self.now.grant item }
    {
        let own = lines_part(self.tables, self.subject, item);
        match self.grant {
            Some(held) => union(own, granted_part(self.tables, held, item)),
            None => own,
        }
    }
}
