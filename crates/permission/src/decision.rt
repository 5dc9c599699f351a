//! The sets of a subject, under a grant that it holds or might hold, and under the role that it claims.

ghost use Rattle.std.specs.Prelude.{◌≡◌};
ghost use Rattle.model.specs.WhoAndWhat.{◌∩◌};
ghost use Rattle.model.specs.Image.{privileges_in};
ghost use Rattle.model.specs.Permission.{grant_of, part_on, operation_under, permission_under};
ghost use Rattle.model.specs.Permission.{operation_set, permission_set};

use crate::parts::lent_operations;
use lines::lines_part;
use model::{GrantRow, Item, ItemRow, Privileges, Role, Subject, intersection, union};
use rows::key::GrantKey;
use tables::Tables;

/// Who asks: a subject, and the grant under which it asks, which it holds or might hold.
#[derive(Clone, Copy)]
pub struct Asker<'t, 'a> {
    pub tables: &'t Tables<'a>,
    pub subject: Subject,
    pub grant: Option<GrantRow>,
}

impl<'t, 'a> Asker<'t, 'a> {
    /// Under the role that the subject claims.
    pub fn claiming(tables: &'t Tables<'a>, subject: Subject, role: Role) -> Asker<'t, 'a>
        ensures tables { result.tables.now ≡ tables.now }
        ensures subject { result.subject ≡ subject }
        ensures grant { result.grant ≡ grant_of tables.now subject.0 role.0 }
    {
        Asker {
            tables,
            subject,
            grant: grant_of(tables, subject, role),
        }
    }

    #[tactic(auto, unfolding(model::specs::Permission::operation_under))]
    pub fn operations(&self) -> Privileges
        ensures { result ≡ operation_under self.now.tables.now self.now.subject.0 self.now.grant }
    {
        let own = self.tables.privileges_of(self.subject);
        union(own, lent_operations(self.tables, self.grant))
    }

    /// The operation set cuts once what the object sets of the item and of the folders that apply share.
    #[tactic(auto, using(laws::specs::Folders::permission_cut))]
    pub fn permissions(&self, item: Item) -> Privileges
        ensures { result ≡ permission_under self.now.tables.now self.now.subject.0 self.now.grant item.0 }
    {
        self.shared_objects(item, self.operations())
    }
}

/// The grant of a claimed role. Role 0 means no role.
pub fn grant_of(tables: &Tables<'_>, subject: Subject, role: Role) -> Option<GrantRow>
    ensures { result ≡ grant_of tables.now subject.0 role.0 }
{
    if role == Role(0) {
        return None;
    }
    tables.rows::<GrantRow>().find(GrantKey {
        receiver: subject,
        role,
    })
}

/// The own set of an item whose row is handed in, of a subject that claims no role. Whoever asks for the sets of many subjects on
/// one item reads its row once.
pub fn own_set_on(tables: &Tables<'_>, subject: Subject, item: ItemRow) -> Privileges
    ensures { let t = tables.now in
        result ≡ privileges_in t.subjects subject.0 ∩ part_on t subject.0 item }
{
    let own = tables.privileges_of(subject);
    let part = lines_part(tables, subject, item);
    intersection(own, part)
}

/// The operation set.
pub fn operations(tables: &Tables<'_>, subject: Subject, role: Role) -> Privileges
    ensures { result ≡ operation_set tables.now subject.0 role.0 }
{
    Asker::claiming(tables, subject, role).operations()
}

/// The permission set.
pub fn permissions(tables: &Tables<'_>, subject: Subject, role: Role, item: Item) -> Privileges
    ensures { result ≡ permission_set tables.now subject.0 role.0 item.0 }
{
    Asker::claiming(tables, subject, role).permissions(item)
}
