//! Why an item's own set is what it is; each part of the answer comes from the function by which the permission set is found.

ghost use Rattle.std.specs.Prelude.{◌≡◌};
ghost use Rattle.model.specs.Permission.{explanation_under, explanation};

use crate::decision::Asker;
use crate::parts::lent_part;
use lines::applied_lines;
use model::{Explanation, Item, Role, Subject, steps_number};
use tables::Tables;

impl<'t, 'a> Asker<'t, 'a> {
    /// The item's row is read once, and the climb to the grant's domain is made once, for what the role adds and for the steps.
    #[tactic(auto, unfolding(model::specs::Permission::explanation_under))]
    pub fn explanation(&self, item: Item) -> Explanation
        ensures { result ≡ explanation_under self.now.tables.now self.now.subject.0 self.now.grant item.0 }
    {
        let row = self.tables.item_at(item);
        let applied = applied_lines(self.tables, self.subject, row);
        let lent = lent_part(self.tables, self.grant, row);
        Explanation {
            number: 0,
            rule: applied.rule.number(),
            group: applied.rule.group(),
            rule_set: applied.rule.set(self.tables.all_privileges()),
            everyone_set: applied.everyone,
            role_set: lent.privileges,
            operations: self.operations(),
            steps: steps_number(lent.steps),
            folder: row.applied_folder().0,
        }
    }
}

/// The same under the role that the subject claims.
pub fn explanation(tables: &Tables<'_>, subject: Subject, role: Role, item: Item) -> Explanation
    ensures { result ≡ explanation tables.now subject.0 role.0 item.0 }
{
    Asker::claiming(tables, subject, role).explanation(item)
}
