//! What a grant adds to the sets of a subject.

ghost use Rattle.std.specs.Prelude.{◌≡◌, Some};
ghost use Rattle.model.specs.Permission.{lent_operations, domain_steps, lent_on};

use lines::lines_part;
use model::{GrantRow, ItemRow, Privileges, intersection};
use tables::Tables;

/// What a grant adds to the operation set: its privileges that its grantor also has.
pub fn lent_operations(tables: &Tables<'_>, grant: Option<GrantRow>) -> Privileges
    ensures { result ≡ lent_operations tables.now grant }
{
    match grant {
        Some(held) => intersection(held.privileges, tables.privileges_of(held.grantor)),
        None => 0,
    }
}

/// What a grant adds to the object set of an item, and the steps from the item's owner up to the grant's domain.
#[derive(Clone, Copy, Debug, PartialEq, Eq)]
pub struct LentPart {
    pub steps: Option<u32>,
    pub privileges: Privileges,
}

/// Both for a grant that may be missing, by one climb. Without a grant nothing is added, and the owner counts as outside.
pub fn lent_part(tables: &Tables<'_>, grant: Option<GrantRow>, item: ItemRow) -> LentPart
    ensures steps { result.steps ≡ domain_steps tables.now grant item }
    ensures privileges { result.privileges ≡ lent_on tables.now grant item }
{
    match grant {
        Some(held) => {
            let steps = tables.steps_up(item.owner, held.domain);
            let privileges = part_within(tables, held, item, steps);
            LentPart { steps, privileges }
        }
        None => LentPart {
            steps: None,
            privileges: 0,
        },
    }
}

/// What a grant adds to the object set of an item, where nobody asks for the steps. It does not go by `lent_part`: the compiler
/// would make that a call, which was measured to be slower (docs/DECISIONS.md, D36).
pub fn granted_part(tables: &Tables<'_>, grant: GrantRow, item: ItemRow) -> Privileges
    ensures { result ≡ lent_on tables.now (Some grant) item }
{
    let steps = tables.steps_up(item.owner, grant.domain);
    part_within(tables, grant, item, steps)
}

// The same by the steps from the item's owner up to the grant's domain. If the owner is inside, it is those privileges of the
// grant that are in its grantor's lines' part.
#[tactic(auto, unfolding(model::specs::Tree::in_tree))]
fn part_within(
    tables: &Tables<'_>,
    grant: GrantRow,
    item: ItemRow,
    steps: Option<u32>,
) -> Privileges
    requires { steps ≡ domain_steps tables.now (Some grant) item }
    ensures { result ≡ lent_on tables.now (Some grant) item }
{
    match steps {
        Some(_) => intersection(grant.privileges, lines_part(tables, grant.grantor, item)),
        None => 0,
    }
}
