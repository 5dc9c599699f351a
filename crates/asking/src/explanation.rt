//! The call that explains an item's own set.

ghost use Rattle.std.specs.Prelude.{◌≡◌};
ghost use Rattle.model.specs.Questions.{explain, explanation_of};

use acceptance::open_tables;
use model::{Explanation, Item, Refusal, Role, Subject};
use permission::explanation::explanation;

/// Why the own set of a subject under a role on an item is what it is, and which folder applies too. It asks what the
/// permission set call asks. A refused question has 0 in every field but the number.
pub fn explain(image: &[u8], subject: Subject, role: Role, item: Item) -> Explanation
    ensures { result ≡ explain image.now subject.0 role.0 item.0 }
{
    Explanation::from(asked_explanation(image, subject, role, item))
}

#[tactic(auto, using(laws::specs::Asks::explain_image))]
fn asked_explanation(
    image: &[u8],
    subject: Subject,
    role: Role,
    item: Item,
) -> Result<Explanation, Refusal>
    ensures { explanation_of result ≡ explain image.now subject.0 role.0 item.0 }
{
    let tables = open_tables(image)?;
    if !tables.subject_used(subject) {
        return Err(Refusal::UnknownCaller);
    }
    if !tables.item_used(item) {
        return Err(Refusal::UnknownItem);
    }
    Ok(explanation(&tables, subject, role, item))
}
