//! The calls that check an image and that answer operation sets and permission sets.

ghost use Rattle.std.specs.Prelude.{◌≡◌};
ghost use Rattle.model.specs.Calls.Ask.{check_image, operation_set_of, permission_set_of};
ghost use Rattle.model.specs.Questions.{answer_of, ask};

use acceptance::open_tables;
use model::{Answer, Item, Refusal, Role, Subject};
use permission::decision::{operations, permissions};

/// Checks an image, as every other call does first. The result is 0.
pub fn check(image: &[u8]) -> Answer
    ensures { result ≡ ask image.now check_image }
{
    Answer::from(checked(image))
}

#[tactic(auto, using(laws::specs::Asks::ask_image))]
fn checked(image: &[u8]) -> Result<u32, Refusal>
    ensures { answer_of result ≡ ask image.now check_image }
{
    open_tables(image)?;
    Ok(0)
}

/// The result is the operation set of a subject under a role. Role 0 is no role, and a role that the subject was not granted
/// adds nothing.
pub fn operation_set(image: &[u8], subject: Subject, role: Role) -> Answer
    ensures { result ≡ ask image.now (operation_set_of subject.0 role.0) }
{
    Answer::from(asked_operations(image, subject, role))
}

#[tactic(auto, using(laws::specs::Asks::ask_image))]
fn asked_operations(image: &[u8], subject: Subject, role: Role) -> Result<u32, Refusal>
    ensures { answer_of result ≡ ask image.now (operation_set_of subject.0 role.0) }
{
    let tables = open_tables(image)?;
    if !tables.subject_used(subject) {
        return Err(Refusal::UnknownCaller);
    }
    Ok(operations(&tables, subject, role))
}

/// The result is the permission set of a subject under a role on an item. Role 0 is no role, and a role that the subject was
/// not granted adds nothing.
pub fn permission_set(image: &[u8], subject: Subject, role: Role, item: Item) -> Answer
    ensures { result ≡ ask image.now (permission_set_of subject.0 role.0 item.0) }
{
    Answer::from(asked_permissions(image, subject, role, item))
}

#[tactic(auto, using(laws::specs::Asks::ask_image))]
fn asked_permissions(image: &[u8], subject: Subject, role: Role, item: Item) -> Result<u32, Refusal>
    ensures { answer_of result ≡ ask image.now (permission_set_of subject.0 role.0 item.0) }
{
    let tables = open_tables(image)?;
    if !tables.subject_used(subject) {
        return Err(Refusal::UnknownCaller);
    }
    if !tables.item_used(item) {
        return Err(Refusal::UnknownItem);
    }
    Ok(permissions(&tables, subject, role, item))
}
