//! The call that changes subjects.
#![tactic(auto)]

ghost use Rattle.std.specs.Prelude.{◌≡◌};
ghost use Rattle.model.specs.Calls.{new_privileges};
ghost use Rattle.model.specs.Calls.Change.{define_subject};
ghost use Rattle.model.specs.Questions.{act, answer_of};

use crate::questions::ask_define_subject;
use acceptance::open;
use model::{Answer, CUSTODIAN, Privileges, Refusal, Role, Subject, SubjectRow, intersection};
use store::add_row;
use tables::Tables;

mod questions;

/// Defines a subject below a parent. The result is its number. From the custodian it gets all privileges that the call
/// names, from another caller only those that the caller's own row has. A claimed role does not count here.
pub fn define_subject(
    image: &mut [u8],
    caller: Subject,
    role: Role,
    parent: Subject,
    privileges: Privileges,
) -> Answer
    ensures value { result ≡ (act image.old (define_subject caller.0 role.0 parent.0 privileges)).answer }
    ensures image_after { image.new ≡ (act image.old (define_subject caller.0 role.0 parent.0 privileges)).image }
{
    Answer::from(try_define_subject(image, caller, role, parent, privileges))
}

fn try_define_subject(
    image: &mut [u8],
    caller: Subject,
    role: Role,
    parent: Subject,
    privileges: Privileges,
) -> Result<u32, Refusal>
    ensures value { answer_of result ≡ (act image.old (define_subject caller.0 role.0 parent.0 privileges)).answer }
    ensures image_after { image.new ≡ (act image.old (define_subject caller.0 role.0 parent.0 privileges)).image }
{
    let layout = open(image)?;
    let tables = Tables::at(image, layout);
    ask_define_subject(&tables, caller, role, parent, privileges)?;
    let held = new_privileges(&tables, caller, privileges);
    add_row(image, layout, SubjectRow::new(parent, held, caller));
    Ok(layout.subjects.used)
}

// The privileges that the new subject gets: from the custodian all that the call names, from another caller only those in
// the caller's own row. A claimed role lends nothing here.
fn new_privileges(tables: &Tables<'_>, caller: Subject, privileges: Privileges) -> Privileges
    ensures { result ≡ new_privileges tables.now caller.0 privileges }
{
    if caller.0 == CUSTODIAN {
        return privileges;
    }
    intersection(privileges, tables.privileges_of(caller))
}
