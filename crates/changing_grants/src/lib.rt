//! The calls that change grants: the questions find the row index, and the change writes there.
#![tactic(auto)]

ghost use Rattle.std.specs.Prelude.{◌≡◌};
ghost use Rattle.model.specs.Calls.Change.{set_grant, remove_grant};
ghost use Rattle.model.specs.Questions.{act, answer_of};

use crate::questions::{ask_remove_grant, ask_set_grant};
use acceptance::open;
use model::{Answer, GrantRow, Privileges, Refusal, Role, Subject};
use store::{store_row, take_row};
use tables::Tables;

mod questions;

/// Grants a role to a receiver, over a domain in the caller's tree. The caller's own grant of the same role to the same
/// receiver is overwritten; where another subject gave it, the call is refused. The result is 0.
pub fn set_grant(
    image: &mut [u8],
    caller: Subject,
    receiver: Subject,
    role: Role,
    domain: Subject,
    privileges: Privileges,
) -> Answer
    ensures value { result ≡ (act image.old (set_grant caller.0 receiver.0 role.0 domain.0 privileges)).answer }
    ensures image_after { image.new
        ≡ (act image.old (set_grant caller.0 receiver.0 role.0 domain.0 privileges)).image }
{
    Answer::from(try_set_grant(image, caller, receiver, role, domain, privileges))
}

fn try_set_grant(
    image: &mut [u8],
    caller: Subject,
    receiver: Subject,
    role: Role,
    domain: Subject,
    privileges: Privileges,
) -> Result<u32, Refusal>
    ensures value { answer_of result
        ≡ (act image.old (set_grant caller.0 receiver.0 role.0 domain.0 privileges)).answer }
    ensures image_after { image.new
        ≡ (act image.old (set_grant caller.0 receiver.0 role.0 domain.0 privileges)).image }
{
    let layout = open(image)?;
    let tables = Tables::at(image, layout);
    let index = ask_set_grant(&tables, caller, receiver, role, domain, privileges)?;
    let row = GrantRow::new(receiver, role, caller, domain, privileges);
    store_row(image, layout, index, row);
    Ok(0)
}

/// Takes a role back from its receiver. Only the subject that granted it and the custodian may. The result is 0.
pub fn remove_grant(image: &mut [u8], caller: Subject, receiver: Subject, role: Role) -> Answer
    ensures value { result ≡ (act image.old (remove_grant caller.0 receiver.0 role.0)).answer }
    ensures image_after { image.new ≡ (act image.old (remove_grant caller.0 receiver.0 role.0)).image }
{
    Answer::from(try_remove_grant(image, caller, receiver, role))
}

fn try_remove_grant(
    image: &mut [u8],
    caller: Subject,
    receiver: Subject,
    role: Role,
) -> Result<u32, Refusal>
    ensures value { answer_of result ≡ (act image.old (remove_grant caller.0 receiver.0 role.0)).answer }
    ensures image_after { image.new ≡ (act image.old (remove_grant caller.0 receiver.0 role.0)).image }
{
    let layout = open(image)?;
    let tables = Tables::at(image, layout);
    let n = ask_remove_grant(&tables, caller, receiver, role)?;
    take_row::<GrantRow>(image, layout, n);
    Ok(0)
}
