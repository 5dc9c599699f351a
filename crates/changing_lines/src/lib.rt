//! The calls that change lines: the questions find the row index, and the change writes there.
#![tactic(auto)]

ghost use Rattle.std.specs.Prelude.{◌≡◌};
ghost use Rattle.model.specs.Calls.Change.{set_line, remove_line};
ghost use Rattle.model.specs.Questions.{act, answer_of};

use crate::questions::{ask_remove_line, ask_set_line};
use acceptance::open;
use model::{Answer, Item, LineRow, Privileges, Refusal, Role, Subject};
use store::{store_row, take_row};
use tables::Tables;

mod questions;

/// Sets a line of a list. The list's line of the same kind for the same subject is overwritten. The result is 0.
pub fn set_line(
    image: &mut [u8],
    caller: Subject,
    role: Role,
    list: Item,
    kind: u32,
    subject: Subject,
    privileges: Privileges,
) -> Answer
    ensures value { result ≡ (act image.old (set_line caller.0 role.0 list.0 kind subject.0 privileges)).answer }
    ensures image_after { image.new
        ≡ (act image.old (set_line caller.0 role.0 list.0 kind subject.0 privileges)).image }
{
    Answer::from(try_set_line(image, caller, role, list, kind, subject, privileges))
}

fn try_set_line(
    image: &mut [u8],
    caller: Subject,
    role: Role,
    list: Item,
    kind: u32,
    subject: Subject,
    privileges: Privileges,
) -> Result<u32, Refusal>
    ensures value { answer_of result
        ≡ (act image.old (set_line caller.0 role.0 list.0 kind subject.0 privileges)).answer }
    ensures image_after { image.new
        ≡ (act image.old (set_line caller.0 role.0 list.0 kind subject.0 privileges)).image }
{
    let layout = open(image)?;
    let tables = Tables::at(image, layout);
    let index = ask_set_line(&tables, caller, role, list, kind, subject, privileges)?;
    store_row(
        image,
        layout,
        index,
        LineRow::new(list, kind, subject, privileges),
    );
    Ok(0)
}

/// Removes the line of a list that has this kind and this subject. The result is 0.
pub fn remove_line(
    image: &mut [u8],
    caller: Subject,
    role: Role,
    list: Item,
    kind: u32,
    subject: Subject,
) -> Answer
    ensures value { result ≡ (act image.old (remove_line caller.0 role.0 list.0 kind subject.0)).answer }
    ensures image_after { image.new ≡ (act image.old (remove_line caller.0 role.0 list.0 kind subject.0)).image }
{
    Answer::from(try_remove_line(image, caller, role, list, kind, subject))
}

fn try_remove_line(
    image: &mut [u8],
    caller: Subject,
    role: Role,
    list: Item,
    kind: u32,
    subject: Subject,
) -> Result<u32, Refusal>
    ensures value { answer_of result ≡ (act image.old (remove_line caller.0 role.0 list.0 kind subject.0)).answer }
    ensures image_after { image.new ≡ (act image.old (remove_line caller.0 role.0 list.0 kind subject.0)).image }
{
    let layout = open(image)?;
    let tables = Tables::at(image, layout);
    let n = ask_remove_line(&tables, caller, role, list, kind, subject)?;
    take_row::<LineRow>(image, layout, n);
    Ok(0)
}
