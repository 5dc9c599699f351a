//! The calls that change items.
#![tactic(auto)]

ghost use Rattle.std.specs.Prelude.{◌≡◌};
ghost use Rattle.model.specs.Calls.Change.{create_item, bind, hand_over};
ghost use Rattle.model.specs.Questions.{act, answer_of};

use crate::questions::{ask_bind, ask_create_item, ask_hand_over};
use acceptance::open;
use model::{Answer, Item, ItemRow, Refusal, Role, Subject};
use store::{add_row, replace_item};
use tables::Tables;

mod questions;

/// Creates an item, which the caller owns. A list governs it, or none where `list` is 0; it is in a folder, or in none where
/// `folder` is 0, and stays there. The result is the item's number.
pub fn create_item(
    image: &mut [u8],
    caller: Subject,
    role: Role,
    list: Item,
    flags: u32,
    folder: Item,
) -> Answer
    ensures value { result ≡ (act image.old (create_item caller.0 role.0 list.0 flags folder.0)).answer }
    ensures image_after { image.new
        ≡ (act image.old (create_item caller.0 role.0 list.0 flags folder.0)).image }
{
    Answer::from(try_create_item(image, caller, role, list, flags, folder))
}

fn try_create_item(
    image: &mut [u8],
    caller: Subject,
    role: Role,
    list: Item,
    flags: u32,
    folder: Item,
) -> Result<u32, Refusal>
    ensures value { answer_of result ≡ (act image.old (create_item caller.0 role.0 list.0 flags folder.0)).answer }
    ensures image_after { image.new ≡ (act image.old (create_item caller.0 role.0 list.0 flags folder.0)).image }
{
    let layout = open(image)?;
    let tables = Tables::at(image, layout);
    ask_create_item(&tables, caller, role, list, flags, folder)?;
    add_row(image, layout, ItemRow::new(caller, list, flags, folder));
    Ok(layout.items.used + 1)
}

/// Binds an item to a list, or to none where `list` is 0. The custodian may, and the owner where the item is not locked.
/// The result is 0.
pub fn bind(image: &mut [u8], caller: Subject, item: Item, list: Item) -> Answer
    ensures value { result ≡ (act image.old (bind caller.0 item.0 list.0)).answer }
    ensures image_after { image.new ≡ (act image.old (bind caller.0 item.0 list.0)).image }
{
    Answer::from(try_bind(image, caller, item, list))
}

fn try_bind(image: &mut [u8], caller: Subject, item: Item, list: Item) -> Result<u32, Refusal>
    ensures value { answer_of result ≡ (act image.old (bind caller.0 item.0 list.0)).answer }
    ensures image_after { image.new ≡ (act image.old (bind caller.0 item.0 list.0)).image }
{
    let layout = open(image)?;
    let tables = Tables::at(image, layout);
    ask_bind(&tables, caller, item, list)?;
    let row = tables.item_at(item).with_list(list);
    replace_item(image, layout, item, row);
    Ok(0)
}

/// Hands an item over to a new owner. Only the custodian may. The result is 0.
pub fn hand_over(image: &mut [u8], caller: Subject, item: Item, owner: Subject) -> Answer
    ensures value { result ≡ (act image.old (hand_over caller.0 item.0 owner.0)).answer }
    ensures image_after { image.new ≡ (act image.old (hand_over caller.0 item.0 owner.0)).image }
{
    Answer::from(try_hand_over(image, caller, item, owner))
}

fn try_hand_over(
    image: &mut [u8],
    caller: Subject,
    item: Item,
    owner: Subject,
) -> Result<u32, Refusal>
    ensures value { answer_of result ≡ (act image.old (hand_over caller.0 item.0 owner.0)).answer }
    ensures image_after { image.new ≡ (act image.old (hand_over caller.0 item.0 owner.0)).image }
{
    let layout = open(image)?;
    let tables = Tables::at(image, layout);
    ask_hand_over(&tables, caller, item, owner)?;
    let row = tables.item_at(item).with_owner(owner);
    replace_item(image, layout, item, row);
    Ok(0)
}
