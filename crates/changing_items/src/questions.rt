//! The questions of create item, bind and hand over, after those of the image.
#![tactic(auto, unfolding(model::specs::Questions::questions), using(laws::specs::Answers::asked_no, laws::specs::Answers::asked_yes, laws::specs::Answers::asked_all, laws::specs::Answers::tested_no, laws::specs::Answers::tested_yes, laws::specs::Sets::has_same, crate::specs::Questions::custodian_alone,))]

ghost use Rattle.std.specs.Prelude.{◌≡◌};
ghost use Rattle.model.specs.Calls.Change.{create_item, bind, hand_over};
ghost use Rattle.model.specs.Questions.{first_no, questions, may_bind, refused_by};

use model::{CREATE_ITEM, CUSTODIAN, Item, ItemRow, Refusal, Role, Subject, has, needed_position};
use permission::decision::operations;
use tables::Tables;

pub fn ask_create_item(
    tables: &Tables<'_>,
    caller: Subject,
    role: Role,
    list: Item,
    flags: u32,
    folder: Item,
) -> Result<(), Refusal>
    ensures { let t = tables.now in
        refused_by result ≡ first_no (questions t (create_item caller.0 role.0 list.0 flags folder.0)) }
{
    if !tables.subject_used(caller) {
        return Err(Refusal::UnknownCaller);
    }
    if !tables.none_or_item(folder) {
        return Err(Refusal::UnknownItem);
    }
    if !tables.none_or_list(list) {
        return Err(Refusal::NotAList);
    }
    if !ItemRow::flags_fit(flags, folder) {
        return Err(Refusal::OutOfRange);
    }
    if !has(
        needed_position(CREATE_ITEM),
        operations(tables, caller, role),
    ) {
        return Err(Refusal::NotPermitted);
    }
    if !tables.has_free::<ItemRow>() {
        return Err(Refusal::TableFull);
    }
    Ok(())
}

pub fn ask_bind(tables: &Tables<'_>, caller: Subject, item: Item, list: Item) -> Result<(), Refusal>
    ensures { refused_by result ≡ first_no (questions tables.now (bind caller.0 item.0 list.0)) }
{
    if !tables.subject_used(caller) {
        return Err(Refusal::UnknownCaller);
    }
    if !tables.item_used(item) {
        return Err(Refusal::UnknownItem);
    }
    if !tables.none_or_list(list) {
        return Err(Refusal::NotAList);
    }
    if !may_bind(tables, caller, item) {
        return Err(Refusal::NotPermitted);
    }
    Ok(())
}

// The custodian may bind any item, and the owner may bind an item that is not locked.
fn may_bind(tables: &Tables<'_>, caller: Subject, item: Item) -> bool
    ensures { result ≡ may_bind tables.now caller.0 item.0 }
{
    if caller.0 == CUSTODIAN {
        return true;
    }
    let row = tables.item_at(item);
    caller == row.owner && !row.is_locked()
}

pub fn ask_hand_over(
    tables: &Tables<'_>,
    caller: Subject,
    item: Item,
    owner: Subject,
) -> Result<(), Refusal>
    ensures { refused_by result ≡ first_no (questions tables.now (hand_over caller.0 item.0 owner.0)) }
{
    if !tables.subject_used(caller) {
        return Err(Refusal::UnknownCaller);
    }
    if !tables.subject_used(owner) {
        return Err(Refusal::UnknownSubject);
    }
    if !tables.item_used(item) {
        return Err(Refusal::UnknownItem);
    }
    if caller.0 != CUSTODIAN {
        return Err(Refusal::NotPermitted);
    }
    Ok(())
}
