//! The calls under C's conventions: the functions of the static library, which include/dacm.h declares. Each hands its
//! arguments to the call of the same meaning and has that call's contract. An `Answer` is number 0 and the call's result, or
//! the refusal and result 0.
#![tactic(auto)]

ghost use Rattle.std.specs.Prelude.{◌≡◌};
ghost use Rattle.model.specs.Calls.Ask.{check_image, operation_set_of, permission_set_of, list_count, find_editor, steps_up_of};
ghost use Rattle.model.specs.Calls.Change.{define_subject, set_grant, remove_grant, set_line, remove_line, create_item, bind, hand_over};
ghost use Rattle.model.specs.Questions.{ask, explain, count_holders, act, list_start};

use model::{Answer, Explanation, Item, Privileges, Role, Subject};

/// Checks an image, as every other call does first. The result is 0.
#[unsafe(no_mangle)]
pub extern "C" fn dacm_check(image: &[u8]) -> Answer
    ensures { result ≡ ask image.now check_image }
{
    asking::sets::check(image)
}

/// The result is the operation set of a subject under a role. Role 0 is no role, and a role that the subject was not granted
/// adds nothing.
#[unsafe(no_mangle)]
pub extern "C" fn dacm_operation_set(image: &[u8], subject: Subject, role: Role) -> Answer
    ensures { result ≡ ask image.now (operation_set_of subject.0 role.0) }
{
    asking::sets::operation_set(image, subject, role)
}

/// The result is the permission set of a subject under a role on an item. Role 0 is no role, and a role that the subject was
/// not granted adds nothing.
#[unsafe(no_mangle)]
pub extern "C" fn dacm_permission_set(
    image: &[u8],
    subject: Subject,
    role: Role,
    item: Item,
) -> Answer
    ensures { result ≡ ask image.now (permission_set_of subject.0 role.0 item.0) }
{
    asking::sets::permission_set(image, subject, role, item)
}

/// Why the own set of a subject under a role on an item is what it is: the rule that decided, the subject whose group line that
/// was, the sets that are put together, and the folder that applies too. A refused question has 0 in every field but the number.
#[unsafe(no_mangle)]
pub extern "C" fn dacm_explain(
    image: &[u8],
    subject: Subject,
    role: Role,
    item: Item,
) -> Explanation
    ensures { result ≡ explain image.now subject.0 role.0 item.0 }
{
    asking::explanation::explain(image, subject, role, item)
}

/// Counts the subjects, the custodian among them, whose permission set without a role has a position on the item: entry n
/// of `counts` receives the number for position n. There must be an entry for each position. The result is 0.
#[unsafe(no_mangle)]
pub extern "C" fn dacm_count_holders(image: &[u8], item: Item, counts: &mut [u32]) -> Answer
    ensures value { result ≡ (count_holders image.now item.0 counts.old).answer }
    ensures counts_after { counts.new ≡ (count_holders image.now item.0 counts.old).counts }
{
    asking::holders::count_holders(image, item, counts)
}

/// Counts the lines of a list. The result is how many rows it has.
#[unsafe(no_mangle)]
pub extern "C" fn dacm_list_count(image: &[u8], list: Item) -> Answer
    ensures { result ≡ ask image.now (list_count list.0) }
{
    asking::list_lines::list_count(image, list)
}

/// The offset in the image at which the rows of a list start. Where the call is refused or the list has no rows, it is 0.
#[unsafe(no_mangle)]
pub extern "C" fn dacm_list_start(image: &[u8], list: Item) -> usize
    ensures { result ≡ list_start image.now list.0 }
{
    asking::list_lines::list_start(image, list)
}

/// Finds the lowest subject, other than the custodian, that may edit the list without claiming a role. Its number is the
/// result. Where there is none, the call is refused with 20.
#[unsafe(no_mangle)]
pub extern "C" fn dacm_find_editor(image: &[u8], list: Item) -> Answer
    ensures { result ≡ ask image.now (find_editor list.0) }
{
    asking::editor::find_editor(image, list)
}

/// Counts the steps from a subject up to the root of a tree, from each subject to its parent. The result is 0 for the root
/// itself, and 4294967295 for a subject that is outside the tree.
#[unsafe(no_mangle)]
pub extern "C" fn dacm_steps_up(image: &[u8], subject: Subject, root: Subject) -> Answer
    ensures { result ≡ ask image.now (steps_up_of subject.0 root.0) }
{
    asking::steps::steps_up(image, subject, root)
}

/// Defines a subject below a parent. The result is its number. From the custodian it gets all privileges that the call
/// names, from another caller only those that the caller's own row has. A claimed role does not count here.
#[unsafe(no_mangle)]
pub extern "C" fn dacm_define_subject(
    image: &mut [u8],
    caller: Subject,
    role: Role,
    parent: Subject,
    privileges: Privileges,
) -> Answer
    ensures value { result ≡ (act image.old (define_subject caller.0 role.0 parent.0 privileges)).answer }
    ensures image_after { image.new ≡ (act image.old (define_subject caller.0 role.0 parent.0 privileges)).image }
{
    changing_subjects::define_subject(image, caller, role, parent, privileges)
}

/// Grants a role to a receiver, over a domain in the caller's tree. The caller's own grant of the same role to the same
/// receiver is overwritten; where another subject gave it, the call is refused. The result is 0.
#[unsafe(no_mangle)]
pub extern "C" fn dacm_set_grant(
    image: &mut [u8],
    caller: Subject,
    receiver: Subject,
    role: Role,
    domain: Subject,
    privileges: Privileges,
) -> Answer
    ensures value { result ≡ (act image.old (set_grant caller.0 receiver.0 role.0 domain.0 privileges)).answer }
    ensures image_after { image.new
        ≡ (act image.old (set_grant caller.0 receiver.0 role.0 domain.0 privileges)).image }
{
    changing_grants::set_grant(image, caller, receiver, role, domain, privileges)
}

/// Takes a role back from its receiver. Only the subject that granted it and the custodian may. The result is 0.
#[unsafe(no_mangle)]
pub extern "C" fn dacm_remove_grant(
    image: &mut [u8],
    caller: Subject,
    receiver: Subject,
    role: Role,
) -> Answer
    ensures value { result ≡ (act image.old (remove_grant caller.0 receiver.0 role.0)).answer }
    ensures image_after { image.new ≡ (act image.old (remove_grant caller.0 receiver.0 role.0)).image }
{
    changing_grants::remove_grant(image, caller, receiver, role)
}

/// Sets a line of a list. The list's line of the same kind for the same subject is overwritten. The result is 0.
#[unsafe(no_mangle)]
pub extern "C" fn dacm_set_line(
    image: &mut [u8],
    caller: Subject,
    role: Role,
    list: Item,
    kind: u32,
    subject: Subject,
    privileges: Privileges,
) -> Answer
    ensures value { result ≡ (act image.old (set_line caller.0 role.0 list.0 kind subject.0 privileges)).answer }
    ensures image_after { image.new
        ≡ (act image.old (set_line caller.0 role.0 list.0 kind subject.0 privileges)).image }
{
    changing_lines::set_line(image, caller, role, list, kind, subject, privileges)
}

/// Removes the line of a list that has this kind and this subject. The result is 0.
#[unsafe(no_mangle)]
pub extern "C" fn dacm_remove_line(
    image: &mut [u8],
    caller: Subject,
    role: Role,
    list: Item,
    kind: u32,
    subject: Subject,
) -> Answer
    ensures value { result ≡ (act image.old (remove_line caller.0 role.0 list.0 kind subject.0)).answer }
    ensures image_after { image.new ≡ (act image.old (remove_line caller.0 role.0 list.0 kind subject.0)).image }
{
    changing_lines::remove_line(image, caller, role, list, kind, subject)
}

/// Creates an item, which the caller owns. A list governs it, or none where `list` is 0; it is in a folder, or in none where
/// `folder` is 0, and stays there. The result is the item's number.
#[unsafe(no_mangle)]
pub extern "C" fn dacm_create_item(
    image: &mut [u8],
    caller: Subject,
    role: Role,
    list: Item,
    flags: u32,
    folder: Item,
) -> Answer
    ensures value { result ≡ (act image.old (create_item caller.0 role.0 list.0 flags folder.0)).answer }
    ensures image_after { image.new
        ≡ (act image.old (create_item caller.0 role.0 list.0 flags folder.0)).image }
{
    changing_items::create_item(image, caller, role, list, flags, folder)
}

/// Binds an item to a list, or to none where `list` is 0. The custodian may, and the owner where the item is not locked.
/// The result is 0.
#[unsafe(no_mangle)]
pub extern "C" fn dacm_bind(image: &mut [u8], caller: Subject, item: Item, list: Item) -> Answer
    ensures value { result ≡ (act image.old (bind caller.0 item.0 list.0)).answer }
    ensures image_after { image.new ≡ (act image.old (bind caller.0 item.0 list.0)).image }
{
    changing_items::bind(image, caller, item, list)
}

/// Hands an item over to a new owner. Only the custodian may. The result is 0.
#[unsafe(no_mangle)]
pub extern "C" fn dacm_hand_over(
    image: &mut [u8],
    caller: Subject,
    item: Item,
    owner: Subject,
) -> Answer
    ensures value { result ≡ (act image.old (hand_over caller.0 item.0 owner.0)).answer }
    ensures image_after { image.new ≡ (act image.old (hand_over caller.0 item.0 owner.0)).image }
{
    changing_items::hand_over(image, caller, item, owner)
}
