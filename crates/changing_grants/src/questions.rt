//! The questions of set grant and remove grant, after those of the image: each call's function answers the refusal, or which
//! row the change is about.

#![tactic(auto, unfolding(model::specs::Questions::questions), using(laws::specs::Opens::unless_no, laws::specs::Opens::unless_yes, laws::specs::Answers::asked_no, laws::specs::Answers::asked_yes, laws::specs::Answers::asked_all, laws::specs::Answers::tested_no, laws::specs::Answers::tested_yes, tables::specs::AnswerLaws::at_index, tables::specs::AnswerLaws::key_is_there, tables::specs::AnswerLaws::key_missing, tables::specs::AnswerLaws::index_found, tables::specs::AnswerLaws::row_index_found, crate::specs::Questions::no_role, crate::specs::Questions::a_role, crate::specs::Questions::set_found, crate::specs::Questions::remove_found,))]

ghost use Rattle.std.specs.Prelude.{not, ◌||◌, [], ◌∷◌, ◌≡◌, eqb, Some};
ghost use Rattle.model.specs.Lists.{is_there};
ghost use Rattle.model.specs.Sorted.{insertion_index};
ghost use Rattle.model.specs.WhoAndWhat.{custodian};
ghost use Rattle.model.specs.Image.{grant_key};
ghost use Rattle.model.specs.Calls.Change.{set_grant, remove_grant};
ghost use Rattle.model.specs.Questions.{questions, first_no, given_by, by_number, refused_by, unless};
ghost use Rattle.rows.specs.Found.{found_by};
ghost use Rattle.tables.specs.RowIndices.{row_index};

use model::{CUSTODIAN, GrantRow, Privileges, Refusal, Role, Subject};
use rows::key::GrantKey;
use tables::{RowIndex, Tables};

/// Where the grant is stored.
pub fn ask_set_grant(
    tables: &Tables<'_>,
    caller: Subject,
    receiver: Subject,
    role: Role,
    domain: Subject,
    privileges: Privileges,
) -> Result<RowIndex, Refusal>
    ensures value { let t = tables.now in
        by_number result ≡ unless (first_no (questions t (set_grant caller.0 receiver.0 role.0 domain.0 privileges)))
        (row_index grant_key (receiver.0 ∷ role.0 ∷ []) t.grants) }
    ensures number { let t = tables.now in
        refused_by result ≡ first_no (questions t (set_grant caller.0 receiver.0 role.0 domain.0 privileges)) }
{
    if !tables.subject_used(caller) {
        return Err(Refusal::UnknownCaller);
    }
    if !tables.subject_used(receiver) {
        return Err(Refusal::UnknownSubject);
    }
    if !tables.subject_used(domain) {
        return Err(Refusal::UnknownSubject);
    }
    if role.0 == 0 {
        return Err(Refusal::OutOfRange);
    }
    if !tables.in_tree(caller, domain) {
        return Err(Refusal::OutsideTree);
    }
    let found = tables
        .rows::<GrantRow>()
        .search(GrantKey { receiver, role });
    if !may_set(found, caller) {
        return Err(Refusal::NotTheGrantor);
    }
    let index = RowIndex::from(found);
    if !tables.has_room::<GrantRow>(index) {
        return Err(Refusal::TableFull);
    }
    Ok(index)
}

/// The index of the row to remove.
pub fn ask_remove_grant(
    tables: &Tables<'_>,
    caller: Subject,
    receiver: Subject,
    role: Role,
) -> Result<u32, Refusal>
    ensures value { let t = tables.now in
        by_number result ≡ unless (first_no (questions t (remove_grant caller.0 receiver.0 role.0)))
        (insertion_index grant_key (receiver.0 ∷ role.0 ∷ []) t.grants) }
    ensures number { let t = tables.now in
        refused_by result ≡ first_no (questions t (remove_grant caller.0 receiver.0 role.0)) }
{
    if !tables.subject_used(caller) {
        return Err(Refusal::UnknownCaller);
    }
    if !tables.subject_used(receiver) {
        return Err(Refusal::UnknownSubject);
    }
    if role.0 == 0 {
        return Err(Refusal::OutOfRange);
    }
    let found = tables
        .rows::<GrantRow>()
        .search(GrantKey { receiver, role });
    let Ok((n, grant)) = found else {
        return Err(Refusal::NoSuchRow);
    };
    if !may_remove(grant, caller) {
        return Err(Refusal::NotTheGrantor);
    }
    Ok(n)
}

// Only its grantor may overwrite an existing row. A new row needs no such right.
fn may_set(found: Result<(u32, GrantRow), u32>, caller: Subject) -> bool
    ensures { let grant = (found_by found).row in result ≡ (not (is_there grant) || given_by caller.0 grant) }
{
    match found {
        Ok((_, grant)) => grant.grantor == caller,
        Err(_) => true,
    }
}

// The grantor of a grant may remove it, and the custodian may remove any.
fn may_remove(grant: GrantRow, caller: Subject) -> bool
    ensures { result ≡ (given_by caller.0 (Some grant) || eqb caller.0 custodian) }
{
    grant.grantor == caller || caller.0 == CUSTODIAN
}
