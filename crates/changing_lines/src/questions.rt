//! The questions of set line and remove line, after those of the image: each call's function answers the refusal, or which
//! row the change is about. The search that the last question makes is the one that the change needs.
#![tactic(auto, unfolding(model::specs::Questions::questions), using(laws::specs::Opens::unless_no, laws::specs::Opens::unless_yes, laws::specs::Answers::asked_no, laws::specs::Answers::asked_yes, laws::specs::Answers::asked_all, laws::specs::Answers::tested_no, laws::specs::Answers::tested_yes, crate::specs::Questions::named_yes, crate::specs::Questions::right_no, crate::specs::Questions::right_yes, tables::specs::AnswerLaws::at_index, tables::specs::AnswerLaws::key_is_there, tables::specs::AnswerLaws::key_missing, tables::specs::AnswerLaws::index_found, tables::specs::AnswerLaws::row_index_found,))]

ghost use Rattle.std.specs.Prelude.{[], ◌∷◌, ◌≡◌, take};
ghost use Rattle.model.specs.Sorted.{insertion_index};
ghost use Rattle.model.specs.Image.{line_key};
ghost use Rattle.model.specs.Calls.Change.{set_line, remove_line};
ghost use Rattle.model.specs.Questions.{questions, first_no, by_number, refused_by, unless};
ghost use Rattle.tables.specs.RowIndices.{row_index};

use model::{
    Item, LineRow, Privileges, REMOVE_LINE, Refusal, Role, SET_LINE, Subject, has, needed_position,
};
use permission::decision::permissions;
use rows::key::LineKey;
use tables::lines::kind_fits;
use tables::{RowIndex, Tables};

/// Where the line is stored.
pub fn ask_set_line(
    tables: &Tables<'_>,
    caller: Subject,
    role: Role,
    list: Item,
    kind: u32,
    subject: Subject,
    privileges: Privileges,
) -> Result<RowIndex, Refusal>
    ensures value { let t = tables.now in
        by_number result ≡ unless (first_no (questions t (set_line caller.0 role.0 list.0 kind subject.0 privileges)))
        (row_index line_key (list.0 ∷ kind ∷ subject.0 ∷ []) t.lines) }
    ensures number { let t = tables.now in
        refused_by result ≡ first_no (questions t (set_line caller.0 role.0 list.0 kind subject.0 privileges)) }
{
    ask_numbers(tables, caller, list, kind, subject)?;
    if !has(
        needed_position(SET_LINE),
        permissions(tables, caller, role, list),
    ) {
        return Err(Refusal::NotPermitted);
    }
    let key = LineKey {
        list,
        kind,
        subject,
    };
    let index = RowIndex::from(tables.rows::<LineRow>().search(key));
    if !tables.has_room::<LineRow>(index) {
        return Err(Refusal::TableFull);
    }
    Ok(index)
}

/// The index of the row to remove.
pub fn ask_remove_line(
    tables: &Tables<'_>,
    caller: Subject,
    role: Role,
    list: Item,
    kind: u32,
    subject: Subject,
) -> Result<u32, Refusal>
    ensures value { let t = tables.now in
        by_number result ≡ unless (first_no (questions t (remove_line caller.0 role.0 list.0 kind subject.0)))
        (insertion_index line_key (list.0 ∷ kind ∷ subject.0 ∷ []) t.lines) }
    ensures number { let t = tables.now in
        refused_by result ≡ first_no (questions t (remove_line caller.0 role.0 list.0 kind subject.0)) }
{
    ask_numbers(tables, caller, list, kind, subject)?;
    if !has(
        needed_position(REMOVE_LINE),
        permissions(tables, caller, role, list),
    ) {
        return Err(Refusal::NotPermitted);
    }
    let key = LineKey {
        list,
        kind,
        subject,
    };
    match tables.rows::<LineRow>().search(key) {
        Ok((n, _)) => Ok(n),
        Err(_) => Err(Refusal::NoSuchRow),
    }
}

// The questions of both calls about the numbers that they are handed: 10, 11, 13 and 14. They are the first four questions of
// each call, and none is about the role.
fn ask_numbers(
    tables: &Tables<'_>,
    caller: Subject,
    list: Item,
    kind: u32,
    subject: Subject,
) -> Result<(), Refusal>
    ensures { let t = tables.now in
        refused_by result ≡ first_no (take 4 (questions t (remove_line caller.0 0 list.0 kind subject.0))) }
{
    if !tables.subject_used(caller) {
        return Err(Refusal::UnknownCaller);
    }
    if !tables.subject_used(subject) {
        return Err(Refusal::UnknownSubject);
    }
    if !tables.is_list(list) {
        return Err(Refusal::NotAList);
    }
    if !kind_fits(kind, subject) {
        return Err(Refusal::OutOfRange);
    }
    Ok(())
}
