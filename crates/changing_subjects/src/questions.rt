//! The questions of define subject, after those of the image.
#![tactic(auto, unfolding(model::specs::Questions::questions), using(laws::specs::Answers::asked_no, laws::specs::Answers::asked_yes, laws::specs::Answers::asked_all, crate::specs::Questions::right_claimed, crate::specs::Questions::reach_claimed,))]

ghost use Rattle.std.specs.Prelude.{◌≡◌};
ghost use Rattle.model.specs.Calls.Change.{define_subject};
ghost use Rattle.model.specs.Questions.{first_no, questions, in_reach_under, refused_by};

use model::{DEFINE_SUBJECT, Privileges, Refusal, Role, Subject, SubjectRow, has, needed_position};
use permission::decision::{Asker, grant_of};
use tables::Tables;

pub fn ask_define_subject(
    tables: &Tables<'_>,
    caller: Subject,
    role: Role,
    parent: Subject,
    privileges: Privileges,
) -> Result<(), Refusal>
    ensures { let t = tables.now in
        refused_by result ≡ first_no (questions t (define_subject caller.0 role.0 parent.0 privileges)) }
{
    if !tables.subject_used(caller) {
        return Err(Refusal::UnknownCaller);
    }
    if !tables.subject_used(parent) {
        return Err(Refusal::UnknownSubject);
    }
    let asker = Asker {
        tables,
        subject: caller,
        grant: grant_of(tables, caller, role),
    };
    if !has(needed_position(DEFINE_SUBJECT), asker.operations()) {
        return Err(Refusal::NotPermitted);
    }
    if !in_reach(&asker, parent) {
        return Err(Refusal::OutsideTree);
    }
    if !tables.has_free::<SubjectRow>() {
        return Err(Refusal::TableFull);
    }
    Ok(())
}

// Whether the parent is in the caller's tree, or in the tree of the grantor of the claimed role.
fn in_reach(asker: &Asker<'_, '_>, parent: Subject) -> bool
    ensures { result ≡ in_reach_under asker.now.tables.now asker.now.subject.0 asker.now.grant parent.0 }
{
    if asker.tables.in_tree(asker.subject, parent) {
        return true;
    }
    match asker.grant {
        Some(held) => asker.tables.in_tree(held.grantor, parent),
        None => false,
    }
}
