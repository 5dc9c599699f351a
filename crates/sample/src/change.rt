//! The calls that change the tables, and how they are printed.
use super::question::{Question, Returned};
use asking::sets::check;
use changing_grants::{remove_grant, set_grant};
use changing_items::{bind, create_item, hand_over};
use changing_lines::{remove_line, set_line};
use changing_subjects::define_subject;
use model::{Answer, Item, Role, Subject};
use std::{fmt, io};

/// A call that may write. A role that has no field is 0.
#[derive(Clone, Copy)]
pub enum Change {
    DefineSubject {
        caller: u32,
        role: u32,
        parent: u32,
        privileges: u32,
    },
    SetGrant {
        caller: u32,
        receiver: u32,
        role: u32,
        domain: u32,
        privileges: u32,
    },
    RemoveGrant {
        caller: u32,
        receiver: u32,
        role: u32,
    },
    SetLine {
        caller: u32,
        list: u32,
        kind: u32,
        subject: u32,
        privileges: u32,
    },
    RemoveLine {
        caller: u32,
        list: u32,
        kind: u32,
        subject: u32,
    },
    CreateItem {
        caller: u32,
        list: u32,
        flags: u32,
        folder: u32,
    },
    Bind {
        caller: u32,
        item: u32,
        list: u32,
    },
    HandOver {
        caller: u32,
        item: u32,
        owner: u32,
    },
}

impl Change {
    pub fn make(self, image: &mut [u8]) -> Made {
        let answer = match self {
            Change::DefineSubject {
                caller,
                role,
                parent,
                privileges,
            } => define_subject(
                image,
                Subject(caller),
                Role(role),
                Subject(parent),
                privileges,
            ),
            Change::SetGrant {
                caller,
                receiver,
                role,
                domain,
                privileges,
            } => set_grant(
                image,
                Subject(caller),
                Subject(receiver),
                Role(role),
                Subject(domain),
                privileges,
            ),
            Change::RemoveGrant {
                caller,
                receiver,
                role,
            } => remove_grant(image, Subject(caller), Subject(receiver), Role(role)),
            Change::SetLine {
                caller,
                list,
                kind,
                subject,
                privileges,
            } => set_line(
                image,
                Subject(caller),
                Role(0),
                Item(list),
                kind,
                Subject(subject),
                privileges,
            ),
            Change::RemoveLine {
                caller,
                list,
                kind,
                subject,
            } => remove_line(
                image,
                Subject(caller),
                Role(0),
                Item(list),
                kind,
                Subject(subject),
            ),
            Change::CreateItem {
                caller,
                list,
                flags,
                folder,
            } => create_item(
                image,
                Subject(caller),
                Role(0),
                Item(list),
                flags,
                Item(folder),
            ),
            Change::Bind { caller, item, list } => bind(
                image,
                Subject(caller),
                Item(item),
                Item(list),
            ),
            Change::HandOver {
                caller,
                item,
                owner,
            } => hand_over(image, Subject(caller), Item(item), Subject(owner)),
        };
        Made {
            change: self,
            answer,
            checked: check(image).number,
        }
    }
}

impl fmt::Display for Change {
    fn fmt<W: fmt::Write>(&self, f: &mut fmt::Formatter<W>) -> fmt::Result {
        match *self {
            Change::DefineSubject {
                caller,
                role,
                parent,
                privileges,
            } => write!(
                f,
                "define_subject caller {caller} role {role} parent {parent} privileges {privileges}"
            ),
            Change::SetGrant {
                caller,
                receiver,
                role,
                domain,
                privileges,
            } => write!(
                f,
                "set_grant caller {caller} receiver {receiver} role {role} domain {domain} privileges {privileges}"
            ),
            Change::RemoveGrant {
                caller,
                receiver,
                role,
            } => write!(
                f,
                "remove_grant caller {caller} receiver {receiver} role {role}"
            ),
            Change::SetLine {
                caller,
                list,
                kind,
                subject,
                privileges,
            } => write!(
                f,
                "set_line caller {caller} role 0 list {list} kind {kind} subject {subject} privileges {privileges}"
            ),
            Change::RemoveLine {
                caller,
                list,
                kind,
                subject,
            } => write!(
                f,
                "remove_line caller {caller} role 0 list {list} kind {kind} subject {subject}"
            ),
            Change::CreateItem {
                caller,
                list,
                flags,
                folder,
            } => write!(
                f,
                "create_item caller {caller} role 0 list {list} flags {flags} folder {folder}"
            ),
            Change::Bind { caller, item, list } => write!(
                f,
                "bind caller {caller} item {item} list {list}"
            ),
            Change::HandOver {
                caller,
                item,
                owner,
            } => write!(f, "hand_over caller {caller} item {item} owner {owner}"),
        }
    }
}

/// A change, what came back, and what `check` answers for the image afterwards.
#[derive(Clone, Copy)]
pub struct Made {
    change: Change,
    answer: Answer,
    checked: u32,
}

impl Made {
    /// What shows that the change is done: what a new subject may do, or what the caller may do with the item that it
    /// bound.
    pub fn shown_by(self) -> Option<Question> {
        if self.answer.number != 0 {
            return None;
        }
        match self.change {
            Change::DefineSubject { .. } => Some(Question::OperationSet {
                subject: self.answer.result,
                role: 0,
            }),
            Change::Bind { caller, item, .. } => Some(Question::PermissionSet {
                subject: caller,
                role: 0,
                item,
            }),
            _ => None,
        }
    }
}

impl fmt::Display for Made {
    fn fmt<W: fmt::Write>(&self, f: &mut fmt::Formatter<W>) -> fmt::Result {
        let change = self.change;
        let returned = Returned(self.answer);
        let checked = self.checked;
        write!(f, "{change}: {returned} check {checked}")
    }
}

/// Makes changes, one after the other on one image, and prints each on a line.
pub fn print_made(rt: &impl Print, image: &mut [u8], changes: &[Change]) -> io::Result<()> {
    for change in changes {
        println!(rt; "{}", change.make(image))?;
    }
    Ok(())
}
