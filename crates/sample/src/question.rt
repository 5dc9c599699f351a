//! The calls that only ask, and how they are printed.
use asking::editor::find_editor;
use asking::explanation::explain;
use asking::sets::{operation_set, permission_set};
use asking::steps::steps_up;
use model::{Answer, Explanation, Item, Role, Subject};
use std::{fmt, io};

/// A call that only asks, and answers a number and a result.
#[derive(Clone, Copy)]
pub enum Question {
    OperationSet { subject: u32, role: u32 },
    PermissionSet { subject: u32, role: u32, item: u32 },
    FindEditor { list: u32 },
    StepsUp { subject: u32, root: u32 },
}

impl Question {
    pub fn ask(self, image: &[u8]) -> Asked {
        let answer = match self {
            Question::OperationSet { subject, role } => operation_set(
                image,
                Subject(subject),
                Role(role),
            ),
            Question::PermissionSet {
                subject,
                role,
                item,
            } => permission_set(image, Subject(subject), Role(role), Item(item)),
            Question::FindEditor { list } => find_editor(image, Item(list)),
            Question::StepsUp { subject, root } => steps_up(image, Subject(subject), Subject(root)),
        };
        Asked {
            question: self,
            returned: Returned(answer),
        }
    }
}

impl fmt::Display for Question {
    fn fmt<W: fmt::Write>(&self, f: &mut fmt::Formatter<W>) -> fmt::Result {
        match *self {
            Question::OperationSet { subject, role } => write!(
                f,
                "operation_set subject {subject} role {role}"
            ),
            Question::PermissionSet {
                subject,
                role,
                item,
            } => write!(
                f,
                "permission_set subject {subject} role {role} item {item}"
            ),
            Question::FindEditor { list } => write!(f, "find_editor list {list}"),
            Question::StepsUp { subject, root } => write!(
                f,
                "steps_up subject {subject} root {root}"
            ),
        }
    }
}

/// A question, and what came back.
#[derive(Clone, Copy)]
pub struct Asked {
    question: Question,
    returned: Returned,
}

impl fmt::Display for Asked {
    fn fmt<W: fmt::Write>(&self, f: &mut fmt::Formatter<W>) -> fmt::Result {
        let Asked { question, returned } = *self;
        write!(f, "{question}: {returned}")
    }
}

/// What came back from a call.
#[derive(Clone, Copy)]
pub struct Returned(pub Answer);

impl fmt::Display for Returned {
    fn fmt<W: fmt::Write>(&self, f: &mut fmt::Formatter<W>) -> fmt::Result {
        let Answer { number, result } = self.0;
        write!(f, "number {number} result {result}")
    }
}

#[derive(Clone, Copy)]
struct Explained(Explanation);

impl fmt::Display for Explained {
    fn fmt<W: fmt::Write>(&self, f: &mut fmt::Formatter<W>) -> fmt::Result {
        let why = self.0;
        write!(
            f,
            "number {} rule {} group {}",
            why.number, why.rule, why.group
        )?;
        write!(
            f,
            " rule_set {} everyone_set {}",
            why.rule_set, why.everyone_set
        )?;
        write!(
            f,
            " role_set {} operations {}",
            why.role_set, why.operations
        )?;
        write!(f, " steps {} folder {}", why.steps, why.folder)
    }
}

pub fn print_explanation(
    rt: &impl Print,
    image: &[u8],
    subject: u32,
    role: u32,
    item: u32,
) -> io::Result<()> {
    let why = Explained(explain(image, Subject(subject), Role(role), Item(item)));
    println!(rt; "explain subject {subject} role {role} item {item}: {why}")
}

/// Prints permission sets, each with its explanation.
pub fn print_cases(rt: &impl Print, image: &[u8], cases: &[(u32, u32, u32)]) -> io::Result<()> {
    for &(subject, role, item) in cases {
        let question = Question::PermissionSet {
            subject,
            role,
            item,
        };
        println!(rt; "{}", question.ask(image))?;
        print_explanation(rt, image, subject, role, item)?;
    }
    Ok(())
}
