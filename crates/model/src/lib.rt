//! The basic types, constants and functions of the library: numbers, rows, privilege positions, calls. specs/ defines what they
//! mean, in one file for each section of docs/RULES.md.
#![tactic(auto)]

ghost use Rattle.std.specs.Prelude.{◌≡◌};
ghost use Rattle.model.specs.Tree.{steps_number};
ghost use Rattle.model.specs.WhoAndWhat.{mask_of, needed_position, has, within, ◌∪◌, ◌∩◌};
ghost use Rattle.model.specs.Image.{subject_row, grant_row, line_row, item_row, with_list, with_owner};
ghost use Rattle.model.specs.Image.{list_flag, locked_flag, folder_flag, flags_fit, kind_number, KindRead};
ghost use Rattle.model.specs.Permission.{rule_number, rule_group, rule_set, folder_on};
ghost use Rattle.model.specs.Questions.{answer, answer_of, refused_explanation, explanation_of};

pub use crate::refusal::Refusal;

mod refusal;

/// A subject by its number. Subjects, items and roles are numbers of types of their own, so that no call takes one for another.
#[repr(C)]
#[derive(Clone, Copy, Debug, PartialEq, Eq, PartialOrd, Ord)]
pub struct Subject(pub u32);

/// An item by its number; 0 is no item.
#[repr(C)]
#[derive(Clone, Copy, Debug, PartialEq, Eq, PartialOrd, Ord)]
pub struct Item(pub u32);

/// A role by its number; 0 is no role.
#[repr(C)]
#[derive(Clone, Copy, Debug, PartialEq, Eq, PartialOrd, Ord)]
pub struct Role(pub u32);

/// A set of privileges: bit n is position n. One alias, so that its width stands once.
pub type Privileges = u32;

pub const CUSTODIAN: u32 = 0;

#[derive(Clone, Copy, Debug, PartialEq, Eq)]
pub struct SubjectRow {
    pub parent: Subject,
    pub privileges: Privileges,
    pub creator: Subject,
}

#[derive(Clone, Copy, Debug, PartialEq, Eq)]
pub struct GrantRow {
    pub receiver: Subject,
    pub role: Role,
    pub grantor: Subject,
    pub domain: Subject,
    pub privileges: Privileges,
}

#[derive(Clone, Copy, Debug, PartialEq, Eq)]
pub struct LineRow {
    pub list: Item,
    pub kind: u32,
    pub subject: Subject,
    pub privileges: Privileges,
}

#[derive(Clone, Copy, Debug, PartialEq, Eq)]
pub struct ItemRow {
    pub owner: Subject,
    pub list: Item,
    pub flags: u32,
    pub folder: Item,
}

/// The rule that decides what the lines of an item's list give a subject, with the line that it found.
#[derive(Clone, Copy, Debug, PartialEq, Eq)]
pub enum Rule {
    Custodian,
    OwnerLine(LineRow),
    OwnLine(LineRow),
    GroupLine(LineRow),
    NothingFound,
}

/// One table of an image: how many rows are in use, the offset at which it starts, and the offset right behind its last byte.
#[derive(Clone, Copy, Debug, PartialEq, Eq)]
pub struct Table {
    pub used: u32,
    pub start: u32,
    pub end: u32,
}

/// Where the four tables of an image start and end.
#[derive(Clone, Copy, Debug, PartialEq, Eq)]
pub struct Layout {
    pub subjects: Table,
    pub grants: Table,
    pub lines: Table,
    pub items: Table,
}

/// What a call answers: 0 and its result, or the refusal and 0.
#[repr(C)]
#[derive(Clone, Copy, Debug, PartialEq, Eq)]
pub struct Answer {
    pub number: u32,
    pub result: u32,
}

impl Answer {
    pub fn refused(number: u32) -> Answer
        ensures { result ≡ answer number 0 }
    {
        Answer { number, result: 0 }
    }

    pub fn done(value: u32) -> Answer
        ensures { result ≡ answer 0 value }
    {
        Answer {
            number: 0,
            result: value,
        }
    }
}

impl From<Result<u32, Refusal>> for Answer {
    ghost from_gives = { λ r a. a ≡ answer_of r };

    fn from(asked: Result<u32, Refusal>) -> Answer {
        match asked {
            Ok(value) => Answer::done(value),
            Err(refusal) => Answer::refused(refusal.number()),
        }
    }
}

impl Rule {
    /// The number of the rule.
    pub fn number(self) -> u32
        ensures { result ≡ rule_number self }
    {
        match self {
            Rule::Custodian => 1,
            Rule::OwnerLine(_) => 2,
            Rule::OwnLine(_) => 3,
            Rule::GroupLine(_) => 4,
            Rule::NothingFound => 5,
        }
    }

    /// The subject whose group line it was. It is 0 for every other rule.
    pub fn group(self) -> u32
        ensures { result ≡ rule_group self }
    {
        match self {
            Rule::Custodian => 0,
            Rule::OwnerLine(_) => 0,
            Rule::OwnLine(_) => 0,
            Rule::GroupLine(line) => line.subject.0,
            Rule::NothingFound => 0,
        }
    }

    /// The privileges that the rule gives, where the custodian gets `all`.
    pub fn set(self, all: Privileges) -> Privileges
        ensures { result ≡ rule_set all self }
    {
        match self {
            Rule::Custodian => all,
            Rule::OwnerLine(line) => line.privileges,
            Rule::OwnLine(line) => line.privileges,
            Rule::GroupLine(line) => line.privileges,
            Rule::NothingFound => 0,
        }
    }
}

/// The number that is answered for a subject that is outside a tree.
pub const OUTSIDE: u32 = 4294967295;

/// The number that is answered for the steps up to the root of a tree.
pub fn steps_number(steps: Option<u32>) -> u32
    ensures { result ≡ steps_number steps }
{
    steps.unwrap_or(OUTSIDE)
}

/// Why an item's own set is what it is: 0, the rule that decided, the subject whose group line that was, the sets that are put
/// together, the steps from the item's owner up to the grant's domain, and the folder that applies, or 0. Or the refusal, and 0 in
/// every other field.
#[repr(C)]
#[derive(Clone, Copy, Debug, PartialEq, Eq)]
pub struct Explanation {
    pub number: u32,
    pub rule: u32,
    pub group: u32,
    pub rule_set: Privileges,
    pub everyone_set: Privileges,
    pub role_set: Privileges,
    pub operations: Privileges,
    pub steps: u32,
    pub folder: u32,
}

impl Explanation {
    pub fn refused(number: u32) -> Explanation
        ensures { result ≡ refused_explanation number }
    {
        Explanation {
            number,
            rule: 0,
            group: 0,
            rule_set: 0,
            everyone_set: 0,
            role_set: 0,
            operations: 0,
            steps: 0,
            folder: 0,
        }
    }
}

impl From<Result<Explanation, Refusal>> for Explanation {
    ghost from_gives = { λ r e. e ≡ explanation_of r };

    fn from(asked: Result<Explanation, Refusal>) -> Explanation {
        match asked {
            Ok(explanation) => explanation,
            Err(refusal) => Explanation::refused(refusal.number()),
        }
    }
}

impl Layout {
    /// How many bytes the header has.
    pub const HEADER: usize = 36;
    /// The offsets at which the header counts the rows in use of each table.
    pub const SUBJECTS_USED: usize = 0;

    pub const GRANTS_USED: usize = 8;

    pub const LINES_USED: usize = 16;

    pub const ITEMS_USED: usize = 24;
    /// How many bytes the shortest image has.
    pub const SHORTEST: usize = 36;

    /// How many bytes the longest image has.
    pub const LONGEST: usize = 65536;
}

impl SubjectRow {
    pub const SIZE: usize = 12;

    pub fn new(parent: Subject, privileges: Privileges, creator: Subject) -> SubjectRow
        ensures { result ≡ subject_row parent.0 privileges creator.0 }
    {
        SubjectRow {
            parent,
            privileges,
            creator,
        }
    }
}

impl GrantRow {
    pub const SIZE: usize = 20;

    pub fn new(
        receiver: Subject,
        role: Role,
        grantor: Subject,
        domain: Subject,
        privileges: Privileges,
    ) -> GrantRow
        ensures { result ≡ grant_row receiver.0 role.0 grantor.0 domain.0 privileges }
    {
        GrantRow {
            receiver,
            role,
            grantor,
            domain,
            privileges,
        }
    }
}

impl LineRow {
    pub const SIZE: usize = 16;

    pub fn new(list: Item, kind: u32, subject: Subject, privileges: Privileges) -> LineRow
        ensures { result ≡ line_row list.0 kind subject.0 privileges }
    {
        LineRow {
            list,
            kind,
            subject,
            privileges,
        }
    }
}

/// Whom a line is for. A row holds the number of its kind, as any bytes can be read.
#[derive(Clone, Copy, Debug, PartialEq, Eq)]
pub enum Kind {
    Itself,
    Group,
    Owner,
    Everyone,
}

/// No kind has this number.
#[derive(Clone, Copy, Debug, PartialEq, Eq)]
pub struct UnknownKind(pub u32);

impl Kind {
    /// How many kinds there are: no kind has this number.
    pub const COUNT: u32 = 4;

    pub fn number(self) -> u32
        ensures { result ≡ kind_number self }
    {
        match self {
            Kind::Itself => 0,
            Kind::Group => 1,
            Kind::Owner => 2,
            Kind::Everyone => 3,
        }
    }
}

impl TryFrom<u32> for Kind {
    type Error = UnknownKind;

    ghost try_from_gives = { KindRead };

    fn try_from(number: u32) -> Result<Kind, UnknownKind> {
        match number {
            0 => Ok(Kind::Itself),
            1 => Ok(Kind::Group),
            2 => Ok(Kind::Owner),
            3 => Ok(Kind::Everyone),
            _ => Err(UnknownKind(number)),
        }
    }
}

impl ItemRow {
    pub const SIZE: usize = 16;
    /// The flag bits of an item. Flags are a set of bits, as C hands them over and as any bytes are read, so they are a number.
    pub const IS_LIST: u32 = 1;

    pub const LOCKED: u32 = 2;

    pub const FOLDER_APPLIES: u32 = 4;
    /// Flags are below this number: from it on, they have a bit without a meaning.
    pub const FLAGS: u32 = 8;

    pub fn new(owner: Subject, list: Item, flags: u32, folder: Item) -> ItemRow
        ensures { result ≡ item_row owner.0 list.0 flags folder.0 }
    {
        ItemRow {
            owner,
            list,
            flags,
            folder,
        }
    }

    /// The item's row with another list.
    pub fn with_list(self, list: Item) -> ItemRow
        ensures { result ≡ with_list self list.0 }
    {
        ItemRow::new(self.owner, list, self.flags, self.folder)
    }

    /// The item's row with another owner.
    pub fn with_owner(self, owner: Subject) -> ItemRow
        ensures { result ≡ with_owner self owner.0 }
    {
        ItemRow::new(owner, self.list, self.flags, self.folder)
    }

    pub fn is_list(self) -> bool
        ensures { result ≡ has list_flag self.flags }
    {
        self.flags & ItemRow::IS_LIST != 0
    }

    pub fn is_locked(self) -> bool
        ensures { result ≡ has locked_flag self.flags }
    {
        self.flags & ItemRow::LOCKED != 0
    }

    /// The folder that applies to the item, or 0.
    pub fn applied_folder(self) -> Item
        ensures { result.0 ≡ folder_on self }
    {
        if folder_applies(self.flags) {
            return self.folder;
        }
        Item(0)
    }

    /// Whether an item with this folder may have these flags. Without a folder none applies; that flag is the highest.
    pub fn flags_fit(flags: u32, folder: Item) -> bool
        ensures { result ≡ flags_fit flags folder.0 }
    {
        if folder.0 == 0 {
            return flags < ItemRow::FOLDER_APPLIES;
        }
        flags < ItemRow::FLAGS
    }
}

fn folder_applies(flags: u32) -> bool
    ensures { result ≡ has folder_flag flags }
{
    flags & ItemRow::FOLDER_APPLIES != 0
}

// For each position, the set with that position alone.
const MASKS: [Privileges; 32] = [
    1, 2, 4, 8, 16, 32, 64, 128, 256, 512, 1024, 2048, 4096, 8192, 16384, 32768, 65536, 131072,
    262144, 524288, 1048576, 2097152, 4194304, 8388608, 16777216, 33554432, 67108864, 134217728,
    268435456, 536870912, 1073741824, 2147483648,
];

// The position that each of the calls below needs, in their order.
const NEEDED: [u32; 4] = [5, 4, 6, 6];

/// The calls that need a position by question 15. They are numbers, as `needed_position` answers every number.
pub const DEFINE_SUBJECT: u32 = 0;

pub const CREATE_ITEM: u32 = 1;

pub const SET_LINE: u32 = 2;

pub const REMOVE_LINE: u32 = 3;

/// The set with one position alone; past the last position, the empty set.
pub fn mask(position: u32) -> Privileges
    ensures { result ≡ mask_of position }
{
    if 32 <= position {
        return 0;
    }
    let at = position as usize;
    MASKS[at]
}

/// The position that a call needs. If the number is not one of these calls, it is 64, a position that no set has.
pub fn needed_position(call: u32) -> u32
    ensures { result ≡ needed_position call }
{
    if 4 <= call {
        return 64;
    }
    let at = call as usize;
    NEEDED[at]
}

/// The privileges in either set.
pub fn union(a: Privileges, b: Privileges) -> Privileges
    ensures { result ≡ a ∪ b }
{
    a | b
}

/// The privileges in both sets.
pub fn intersection(a: Privileges, b: Privileges) -> Privileges
    ensures { result ≡ a ∩ b }
{
    a & b
}

/// Every privilege of a is in b.
pub fn is_within(a: Privileges, b: Privileges) -> bool
    ensures { result ≡ within a b }
{
    a & b == a
}

/// The set holds a position.
pub fn has(position: u32, set: Privileges) -> bool
    ensures { result ≡ has position set }
{
    set & mask(position) != 0
}
