//! The lines that apply to a subject, the rule by which they decide, and what they give; answered by the tables of any image.
#![tactic(auto)]

ghost use Rattle.std.specs.Prelude.{◌≢◌, ◌≡◌};
ghost use Rattle.model.specs.Image.{everyone_kind, kind_number, parent_in};
ghost use Rattle.model.specs.Permission.{line_in, line_set, own_rule, rule_on, everyone_on, part_on};

use crate::groups::group_rule;
use model::{CUSTODIAN, Item, ItemRow, Kind, LineRow, Privileges, Rule, Subject, union};
use rows::key::LineKey;
use tables::Tables;

mod groups;

/// The rule that decides for a subject on an item, with its line, and what the line for everyone adds.
#[derive(Clone, Copy, Debug, PartialEq, Eq)]
pub struct AppliedLines {
    pub rule: Rule,
    pub everyone: Privileges,
}

/// The custodian needs no line, and no list means no lines.
#[tactic(auto, using(crate::specs::Searches::rule_custodian, crate::specs::Searches::rule_unlisted), unfolding(model::specs::Permission::everyone_set))]
pub fn applied_lines(tables: &Tables<'_>, subject: Subject, item: ItemRow) -> AppliedLines
    ensures rule { result.rule ≡ rule_on tables.now subject.0 item }
    ensures everyone { result.everyone ≡ everyone_on tables.now subject.0 item }
{
    if subject == Subject(CUSTODIAN) {
        return AppliedLines {
            rule: Rule::Custodian,
            everyone: 0,
        };
    }
    if item.list == Item(0) {
        return AppliedLines {
            rule: Rule::NothingFound,
            everyone: 0,
        };
    }
    listed_lines(tables, subject, item)
}

/// What the rule gives, and what the line for everyone adds. Where there is no line to look for, it is answered at once, since a
/// report asks that very often.
#[tactic(auto, using(crate::specs::Parts::part_custodian, crate::specs::Parts::part_unlisted), unfolding(model::specs::Permission::part_on))]
pub fn lines_part(tables: &Tables<'_>, subject: Subject, item: ItemRow) -> Privileges
    ensures { result ≡ part_on tables.now subject.0 item }
{
    if subject == Subject(CUSTODIAN) {
        return tables.all_privileges();
    }
    if item.list == Item(0) {
        return 0;
    }
    let applied = listed_lines(tables, subject, item);
    union(applied.rule.set(tables.all_privileges()), applied.everyone)
}

// The lines that apply to a subject other than the custodian, on an item that has a list. The line for everyone is looked up
// first. What it adds is joined with what the rule gives, so the order decides nothing but speed, and this one was measured to be
// faster (docs/DECISIONS.md, D9).
#[tactic(auto, unfolding(model::specs::Permission::everyone_set))]
fn listed_lines(tables: &Tables<'_>, subject: Subject, item: ItemRow) -> AppliedLines
    requires subject_nonzero { subject.0 ≢ 0 }
    requires list_nonzero { item.list.0 ≢ 0 }
    ensures rule { result.rule ≡ rule_on tables.now subject.0 item }
    ensures everyone { result.everyone ≡ everyone_on tables.now subject.0 item }
{
    let everyone = everyone_set(tables, item.list);
    let rule = line_rule(tables, subject, item);
    AppliedLines { rule, everyone }
}

// The privileges of a list's line for everyone; without one, none.
fn everyone_set(tables: &Tables<'_>, list: Item) -> Privileges
    requires { list.0 ≢ 0 }
    ensures { result ≡ line_set (line_in tables.now.lines list.0 everyone_kind 0) }
{
    find_line(tables, list, Kind::Everyone, Subject(0)).map_or(0, |line| line.privileges)
}

// The rule by which the lines of an item's list decide for a subject. For the item's owner it is the owner line, even if that
// holds 0. Without one, an owner is like anybody else.
#[tactic(auto, unfolding(model::specs::Permission::deciding_rule, model::specs::Permission::owner_rule))]
fn line_rule(tables: &Tables<'_>, subject: Subject, item: ItemRow) -> Rule
    requires subject_nonzero { subject.0 ≢ 0 }
    requires list_nonzero { item.list.0 ≢ 0 }
    ensures { result ≡ rule_on tables.now subject.0 item }
{
    if subject == item.owner {
        if let Some(line) = find_line(tables, item.list, Kind::Owner, Subject(0)) {
            return Rule::OwnerLine(line);
        }
    }
    own_rule(tables, subject, item.list)
}

// The rule where no owner line decides: the subject's own line, even if that holds 0, or else the group's line.
#[tactic(auto, unfolding(model::specs::Permission::own_rule))]
fn own_rule(tables: &Tables<'_>, subject: Subject, list: Item) -> Rule
    requires { list.0 ≢ 0 }
    ensures { let t = tables.now in
        result ≡ own_rule (parent_in t.subjects) t.lines subject.0 list.0 }
{
    match find_line(tables, list, Kind::Itself, subject) {
        Some(line) => Rule::OwnLine(line),
        None => group_rule(tables, subject, list),
    }
}

// The line of a list for a subject.
fn find_line(tables: &Tables<'_>, list: Item, kind: Kind, subject: Subject) -> Option<LineRow>
    requires { list.0 ≢ 0 }
    ensures { result ≡ line_in tables.now.lines list.0 (kind_number kind) subject.0 }
{
    tables
        .rows::<LineRow>()
        .find(LineKey::new(list, kind, subject))
}
