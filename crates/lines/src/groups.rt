//! The group search: which group line decides for a subject, if no line of its own or for the owner does.

ghost use Rattle.std.specs.Prelude.{true, [], ◌∷◌, ◌≢◌, ◌≡◌, ◌≤◌};
ghost use Rattle.model.specs.Sorted.{before};
ghost use Rattle.model.specs.Image.{line_key, group_kind, parent_in};
ghost use Rattle.model.specs.Permission.{group_rule};
ghost use Rattle.lines.specs.Climbing.{rule_from, NearestBy, Behind, Climbed};

use model::{Item, Kind, LineRow, Rule, Subject, SubjectRow};
use rows::key::{Keyed, LineKey, middle_index};
use tables::Tables;

/// The rule by which groups decide: the lowest group line above a subject, or that nothing was found.
pub fn group_rule(tables: &Tables<'_>, subject: Subject, list: Item) -> Rule
    requires { list.0 ≢ 0 }
    ensures { let t = tables.now in
        result ≡ group_rule (parent_in t.subjects) t.lines subject.0 list.0 }
{
    let parent = tables.parent_of(subject);
    if subject.0 <= parent.0 {
        return Rule::NothingFound;
    }
    rule_from(tables, parent, list)
}

// The same from a group on: its own line, or the lowest one above it. The search goes up by recursion on the group's number,
// which falls: recursion is the form that was asked for here (docs/DECISIONS.md). It passes over the groups that are known
// to have no line, so there is at most one level more than the list has group lines.
fn rule_from(tables: &Tables<'_>, group: Subject, list: Item) -> Rule
    requires { list.0 ≢ 0 }
    ensures { let t = tables.now in
        result ≡ rule_from (parent_in t.subjects) t.lines group.0 list.0 }
{
    match nearest_group(tables, list, group) {
        Ok(line) => Rule::GroupLine(line),
        Err(0) => Rule::NothingFound,
        Err(bound) => {
            let next = climb_below(tables, bound, group);
            if bound <= next.0 {
                return Rule::NothingFound;
            }
            rule_from(tables, next, list)
        }
    }
}

// The group's line; or, where it has none, a bound: from the bound on up to this group, no group has a line. Then only a group
// below the bound may have one, and with bound 0 none has. It halves the table as `Rows::search` does, in a loop of its own:
// each row that it passes bounds where the next group line can be, and a search that is handed to a closure tells a proof
// nothing of what the closure saw.
fn nearest_group(tables: &Tables<'_>, list: Item, group: Subject) -> Result<LineRow, u32>
    ensures { NearestBy tables.now.lines list.0 group.0 result }
{
    let rows = tables.rows::<LineRow>();
    let key = LineKey::new(list, Kind::Group, group);
    let mut first = 0;
    let mut end = rows.len();
    let mut bound = 0;
    while first < end {
        let middle = middle_index(first, end);
        let row = rows.row(middle);
        if row.before(key) {
            bound = bound_behind(row, list, group, bound);
            first = middle + 1;
        } else {
            if row.is_at(key) {
                return Ok(row);
            }
            end = middle;
        }
    }
    Err(bound)
}

// The bound behind a row with a lower key than the group's: if the row is a group line of the list, the bound is above its
// subject.
fn bound_behind(row: LineRow, list: Item, group: Subject, bound: u32) -> u32
    requires comes_before { before (line_key row) (list.0 ∷ group_kind ∷ group.0 ∷ []) ≡ true }
    requires bound_le_group { bound ≤ group.0 }
    ensures { Behind row list.0 group.0 bound result }
{
    let is_groups = row.list == list && row.kind == Kind::Group.number();
    if !is_groups || row.subject.0 < bound {
        return bound;
    }
    row.subject.0 + 1
}

// The first subject below a bound on the way up, itself included. If there is none, the last one on that way. The way goes from
// parent to parent, so it is a loop: no iterator has it.
fn climb_below(tables: &Tables<'_>, bound: u32, subject: Subject) -> Subject
    ensures { Climbed (parent_in tables.now.subjects) bound subject.0 result.0 }
{
    let rows = tables.rows::<SubjectRow>();
    let mut at = subject;
    while bound <= at.0 {
        let parent = rows.row(at.0).parent;
        if at.0 <= parent.0 {
            return at;
        }
        at = parent;
    }
    at
}
