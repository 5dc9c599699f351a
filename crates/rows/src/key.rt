//! Tables that are sorted by a key, and the search for a key in them. It is defined for any rows: elsewhere it answers what
//! halving comes to.

ghost use Rattle.std.specs.Prelude.{[], ◌∷◌, ◌≡◌, ℕ, List};
ghost use Rattle.model.specs.Sorted.{before, same, middle, search, find_row};
ghost use Rattle.model.specs.Image.{grant_key, line_key, kind_number};
ghost use Rattle.rows.specs.Found.{found_by, grant_numbers, line_numbers};

use crate::table::{Row, Rows};
use model::{GrantRow, Item, Kind, LineRow, Role, Subject};

/// A row of a table that is sorted by a key.
pub trait Keyed: Row {
    type Key: Copy;

    ghost key_of: { Self → List ℕ };

    ghost numbers: { Self.Key → List ℕ };

    fn key(self) -> Self::Key
        ensures { numbers result ≡ key_of self };

    /// The row's key is lower than this key. A key's parts are compared one after the other: by the derived order of the keys,
    /// which is the same, a search among 3,000 lines took 1.2 to 1.5 of the time.
    fn before(self, key: Self::Key) -> bool
        ensures { result ≡ before (key_of self) (numbers key) };

    /// The row's key is this key.
    fn is_at(self, key: Self::Key) -> bool
        ensures { result ≡ same (key_of self) (numbers key) };
}

/// The key of a grant. Its order is that of the table.
#[derive(Clone, Copy, Debug, PartialEq, Eq, PartialOrd, Ord)]
pub struct GrantKey {
    pub receiver: Subject,
    pub role: Role,
}

/// The key of a line. Its order is that of the table. The kind is a number, as it is in a row.
#[derive(Clone, Copy, Debug, PartialEq, Eq, PartialOrd, Ord)]
pub struct LineKey {
    pub list: Item,
    pub kind: u32,
    pub subject: Subject,
}

impl LineKey {
    pub fn new(list: Item, kind: Kind, subject: Subject) -> LineKey
        ensures { line_numbers result ≡ list.0 ∷ kind_number kind ∷ subject.0 ∷ [] }
    {
        LineKey {
            list,
            kind: kind.number(),
            subject,
        }
    }
}

/// Grants by receiver, then role.
impl Keyed for GrantRow {
    type Key = GrantKey;

    ghost key_of = { grant_key };

    ghost numbers = { grant_numbers };

    fn key(self) -> GrantKey {
        GrantKey {
            receiver: self.receiver,
            role: self.role,
        }
    }

    fn before(self, key: GrantKey) -> bool {
        if self.receiver.0 != key.receiver.0 {
            return self.receiver.0 < key.receiver.0;
        }
        self.role.0 < key.role.0
    }

    fn is_at(self, key: GrantKey) -> bool {
        self.key() == key
    }
}

/// Lines by list, then kind, then subject.
impl Keyed for LineRow {
    type Key = LineKey;

    ghost key_of = { line_key };

    ghost numbers = { line_numbers };

    fn key(self) -> LineKey {
        LineKey {
            list: self.list,
            kind: self.kind,
            subject: self.subject,
        }
    }

    fn before(self, key: LineKey) -> bool {
        if self.list.0 != key.list.0 {
            return self.list.0 < key.list.0;
        }
        if self.kind != key.kind {
            return self.kind < key.kind;
        }
        self.subject.0 < key.subject.0
    }

    fn is_at(self, key: LineKey) -> bool {
        self.key() == key
    }
}

/// The index half way between two. A search that goes on at one side of it has fewer rows left.
pub fn middle_index(first: u32, end: u32) -> u32
    ensures { result ≡ middle first end }
{
    if end <= first {
        return first;
    }
    first + (end - first) / 2
}

impl<'a, R: Keyed> Rows<'a, R> {
    /// The index of the row with a key, and that row; or, where no row has the key, its insertion index. The search halves
    /// the rows: the row in the middle shows on which side of it to go on. It is a loop of its own, as the library's
    /// `binary_search_by` says nothing of rows that do not ascend, and any bytes are searched.
    #[tactic(auto, using(crate::specs::Halving::halving_all, crate::specs::Halving::halving_behind, crate::specs::Halving::halving_front))]
    pub fn search(&self, key: R::Key) -> Result<(u32, R), u32>
        ensures { found_by result ≡ search R.key_of (R.numbers key) self.now }
    {
        let mut first = 0;
        let mut end = self.len();
        while first < end {
            let middle = middle_index(first, end);
            let row = self.row(middle);
            if row.before(key) {
                first = middle + 1;
            } else {
                if row.is_at(key) {
                    return Ok((middle, row));
                }
                end = middle;
            }
        }
        Err(first)
    }

    /// The row with a key, if there is one.
    pub fn find(&self, key: R::Key) -> Option<R>
        ensures { result ≡ find_row R.key_of (R.numbers key) self.now }
    {
        match self.search(key) {
            Ok((_, row)) => Some(row),
            Err(_) => None,
        }
    }
}
