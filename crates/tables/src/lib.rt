//! The tables of a lent image: subjects and items by number, lines and grants by key, and whether a table has a free row.
//! Everything answers from the tables that a layout cuts out of the bytes, and is total for any bytes and any layout: what is
//! not in use reads as 0.
#![tactic(auto, unfolding(model::specs::Image::tables_by), using(laws::specs::Rows::rows_count))]

ghost use Rattle.std.specs.Prelude.{◌≡◌, ◌<◌, ◌||◌, List, ℕ, refl, length, get_or, ltb};
ghost use Rattle.model.specs.declared.Layout.{Layout};
ghost use Rattle.model.specs.WhoAndWhat.{everything, positions_of};
ghost use Rattle.model.specs.Image.{Capacities, Tables, tables_by, capacities_by, capacity_by, rows_in, size, width_in};
ghost use Rattle.rows.specs.Reading.{zero_row};
ghost use Rattle.tables.specs.Listing.{subjects_listed, grants_listed, lines_listed, items_listed};
ghost use Rattle.tables.specs.RowIndices.{is_existing, index_in};

pub mod items;
pub mod lines;
pub mod subjects;

use model::{GrantRow, ItemRow, Layout, LineRow, Privileges, SubjectRow, Table};
use rows::privileges;
use rows::table::{Row, Rows, row_at};
use std::marker::Model;

/// Which of the tables has such rows.
pub trait Listed: Row {
    ghost rows: { Tables → List Self };

    ghost capacity: { Capacities → ℕ };

    ghost listed: { (lay : Layout) (img : List ℕ) → rows (tables_by lay img) ≡ rows_in Self.format (Self.table lay) img };

    ghost counted: { (lay : Layout) → capacity (capacities_by lay) ≡ capacity_by (size Self.format) (Self.table lay) };
}

impl Listed for SubjectRow {
    ghost rows = { λ t. t.subjects };

    ghost capacity = { λ c. c.subjects };

    ghost listed = { subjects_listed };

    ghost counted = { λ lay. refl };
}

impl Listed for GrantRow {
    ghost rows = { λ t. t.grants };

    ghost capacity = { λ c. c.grants };

    ghost listed = { grants_listed };

    ghost counted = { λ lay. refl };
}

impl Listed for LineRow {
    ghost rows = { λ t. t.lines };

    ghost capacity = { λ c. c.lines };

    ghost listed = { lines_listed };

    ghost counted = { λ lay. refl };
}

impl Listed for ItemRow {
    ghost rows = { λ t. t.items };

    ghost capacity = { λ c. c.items };

    ghost listed = { items_listed };

    ghost counted = { λ lay. refl };
}

/// The tables that a layout cuts out of the bytes of an image.
#[derive(Drop)]
pub struct Tables<'a> {
    bytes: &'a [u8],
    layout: Layout,
}

impl<'a> Model for Tables<'a> {
    ghost use Rattle.model.specs.Image.{Tables, tables_by};

    ghost Value = { Tables };

    ghost view = { λ t. tables_by t.layout t.bytes.now };
}

impl<'a> Tables<'a> {
    /// Any bytes and any layout have tables.
    pub fn at(bytes: &'a [u8], layout: Layout) -> Tables<'a>
        ensures { result ≡ tables_by layout bytes.now }
    {
        Tables { bytes, layout }
    }

    /// The rows in use of one table.
    pub fn rows<R: Listed>(&self) -> Rows<'a, R>
        ensures { result ≡ R.rows self.now }
    {
        Rows::cut(self.bytes, self.layout)
    }

    /// How many they are.
    pub fn count<R: Listed>(&self) -> u32
        ensures { result ≡ length (R.rows self.now) }
    {
        R::table(self.layout).used
    }

    /// The row with an index, for whoever needs one row alone; where there is none, the row of zeros.
    pub fn row_at<R: Listed>(&self, n: u32) -> R
        ensures { result ≡ get_or (R.rows self.now) n (zero_row R.format) }
    {
        row_at(self.bytes, self.layout, n)
    }

    /// Whether the table has a free row.
    pub fn has_free<R: Listed>(&self) -> bool
        ensures { result ≡ ltb (length (R.rows self.now)) (R.capacity self.now.capacities) }
    {
        has_free(R::table(self.layout), R::SIZE)
    }

    /// Whether a row may go to a row index: only a new one needs a free row, an existing one is overwritten.
    pub fn has_room<R: Listed>(&self, index: RowIndex) -> bool
        ensures { result ≡ (is_existing index || ltb (length (R.rows self.now)) (R.capacity self.now.capacities)) }
    {
        index.is_existing() || self.has_free::<R>()
    }

    /// All privileges that a field of these tables can hold, and how many positions it has.
    pub fn all_privileges(&self) -> Privileges
        ensures { result ≡ everything (width_in self.now) }
    {
        privileges::all_privileges(self.layout)
    }

    pub fn positions(&self) -> usize
        ensures { result ≡ positions_of (width_in self.now) }
    {
        privileges::positions(self.layout)
    }
}

// A table that ends before it starts has no free row.
fn has_free(table: Table, size: usize) -> bool
    requires { 0 < size }
    ensures { result ≡ ltb table.used (capacity_by size table) }
{
    if table.end < table.start {
        return false;
    }
    let extent = (table.end - table.start) as usize;
    (table.used as usize) < extent / size
}

/// Where a row goes: over the existing one at an index, or to an insertion index as a new one. Neither is a failure, so it
/// is no `Result`.
#[derive(Clone, Copy, Debug, PartialEq, Eq)]
pub enum RowIndex {
    Existing(u32),
    New(u32),
}

impl RowIndex {
    pub fn is_existing(self) -> bool
        ensures { result ≡ is_existing self }
    {
        matches!(self, RowIndex::Existing(_))
    }

    pub fn index(self) -> u32
        ensures { result ≡ index_in self }
    {
        match self {
            RowIndex::Existing(n) => n,
            RowIndex::New(n) => n,
        }
    }
}

impl<R: Row> From<Result<(u32, R), u32>> for RowIndex {
    ghost use Rattle.std.specs.Prelude.{◌≡◌};
    ghost use Rattle.rows.specs.Found.{found_by};
    ghost use Rattle.tables.specs.RowIndices.{row_index_of};

    ghost from_gives = { λ found index. index ≡ row_index_of (found_by found) };

    fn from(found: Result<(u32, R), u32>) -> RowIndex {
        match found {
            Ok((n, _)) => RowIndex::Existing(n),
            Err(n) => RowIndex::New(n),
        }
    }
}
