//! The rows of one list among the lines of an image.

ghost use Rattle.std.specs.Prelude.{◌≡◌};
ghost use Rattle.model.specs.Sorted.{insertion_index};
ghost use Rattle.model.specs.Image.{line_key};
ghost use Rattle.rows.specs.Found.{line_numbers};
ghost use Rattle.asking.specs.Found.{ShownBy};

use acceptance::open;
use model::{Item, Kind, Layout, LineRow, Refusal, Subject};
use rows::key::LineKey;
use tables::{RowIndex, Tables};

/// The rows start at the first index and end before the second.
#[derive(Clone, Copy, Debug, PartialEq, Eq)]
pub struct ListRows {
    pub layout: Layout,
    pub first: u32,
    pub end: u32,
}

/// Lines ascend by their list first, so the rows of one list stand together: from the insertion index of the list's lowest
/// key to that of a key that is higher than those of the list's rows, and lower than those of the next list's.
#[tactic(auto, using(crate::specs::Shown::shown_image, crate::specs::Shown::shown_no_list))]
pub fn shown_rows(image: &[u8], list: Item) -> Result<ListRows, Refusal>
    ensures { ShownBy image.now list.0 result }
{
    let layout = open(image)?;
    let tables = Tables::at(image, layout);
    if !tables.is_list(list) {
        return Err(Refusal::NotAList);
    }
    let lowest = LineKey::new(list, Kind::Itself, Subject(0));
    let first = insertion_index(&tables, lowest);
    let beyond = LineKey {
        list,
        kind: Kind::COUNT,
        subject: Subject(0),
    };
    let end = insertion_index(&tables, beyond);
    Ok(ListRows { layout, first, end })
}

#[tactic(auto, using(tables::specs::AnswerLaws::index_of_found))]
fn insertion_index(tables: &Tables<'_>, key: LineKey) -> u32
    ensures { result ≡ insertion_index line_key (line_numbers key) tables.now.lines }
{
    let found = tables.rows::<LineRow>().search(key);
    RowIndex::from(found).index()
}
