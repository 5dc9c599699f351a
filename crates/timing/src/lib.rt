//! What the benchmark times beside the calls: the search for a line by itself, and a pass over all lines. They are exported from
//! a static library of their own, which only the benchmark links. Neither checks the image.
#![tactic(auto)]

ghost use Rattle.std.specs.Prelude.{[], ◌∷◌, ◌≡◌};
ghost use Rattle.model.specs.Sorted.{count_lower, insertion_index};
ghost use Rattle.model.specs.Image.{tables, line_key};
ghost use Rattle.rows.specs.Found.{line_numbers};

use model::{Item, LineRow, Subject};
use rows::header::layout_of;
use rows::key::{Keyed, LineKey};
use rows::table::Rows;
use tables::{RowIndex, Tables};

/// The insertion index of a key, as the search answers it.
#[unsafe(no_mangle)]
pub extern "C" fn dacm_timed_search(image: &[u8], list: Item, kind: u32, subject: Subject) -> u32
    ensures { result ≡ insertion_index line_key (list.0 ∷ kind ∷ subject.0 ∷ []) (tables image.now).lines }
{
    let lines = Tables::at(image, layout_of(image)).rows::<LineRow>();
    RowIndex::from(lines.search(LineKey {
        list,
        kind,
        subject,
    }))
    .index()
}

/// How many lines have a lower key, counted by a pass over all of them. In an accepted image that is the same number.
#[unsafe(no_mangle)]
pub extern "C" fn dacm_timed_pass(image: &[u8], list: Item, kind: u32, subject: Subject) -> u32
    ensures { result ≡ count_lower line_key (list.0 ∷ kind ∷ subject.0 ∷ []) (tables image.now).lines }
{
    let lines = Tables::at(image, layout_of(image)).rows::<LineRow>();
    lower_lines(
        &lines,
        LineKey {
            list,
            kind,
            subject,
        },
    )
}

fn lower_lines(lines: &Rows<'_, LineRow>, key: LineKey) -> u32
    ensures { result ≡ count_lower line_key (line_numbers key) lines.now }
{
    let mut lower = 0;
    for n in 0..lines.len() {
        if lines.row(n).before(key) {
            lower += 1;
        }
    }
    lower
}
