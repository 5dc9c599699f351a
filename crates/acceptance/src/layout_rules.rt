//! Questions 1 and 2: the length of the image, and how its tables are laid out.

ghost use Rattle.std.specs.Prelude.{◌&&◌, ◌≡◌, leb, length, take};
ghost use Rattle.model.specs.Lists.{all_of};
ghost use Rattle.model.specs.Image.{shortest_image, longest_image, header_rules, table_rules, laid_out_by, size};

use model::{GrantRow, ItemRow, Layout, LineRow, SubjectRow};
use rows::table::Row;

pub fn length_fits(image: &[u8]) -> bool
    ensures { result ≡ (leb shortest_image (length image.now) && leb (length image.now) longest_image) }
{
    Layout::SHORTEST <= image.len() && image.len() <= Layout::LONGEST
}

/// The recorded total is the length, and the first table begins behind the header.
#[tactic(auto, unfolding(model::specs::Image::header_rules))]
pub fn header_holds(image: &[u8], layout: Layout) -> bool
    ensures { result ≡ all_of (header_rules layout image.now) }
{
    layout.items.end as usize == image.len() && layout.subjects.start as usize == Layout::HEADER
}

/// These are the rules of the tables but for the last one, which is `has_subject`.
#[tactic(auto, unfolding(model::specs::Image::table_rules))]
pub fn tables_laid_out(layout: Layout) -> bool
    ensures { result ≡ all_of (take 4 (table_rules layout)) }
{
    laid_out::<SubjectRow>(layout)
        && laid_out::<GrantRow>(layout)
        && laid_out::<LineRow>(layout)
        && laid_out::<ItemRow>(layout)
}

/// The last rule of the tables: a subject is in use.
pub fn has_subject(layout: Layout) -> bool
    ensures { result ≡ leb 1 layout.subjects.used }
{
    1 <= layout.subjects.used
}

// A table does not end before it starts, consists of whole rows, and its rows in use are within its capacity. They are
// compared with the capacity, because their number comes from the header: multiplied by the size of a row, it could be
// too large.
fn laid_out<R: Row>(layout: Layout) -> bool
    ensures { result ≡ laid_out_by (size R.format) (R.table layout) }
{
    let table = R::table(layout);
    if table.end < table.start {
        return false;
    }
    let extent = (table.end - table.start) as usize;
    extent % R::SIZE == 0 && table.used as usize <= extent / R::SIZE
}
