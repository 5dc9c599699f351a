//! The layout that an image's header describes.
ghost use Rattle.std.specs.Prelude.{◌≡◌};
ghost use Rattle.model.specs.Image.{layout_of};

use fields::numbers::field;
use model::{Layout, Table};

/// Each table ends where the next one starts, the last one at the total length.
#[tactic(auto, unfolding(model::specs::Image::layout_of))]
pub fn layout_of(image: &[u8]) -> Layout
    ensures { result ≡ layout_of image.now }
{
    let subjects = field(image, 4);
    let grants = field(image, 12);
    let lines = field(image, 20);
    let items = field(image, 28);
    let total = field(image, 32);
    Layout {
        subjects: Table {
            used: field(image, Layout::SUBJECTS_USED),
            start: subjects,
            end: grants,
        },
        grants: Table {
            used: field(image, Layout::GRANTS_USED),
            start: grants,
            end: lines,
        },
        lines: Table {
            used: field(image, Layout::LINES_USED),
            start: lines,
            end: items,
        },
        items: Table {
            used: field(image, Layout::ITEMS_USED),
            start: items,
            end: total,
        },
    }
}
