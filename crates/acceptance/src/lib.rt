//! Questions 1 to 7: whether bytes are an image that the other calls may work on.
#![tactic(auto)]

ghost use Rattle.std.specs.Prelude.{◌≡◌};
ghost use Rattle.model.specs.Questions.{check, opened, opened_tables, by_number, refused_by};

use crate::questions::first_no;
use model::{Layout, Refusal};
use rows::header::layout_of;
use tables::Tables;

mod layout_rules;
mod questions;
mod row_rules;
mod unused_rows;

/// The layout of an accepted image. Every call begins here.
#[tactic(auto, using(crate::specs::Seven::open_yes, crate::specs::Seven::check_yes))]
pub fn open(image: &[u8]) -> Result<Layout, Refusal>
    ensures value { by_number result ≡ opened image.now }
    ensures refusal { refused_by result ≡ check image.now }
{
    let layout = layout_of(image);
    first_no(image, layout)?;
    Ok(layout)
}

/// The tables of an accepted image, for a call that only reads it.
#[tactic(auto, using(laws::specs::Opens::tables_err, laws::specs::Opens::tables_ok))]
pub fn open_tables(image: &[u8]) -> Result<Tables<'_>, Refusal>
    ensures { by_number result ≡ opened_tables image.now }
{
    let layout = open(image)?;
    Ok(Tables::at(image, layout))
}
