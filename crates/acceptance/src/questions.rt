//! The questions of an image, by the layout that its header gives.

ghost use Rattle.std.specs.Prelude.{◌≡◌};
ghost use Rattle.model.specs.Questions.{first_no, questions_by, refused_by};

use crate::layout_rules::{has_subject, header_holds, length_fits, tables_laid_out};
use crate::row_rules::{grants_hold, items_hold, lines_hold, subjects_hold};
use crate::unused_rows::unused_is_zero;
use model::{Layout, Refusal};

// Question 2 is asked as three tests, a form that was measured (docs/DECISIONS.md, D9).
/// Question 2 bounds the work of the questions after it by the image's length, whatever the header claims.
#[tactic(auto, using(crate::specs::Seven::by_tests, laws::specs::Answers::asked_yes, laws::specs::Answers::asked_no, laws::specs::Answers::asked_all))]
pub fn first_no(image: &[u8], layout: Layout) -> Result<(), Refusal>
    ensures { refused_by result ≡ first_no (questions_by layout image.now) }
{
    if !length_fits(image) {
        return Err(Refusal::BadLength);
    }
    if !header_holds(image, layout) {
        return Err(Refusal::BadLayout);
    }
    if !tables_laid_out(layout) {
        return Err(Refusal::BadLayout);
    }
    if !has_subject(layout) {
        return Err(Refusal::BadLayout);
    }
    if !subjects_hold(image, layout) {
        return Err(Refusal::BadSubjectRow);
    }
    if !items_hold(image, layout) {
        return Err(Refusal::BadItemRow);
    }
    if !lines_hold(image, layout) {
        return Err(Refusal::BadLineRow);
    }
    if !grants_hold(image, layout) {
        return Err(Refusal::BadGrantRow);
    }
    if !unused_is_zero(image, layout) {
        return Err(Refusal::UnusedRowNotZero);
    }
    Ok(())
}
