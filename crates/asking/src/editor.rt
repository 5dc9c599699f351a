//! The call that finds the lowest subject that may edit a list.

ghost use Rattle.std.specs.Prelude.{◌≡◌};
ghost use Rattle.model.specs.Calls.Ask.{find_editor};
ghost use Rattle.model.specs.Questions.{answer_of, ask};

use acceptance::open_tables;
use holding::editors::lowest_editor;
use model::{Answer, Item, Refusal};

/// Finds the lowest subject, other than the custodian, that may edit the list without claiming a role. Its number is the
/// result. Where there is none, the call is refused with 20.
pub fn find_editor(image: &[u8], list: Item) -> Answer
    ensures { result ≡ ask image.now (find_editor list.0) }
{
    Answer::from(asked_editor(image, list))
}

#[tactic(auto, using(laws::specs::Asks::ask_image))]
fn asked_editor(image: &[u8], list: Item) -> Result<u32, Refusal>
    ensures { answer_of result ≡ ask image.now (find_editor list.0) }
{
    let tables = open_tables(image)?;
    if !tables.is_list(list) {
        return Err(Refusal::NotAList);
    }
    match lowest_editor(&tables, list) {
        Some(editor) => Ok(editor.0),
        None => Err(Refusal::NoEditor),
    }
}
