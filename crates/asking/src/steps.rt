//! The call that says how far a subject is below another.

ghost use Rattle.std.specs.Prelude.{◌≡◌};
ghost use Rattle.model.specs.Calls.Ask.{steps_up_of};
ghost use Rattle.model.specs.Questions.{answer_of, ask};

use acceptance::open_tables;
use model::{Answer, Refusal, Subject, steps_number};

/// Counts the steps from a subject up to the root of a tree, from each subject to its parent. The result is 0 for the root
/// itself, and 4294967295 for a subject that is outside the tree. The call has no caller.
pub fn steps_up(image: &[u8], subject: Subject, root: Subject) -> Answer
    ensures { result ≡ ask image.now (steps_up_of subject.0 root.0) }
{
    Answer::from(asked_steps(image, subject, root))
}

#[tactic(auto, using(laws::specs::Asks::ask_image))]
fn asked_steps(image: &[u8], subject: Subject, root: Subject) -> Result<u32, Refusal>
    ensures { answer_of result ≡ ask image.now (steps_up_of subject.0 root.0) }
{
    let tables = open_tables(image)?;
    if !tables.subject_used(subject) {
        return Err(Refusal::UnknownSubject);
    }
    if !tables.subject_used(root) {
        return Err(Refusal::UnknownSubject);
    }
    let steps = tables.steps_up(subject, root);
    Ok(steps_number(steps))
}
