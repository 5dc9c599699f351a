//! The call that counts who holds each privilege on an item.

ghost use Rattle.std.specs.Prelude.{◌≡◌};
ghost use Rattle.model.specs.Questions.{answer_of, count_holders};

use acceptance::open_tables;
use holding::counts::count_subjects;
use model::{Answer, Item, Refusal};

/// Counts the subjects, the custodian among them, whose permission set without a role has a position on the item: entry n
/// of `counts` receives the number for position n. There must be an entry for each position. The result is 0.
pub fn count_holders(image: &[u8], item: Item, counts: &mut [u32]) -> Answer
    ensures value { result ≡ (count_holders image.now item.0 counts.old).answer }
    ensures counts_after { counts.new ≡ (count_holders image.now item.0 counts.old).counts }
{
    Answer::from(asked_counts(image, item, counts))
}

fn asked_counts(image: &[u8], item: Item, counts: &mut [u32]) -> Result<u32, Refusal>
    ensures value { answer_of result ≡ (count_holders image.now item.0 counts.old).answer }
    ensures counts_after { counts.new ≡ (count_holders image.now item.0 counts.old).counts }
{
    let tables = open_tables(image)?;
    if !tables.item_used(item) {
        return Err(Refusal::UnknownItem);
    }
    if counts.len() != tables.positions() {
        return Err(Refusal::BadCountsLength);
    }
    count_subjects(&tables, item, counts);
    Ok(0)
}
