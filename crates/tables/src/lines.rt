//! Lines: whether a kind and a subject fit together.

ghost use Rattle.std.specs.Prelude.{◌≡◌};
ghost use Rattle.model.specs.Image.{kind_fits};

use model::{Kind, Subject};

/// There are four kinds, and the owner's and everyone's have subject 0.
pub fn kind_fits(kind: u32, subject: Subject) -> bool
    ensures { result ≡ kind_fits kind subject.0 }
{
    match Kind::try_from(kind) {
        Ok(Kind::Itself | Kind::Group) => true,
        Ok(Kind::Owner | Kind::Everyone) => subject == Subject(0),
        Err(_) => false,
    }
}
