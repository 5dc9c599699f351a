//! What the width of a privilege field decides.
ghost use Rattle.std.specs.Prelude.{◌≡◌};
ghost use Rattle.model.specs.Image.{width_of};
ghost use Rattle.model.specs.WhoAndWhat.{everything, positions_of};

use model::{Layout, Privileges};

pub fn all_privileges(layout: Layout) -> Privileges
    ensures { result ≡ everything (width_of layout) }
{
    4294967295
}

/// How many positions a privilege set has.
pub fn positions(layout: Layout) -> usize
    ensures { result ≡ positions_of (width_of layout) }
{
    32
}
