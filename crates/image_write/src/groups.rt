//! Where the groups of a module stand, and that all it places lies in the file.

ghost use Rattle.image_write.specs.inside.Sound.{IsSound};
ghost use Rattle.image_write.specs.Written.{IsLayoutOf};
ghost use Rattle.link_model.specs.Layout.{program_pieces};

use link_layout::are_lawful;
use link_model::laws::modules_are_bounded;
use link_model::{Evaluated, Groups, Layout};

/// Where the groups of a laid out module stand, and that all it places lies in the file. It reads
/// what the layout keeps; the rest is what types keep.
pub fn groups_in<'a>(evaluated: &Evaluated, layout: &'a Layout) -> &'a Groups
    requires laid { IsLayoutOf evaluated.now layout.now }
    ensures sound { IsSound result.now evaluated.now layout.now }
{
    modules_are_bounded();
    are_lawful(evaluated.leaves());
    layout.groups()
}
