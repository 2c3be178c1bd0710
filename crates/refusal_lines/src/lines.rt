//! The line of each kind of refusal.

ghost use Rattle.std.specs.Prelude.{◌≡◌};
ghost use Rattle.refusal_lines.specs.Codes.{coded_line};
ghost use Rattle.refusal_lines.specs.Codes as codes;

use crate::line::{Line, line_of_row};
use crate::refused::Refused;
use crate::table::{link_row, object_row, path_row, row_of, text_row};
use omos_base::PathFault;
use omos_model::{BpFault, ObjectFault, Refusal};

/// The line of a path that is none: `refused P1`, or `refused P2 7` with the place.
pub fn path_line(fault: PathFault) -> Line
    ensures { result ≡ coded_line (codes.path_row fault) }
{
    line_of_row(&path_row(fault))
}

/// The line of an object file with a fault: `refused O1`, `refused O5 3` with the section,
/// `refused O9 main` with the name, or `refused O11 2 0` with the section and the entry.
pub fn object_line(fault: &ObjectFault) -> Line
    ensures { result ≡ coded_line (codes.object_row fault.now) }
{
    line_of_row(&object_row(fault))
}

/// The line of a text that is none: `refused B1`, or `refused B3 9` with the place.
pub fn text_line(fault: BpFault) -> Line
    ensures { result ≡ coded_line (codes.text_row fault) }
{
    line_of_row(&text_row(fault))
}

/// The line of a link that has no image: `refused L5 /all 0 malloc` with the site and the name,
/// `refused L10 _start`, or `refused L11 0 2 puts` with the leaf, the fixup and the name.
pub fn link_line(refusal: &Refusal) -> Line
    ensures { result ≡ coded_line (codes.link_row refusal.now) }
{
    line_of_row(&link_row(refusal))
}

/// The line of what is refused, of any kind.
pub fn line_of(refused: &Refused) -> Line
    ensures { result ≡ coded_line (codes.row_of refused.now) }
{
    line_of_row(&row_of(refused))
}
