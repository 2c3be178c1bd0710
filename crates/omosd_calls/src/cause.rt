//! Why an object has no image, and the line that says so.

ghost use Rattle.std.specs.Prelude.{◌≡◌};
ghost use Rattle.omosd_calls.specs.Lone.{cause_line};

use omos_model::{ObjectFault, Refusal};
use refusal_lines::{Line, link_line, object_line};

/// Why an object has no image.
#[derive(Debug, Drop)]
pub(crate) enum Cause {
    /// The file has this fault first.
    Object(ObjectFault),
    /// The link is refused for this reason first.
    Link(Refusal),
}

/// The line that says why, as `refused O4` or `refused L10 _start`.
pub(crate) fn line_of(cause: &Cause) -> Line
    ensures { result ≡ cause_line cause.now }
{
    match cause {
        Cause::Object(fault) => object_line(fault),
        Cause::Link(refusal) => link_line(refusal),
    }
}
