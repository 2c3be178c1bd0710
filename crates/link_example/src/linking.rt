//! The image that a blueprint makes of two objects.

ghost use Rattle.std.specs.Prelude.{◌≡◌, IfOk};
ghost use Rattle.omos_base.specs.Fault.{MatchFault};
ghost use Rattle.link_example.specs.Entries.{namespace_of};
ghost use Rattle.link_example.specs.Links.{HasFailure};
ghost use Rattle.link_example.specs.Links.{IsAnswerImage};

use crate::entries::{blueprint, object};
use crate::failure::Failure;
use crate::published::Published;
use link_model::Linked;
use link_plan::link_path;
use name_tree::Snap;
use omos_base::{Fault, NoMemory, PathName, Shared};
use omos_model::Entry;
use seeded_hash::Seed;
use std::alloc::Global;

/// The address at which static executables usually begin.
const BASE: u64 = 0x40_0000;

/// The version of a namespace that three publishes make.
fn version_of(
    alloc: Global,
    first: (PathName, Shared<Entry>),
    second: (PathName, Shared<Entry>),
    third: (PathName, Shared<Entry>),
) -> Result<Snap, NoMemory>
    ensures { IfOk result (λ snap. snap.entries ≡ namespace_of first second third) }
{
    let none = Snap::empty(alloc, Seed::known(0))?;
    let one = none.with(first.0, 1, first.1)?;
    let two = one.with(second.0, 2, second.1)?;
    two.with(third.0, 3, third.1)
}

/// The image at 0x400000 of a blueprint that may name two objects.
///
/// Where a path is given twice, what comes later stands under it. The refusal is of the first
/// object, or else of the second, of the text, or of the link.
pub fn link_two(
    alloc: Global,
    first: Published,
    second: Published,
    third: Published,
) -> Result<Linked, Fault<Failure>>
    ensures { MatchFault result (IsAnswerImage first.entry second.entry third.entry)
        (HasFailure first.entry second.entry third.entry) }
{
    let one = match object(alloc, first.content) {
        Ok(entry) => (first.path.copy(), entry),
        Err(Fault::Refused(fault)) => return Err(Fault::Refused(Failure::First(fault))),
        Err(Fault::NoMemory) => return Err(Fault::NoMemory),
    };
    let two = match object(alloc, second.content) {
        Ok(entry) => (second.path.copy(), entry),
        Err(Fault::Refused(fault)) => return Err(Fault::Refused(Failure::Second(fault))),
        Err(Fault::NoMemory) => return Err(Fault::NoMemory),
    };
    let three = match blueprint(alloc, third.content) {
        Ok(entry) => (third.path.copy(), entry),
        Err(Fault::Refused(fault)) => return Err(Fault::Refused(Failure::Text(fault))),
        Err(Fault::NoMemory) => return Err(Fault::NoMemory),
    };
    let snap = version_of(alloc, one, two, three)?;
    match link_path(alloc, &snap, third.path, BASE) {
        Ok(linked) => Ok(linked),
        Err(Fault::Refused(fault)) => Err(Fault::Refused(Failure::Link(fault))),
        Err(Fault::NoMemory) => Err(Fault::NoMemory),
    }
}
