//! Files and texts as entries of the namespace.

ghost use Rattle.std.specs.Prelude.{◌≡◌, Err};
ghost use Rattle.omos_base.specs.Fault.{MatchFault};
ghost use Rattle.omos_model.specs.FragmentOf.{fragment_of};
ghost use Rattle.bp_tree.specs.TextFaults.{IsTextFault};
ghost use Rattle.link_example.specs.Entries.{IsBlueprint};
ghost use Rattle.link_example.specs.Entries.{IsObjectOf};

use bp_tree::parse;
use fragment_read::fragment;
use omos_base::{Fault, Shared};
use omos_model::{BpFault, Entry, ObjectFault};
use std::alloc::Global;

/// The entry of an object's file.
pub(crate) fn object(alloc: Global, file: &[u8]) -> Result<Shared<Entry>, Fault<ObjectFault>>
    ensures { MatchFault result (IsObjectOf file.now) (λ x. fragment_of file.now ≡ Err x) }
{
    match fragment(alloc, file) {
        Ok(fragment) => Ok(Shared::of(alloc, Entry::Object(fragment))?),
        Err(fault) => Err(fault),
    }
}

/// The entry of a blueprint's text.
pub(crate) fn blueprint(alloc: Global, text: &[u8]) -> Result<Shared<Entry>, Fault<BpFault>>
    ensures { MatchFault result (IsBlueprint text.now) (IsTextFault text.now) }
{
    match parse(alloc, text) {
        Ok(image) => Ok(Shared::of(alloc, Entry::Blueprint(image))?),
        Err(fault) => Err(fault),
    }
}
