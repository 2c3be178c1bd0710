//! A reply that owns what it holds.

ghost use Rattle.std.specs.Prelude.{◌≡◌};
ghost use Rattle.omos_wire.specs.Answer.{answer_of};
ghost use Rattle.omos_session.specs.inside.Given.{answer_given};

use hub_store::Counts;
use link_model::Linked;
use omos_base::{Row, Shared};
use omos_model::Placement;
use omos_wire::Reply;
use refusal_lines::Refused;

/// A reply that owns what it holds; an image is shared with the cache.
#[derive(Drop)]
pub(crate) enum Given {
    Published(u64),
    Image { version: u64, image: Shared<Linked> },
    Refused(Refused),
    Places(Row<Placement>),
    Counts(Counts),
    Flushed(bool),
    Bye,
    NoMemory,
    Full,
    KeptFull,
}

impl Given {
    pub(crate) fn reply(&self) -> Reply<'_>
        ensures { answer_of result ≡ answer_given self.now }
    {
        match self {
            Given::Published(version) => Reply::Published(*version),
            Given::Image { version, image } => Reply::Image {
                version: *version,
                base: image.get().base(),
                bytes: image.get().bytes(),
            },
            Given::Refused(refused) => Reply::Refused(refused),
            Given::Places(list) => Reply::Places(list.as_slice()),
            Given::Counts(counts) => Reply::Counts(*counts),
            Given::Flushed(held) => Reply::Flushed(*held),
            Given::Bye => Reply::Bye,
            Given::NoMemory => Reply::NoMemory,
            Given::Full => Reply::Full,
            Given::KeptFull => Reply::KeptFull,
        }
    }
}
