//! A sink that notes what passes through it.

ghost use Rattle.std.specs.Prelude.{◌≡◌, ◌≤◌, ◌<◌, ◌^◌, length};
ghost use Rattle.std.specs.Io.KnownBytes.{Appends};
ghost use Rattle.omos_outside.specs.Faults.{Rose};
ghost use Rattle.omos_outside.specs.Took.{accepted, FitsPiece};

use arrayvec::ArrayVec;
use omos_outside::{Sink, Took};

/// The most bytes that are noted: as many as the longest line of a refusal has.
const ROOM: usize = 3088;

/// Another sink, and the first 3,088 bytes that it took. It answers, fails and tells its bytes as
/// the other does.
#[derive(Drop)]
pub struct Noting<S: Sink + Drop> {
    inner: S,
    noted: ArrayVec<u8, 3088>,
}

impl<S: Sink + Drop> Noting<S> {
    /// A sink over the other one, which has noted nothing yet.
    pub fn new(inner: S) -> Noting<S>
        ensures { result.inner ≡ inner }
    {
        Noting {
            inner,
            noted: ArrayVec::new(),
        }
    }

    /// The bytes that it has noted.
    pub fn noted(&self) -> &[u8]
        ensures { result.now ≡ self.now.noted.items }
    {
        self.noted.as_slice()
    }
}

impl<S: Sink + Drop> Sink for Noting<S> {
    ghost held = { λ s. S.held s.inner };

    ghost faults = { λ s. S.faults s.inner };

    /// Hands the piece on, and notes what was taken of it while there is room.
    fn write(&mut self, piece: &[u8]) -> Took {
        let took = self.inner.write(piece);
        if let Took::Bytes(count) = took {
            let count = count.min(ROOM - self.noted.len());
            self.noted.try_extend_from_slice(&piece[..count]).unwrap();
        }
        took
    }
}
