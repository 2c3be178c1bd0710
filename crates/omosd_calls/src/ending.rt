//! How a run ends.

ghost use Rattle.std.specs.Prelude.{◌≡◌};
ghost use Rattle.omosd_calls.specs.inside.Ending.{status_of};

/// How a run ends.
#[derive(Clone, Copy, Debug, PartialEq, Eq)]
pub(crate) enum Ending {
    /// The image was written.
    Done,
    /// The line of a refusal was written.
    Refused,
    /// The words of the command line aren't the call's.
    Usage,
    /// The source failed.
    SourceFailed,
    /// The sink failed.
    SinkFailed,
    /// There was no memory.
    NoMemory,
}

impl Ending {
    /// The status that tells it.
    pub(crate) fn status(self) -> u8
        ensures { result ≡ status_of self }
    {
        match self {
            Ending::Done => 0,
            Ending::Refused => 1,
            Ending::Usage => 2,
            Ending::SourceFailed => 3,
            Ending::SinkFailed => 4,
            Ending::NoMemory => 8,
        }
    }
}
