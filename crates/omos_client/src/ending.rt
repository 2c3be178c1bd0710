//! How a run of the client ends.

ghost use Rattle.std.specs.Prelude.{◌≡◌};
ghost use Rattle.omos_client.specs.Ends.{client_status};

/// How a run of the client ends.
#[derive(Clone, Copy, Debug, PartialEq, Eq)]
pub enum Ending {
    /// The server did what was asked, and its line was written.
    Done,
    /// The server refused or was full, and its line was written.
    Refused,
    /// The words of the command line ask for nothing.
    Usage,
    /// The link's source failed.
    SourceFailed,
    /// The link's sink failed.
    SinkFailed,
    /// The bytes that came are no reply, or one that the request can't have, or not Bye.
    NotReply,
    /// A file couldn't be read or written.
    FileFailed,
    /// The link ended inside or before the two replies.
    Ended,
    /// The client had no memory.
    NoMemory,
    /// The file has more than 2,000,000 bytes.
    FileTooLong,
    /// The output failed.
    OutputFailed,
    /// The server had no memory, and its line was written.
    ServerNoMemory,
}

impl Ending {
    /// The status that tells it.
    pub(crate) fn status(self) -> u8
        ensures { result ≡ client_status self }
    {
        match self {
            Ending::Done => 0,
            Ending::Refused => 1,
            Ending::Usage => 2,
            Ending::SourceFailed => 3,
            Ending::SinkFailed => 4,
            Ending::NotReply => 5,
            Ending::FileFailed => 6,
            Ending::Ended => 7,
            Ending::NoMemory => 8,
            Ending::FileTooLong => 10,
            Ending::OutputFailed => 11,
            Ending::ServerNoMemory => 12,
        }
    }
}
