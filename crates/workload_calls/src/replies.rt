//! What the replies of a session say in all, read from the bytes that were written.

ghost use Rattle.std.specs.Prelude.{◌≡◌, ◌+◌, ◌≤◌, ◌<◌, ◌^◌, ◌++◌, length, IfSome, List, ℕ, Some};
ghost use Rattle.std.specs.List.{AllByRecursion};
ghost use Rattle.omos_wire.specs.Answer.{Answer, reply_frame};
ghost use Rattle.workload_calls.specs.Replies.{CanTake, HasFigures, figures_at};
ghost use Rattle.workload_calls.specs.Replies.{first_option, no_sums, replies_bytes, said_at};
ghost use Rattle.workload_calls.specs.Replies.{sums_from, with_said, IsReplyWithin};

use omos_base::{u32_at, u64_at};

/// What is told of the counts.
#[derive(Clone, Copy, Debug, PartialEq, Eq)]
pub(crate) struct Figures {
    /// How many publishes there were.
    pub(crate) version: u64,
    /// How many placements the book has.
    pub(crate) placements: u64,
    /// How many links were answered from the cache.
    pub(crate) hits: u64,
    /// How many images left the cache.
    pub(crate) evicted: u64,
}

/// What a reply says that is summed up.
#[derive(Clone, Copy, Debug, PartialEq, Eq)]
pub(crate) enum Said {
    /// An image, whose file has so many bytes.
    Image(u64),
    Counts(Figures),
    NoMemory,
    Other,
}

/// What some replies say in all.
#[derive(Clone, Copy, Debug, PartialEq, Eq)]
pub(crate) struct Sums {
    /// How many images there are.
    pub(crate) images: u64,
    /// How many bytes their files have.
    pub(crate) bytes: u64,
    /// The figures of the first counts.
    pub(crate) figures: Option<Figures>,
    /// A reply was want of memory.
    pub(crate) lacked: bool,
}

/// How many bytes the first frame has, if it is whole and has a kind.
fn front_size(bytes: &[u8]) -> Option<usize>
    ensures within { IfSome result (λ size. (5 ≤ size) × (size ≤ length bytes.now)) }
    ensures reply { (reply : Answer) (rest : List ℕ) → bytes.now ≡ reply_frame reply ++ rest
        → length bytes.now < 2 ^ 32 → result ≡ Some (length (reply_frame reply)) }
{
    if bytes.len() < 5 {
        return None;
    }
    let size = 4 + u32_at(bytes, 0) as usize;
    if 5 <= size && size <= bytes.len() {
        Some(size)
    } else {
        None
    }
}

/// The figures of a frame of counts.
fn figures_in(frame: &[u8]) -> Figures
    requires { length frame.now ≡ 77 }
    ensures { result ≡ figures_at frame.now }
{
    Figures {
        version: u64_at(frame, 5),
        placements: u64_at(frame, 21),
        hits: u64_at(frame, 37),
        evicted: u64_at(frame, 53),
    }
}

/// What the reply of a frame says.
fn said_in(frame: &[u8]) -> Said
    requires { 5 ≤ length frame.now }
    ensures said { result ≡ said_at frame.now }
    ensures small { IsReplyWithin result (length frame.now) }
{
    match frame[4] {
        130 => Said::Image((frame.len() as u64).saturating_sub(21)),
        133 if frame.len() == 77 => Said::Counts(figures_in(frame)),
        136 => Said::NoMemory,
        _ => Said::Other,
    }
}

/// The first figures.
fn first_option(before: Option<Figures>, figures: Figures) -> Option<Figures>
    ensures { result ≡ first_option before figures }
{
    match before {
        Some(before) => Some(before),
        None => Some(figures),
    }
}

/// The sums with one reply more.
fn with_said(sums: Sums, said: Said) -> Sums
    requires { CanTake sums said }
    ensures { result ≡ with_said sums said }
{
    match said {
        Said::Image(size) => Sums {
            images: sums.images + 1,
            bytes: sums.bytes + size,
            ..sums
        },
        Said::Counts(figures) => Sums {
            figures: first_option(sums.figures, figures),
            ..sums
        },
        Said::NoMemory => Sums {
            lacked: true,
            ..sums
        },
        Said::Other => sums,
    }
}

/// What replies say in all whose frames are these bytes.
pub(crate) fn sums_of(bytes: &[u8]) -> Sums
    requires { length bytes.now < 2 ^ 32 }
    ensures { (replies : List Answer) → bytes.now ≡ replies_bytes replies
        → AllByRecursion HasFigures replies → result ≡ sums_from no_sums replies }
{
    let mut sums = Sums {
        images: 0,
        bytes: 0,
        figures: None,
        lacked: false,
    };
    let mut rest = bytes;
    'replies: while let Some(size) = front_size(rest) {
        let (frame, behind) = rest.split_at(size);
        sums = with_said(sums, said_in(frame));
        rest = behind;
    }
    sums
}
