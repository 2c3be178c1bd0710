//! A reply that was read, and owns what it holds.

use crate::span::Span;
use hub_store::Counts;
use omos_base::{Bytes, Row};
use refusal_lines::Refused;
use thiserror::Error;

/// A reply that was read.
#[derive(Drop)]
pub enum ReplyParts {
    Published(u64),
    Image {
        version: u64,
        base: u64,
        bytes: Bytes,
    },
    Refused(Refused),
    Places(Row<Span>),
    Counts(Counts),
    Flushed(bool),
    Bye,
    NoMemory,
    Full,
    KeptFull,
}

/// The bytes are no frame of a reply.
#[derive(Clone, Copy, Debug, PartialEq, Eq, Error)]
#[error("the server's answer is no reply")]
pub struct NotReply;
