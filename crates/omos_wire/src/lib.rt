//! Requests and replies as frames of bytes.
//!
//! Nothing here answers a request, or knows what a store holds.
#![tactic(auto)]

mod decoder;
mod fields;
mod framing;
mod heads;
mod joining;
pub mod laws;
mod look;
mod owned_reply;
mod readable;
mod reading;
mod refusals;
mod refused_head;
mod reply;
mod request;
mod sending;
mod span;

pub use decoder::{Decoder, Found};
pub use framing::request_frame;
pub use owned_reply::{NotReply, ReplyParts};
pub use readable::replies_are_read_back;
pub use reading::read_reply;
pub use reply::Reply;
pub use request::{FrameCause, Request};
pub use sending::{write_line, write_reply};
pub use span::Span;
