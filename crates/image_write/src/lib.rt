//! The bytes of an image: a page with the headers, the pieces of the leaves, the slots and the
//! fields, as a static executable (System V gABI, chapters 4 and 5).
//!
//! `image_at` lays a module out and writes it; `write` takes a layout that stands. Nothing here
//! chooses a base.
#![tactic(auto)]

mod addresses;
mod body;
mod fields;
mod file;
mod groups;
mod headers;
mod image;
mod sections;
mod slots;

pub use file::write;
pub use image::image_at;
