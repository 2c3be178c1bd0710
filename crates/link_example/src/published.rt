//! What is published.

use omos_base::PathName;

/// The bytes of an object's file or of a blueprint's text, and the path under which they are put.
#[derive(Clone, Copy)]
pub struct Published<'a> {
    pub path: &'a PathName,
    pub content: &'a [u8],
}
