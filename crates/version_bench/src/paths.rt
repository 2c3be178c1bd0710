//! The paths that are published, and what stands under them.

use anyhow::Result;
use omos_base::{PathName, Row, Shared};
use omos_model::{Entry, Fragment};
use std::alloc::Global;

/// The path of a publish. Paths come in mixed order, and the first 65,536 are different.
pub(crate) fn path_of(number: u32) -> Result<PathName> {
    let mut rest = number.wrapping_mul(40_503) % 65_536;
    let mut bytes = *b"/p00000";
    for digit in 0..5usize {
        bytes[6 - digit] = b'0' + (rest % 10) as u8;
        rest /= 10;
    }
    Ok(PathName::read(&bytes[..])?)
}

/// An object with nothing in it.
pub(crate) fn nothing(alloc: Global) -> Result<Shared<Entry>> {
    let fragment = Fragment::of(alloc, Row::new(alloc), Row::new(alloc), Row::new(alloc))?;
    Ok(Shared::of(alloc, Entry::Object(fragment))?)
}
