//! Why there is no image.

use omos_model::{BpFault, ObjectFault, Refusal};
use thiserror::Error;

/// What is wrong with what was given.
#[derive(Debug, Drop, Error)]
pub enum Failure {
    /// The first fault of the first object: O1 to O11.
    #[error("the first object is refused")]
    First(ObjectFault),
    /// The first fault of the second object.
    #[error("the second object is refused")]
    Second(ObjectFault),
    /// The first fault of the blueprint's text: B1 to B6.
    #[error("the blueprint's text is refused")]
    Text(BpFault),
    /// The first refusal of the link: L1 to L11, or L13.
    #[error("the link is refused")]
    Link(Refusal),
}
