//! Why reading stops.

use omos_model::BpFault;

/// The text ends too early, or there is a fault at a token.
#[derive(Clone, Copy)]
pub(crate) enum Stop {
    Early,
    At(BpFault),
}
