//! Why a call was not answered.

ghost use Rattle.std.specs.Prelude.{◌≡◌};
ghost use Rattle.omos_base.specs.Fault.{no_memory};

use std::alloc::{AllocError, AllocFailed};
use std::fmt::Display;
use thiserror::Error;

/// There was no memory for what was asked.
#[derive(Clone, Copy, Debug, PartialEq, Eq, Error)]
#[error("no memory")]
pub struct NoMemory;

/// A call was refused for a reason of its own, or there was no memory.
#[derive(Debug, Drop, Error)]
#[error_bound(E: Display + Drop)]
pub enum Fault<E> {
    /// The input is refused, for this reason.
    #[error(transparent)]
    Refused(E),
    /// There was no memory; it may stand in place of any answer.
    #[error("no memory")]
    NoMemory,
}

impl From<AllocError> for NoMemory {
    fn from(_: AllocError) -> Self {
        NoMemory
    }
}

impl<T: Drop> From<AllocFailed<T>> for NoMemory {
    fn from(_: AllocFailed<T>) -> Self {
        NoMemory
    }
}

impl<E> From<NoMemory> for Fault<E> {
    ghost from_gives = { λ _ fault. fault ≡ no_memory };

    fn from(_: NoMemory) -> Self {
        Fault::NoMemory
    }
}

impl<E> From<AllocError> for Fault<E> {
    ghost from_gives = { λ _ fault. fault ≡ no_memory };

    fn from(_: AllocError) -> Self {
        Fault::NoMemory
    }
}

impl<T: Drop, E> From<AllocFailed<T>> for Fault<E> {
    ghost from_gives = { λ _ fault. fault ≡ no_memory };

    fn from(_: AllocFailed<T>) -> Self {
        Fault::NoMemory
    }
}
