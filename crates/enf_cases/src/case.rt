//! Why a case has no answer.
use enf_data::NoMemory;
use std::alloc::{AllocError, AllocFailed};

/// Why a case has no answer.
#[derive(Clone, Copy)]
pub enum CaseError {
    UnknownKind,
    /// The input is not of the form that its kind has.
    Malformed,
    NoMemory,
}

impl CaseError {
    /// What is printed in the place of an answer.
    pub fn text(self) -> &'static [u8] {
        match self {
            CaseError::UnknownKind => b"unknown kind",
            CaseError::Malformed => b"malformed",
            CaseError::NoMemory => b"no memory",
        }
    }
}

impl From<NoMemory> for CaseError {
    fn from(_no_memory: NoMemory) -> CaseError {
        CaseError::NoMemory
    }
}

impl From<AllocError> for CaseError {
    fn from(_error: AllocError) -> CaseError {
        CaseError::NoMemory
    }
}

impl<T: Drop> From<AllocFailed<T>> for CaseError {
    fn from(_error: AllocFailed<T>) -> CaseError {
        CaseError::NoMemory
    }
}
