//! Kinds of steps that are emitted.

/// Whose step it is: the system's, or one that was inserted.
#[derive(Clone, Copy, Debug, PartialEq, Eq)]
pub enum StepKind {
    System,
    Inserted,
}
