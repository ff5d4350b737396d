//! What is done at a step.
use enf_data::Items;
pub use obligations::Action;

/// A list of actions.
pub type Actions = Items<Action>;
