//! What the operators on the past of guards need of the past, step by step, without the trace.
#![tactic(auto)]

mod copies;
mod first_memories;
pub mod guards;
pub mod kept_rows;
pub mod laws;
pub mod left_sides;
pub mod memories;
mod names;
mod newcomers;
mod operator_answers;
pub mod operators;
pub mod past;
pub mod prev_operands;
mod restored_past;
mod right_rows;
mod row_filters;
mod row_looks;
pub mod shapes;
mod shared_guard;
pub mod survivors;
pub mod worked_cases;

pub use kept_rows::{KeptRow, KeptRows};
pub use past::{PastState, Tables};
pub use shapes::{RowOutOfBounds, WindowShape, check_rows, window_shapes};
