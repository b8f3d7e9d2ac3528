// Windows: sets of whole numbers that are never empty, and the kinds that they come in.
#![tactic(auto)]

mod sizes;
mod span;
mod window;

pub use sizes::sum_of_sizes;
pub use span::{Span, SpanRow};
pub use window::Window;
