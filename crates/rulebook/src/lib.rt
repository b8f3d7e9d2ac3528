// Rulebooks: lists of rules that narrow tables of windows, and the laws that they keep.
#![tactic(auto)]

mod answer;
mod rows;
mod rulebook;
mod set;

pub use answer::{BookRefusal, Emptied};
pub use rows::{all_windows, window_at};
pub use rulebook::RuleBook;
pub use set::WindowSet;
