// Sums: the rules that a weighted sum of windows equals a bound, or is at most a bound.
#![tactic(auto)]

mod ends;
mod posted;
mod questions;
mod sum;

pub use ends::Ends;
pub use posted::{MOST_TERMS, PostedSum, Relation, Term};
pub use sum::Sum;
