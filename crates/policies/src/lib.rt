// Policies: which waiting rule is taken next.
#![tactic(auto)]

mod by_choice;
mod choice;
mod policy;
mod waiting;

pub use by_choice::{ByChoice, FirstCome, LowestFirst};
pub use choice::{Choice, First, Lowest};
pub use policy::Policy;
