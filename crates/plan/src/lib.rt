// Plans: a rulebook and a policy that narrow the windows of a lent board.
#![tactic(auto)]

mod answer;
mod board;
mod plan;
mod probe;
mod settling;
mod status;

pub use answer::{Closing, Cutting, PlanRefusal, Verdict};
pub use board::Board;
pub use plan::{Mark, Plan};
pub use probe::try_cut;
