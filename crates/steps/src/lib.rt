// Steps: the rule that one window is another moved by a distance.
#![tactic(auto)]

mod step;

pub use step::Step;
