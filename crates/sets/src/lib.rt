// The set kind: parts of 0..63, kept as the bits of a mask.
#![tactic(auto)]

mod set;

pub use set::{Set, SetRow};
