// A sheet: a row of records that gives the windows and the rules of a plan.
#![tactic(auto)]

mod fault;
mod item;
mod lent;
mod states;

pub use fault::{Cause, Fault, Layer};
pub use lent::Lent;
pub use states::{Open, Read};
