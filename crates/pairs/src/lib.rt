// Rules on two windows of any kind: differ and same.
#![tactic(auto)]

mod pair;

pub use pair::Pair;
