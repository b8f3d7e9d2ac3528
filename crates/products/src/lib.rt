// Products: the rule that the product of two windows is a third.
#![tactic(auto)]

mod product;

pub use product::Product;
